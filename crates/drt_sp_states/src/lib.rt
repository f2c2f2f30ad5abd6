//! The search of states of one vertex under fixed priorities.
//!
//! `search_states` looks for states that show that the vertex meets its deadline, or for walks of the tasks of higher priority for
//! which it doesn't. Nothing is relied on of how it finds them: a yes is given only where the deciders of `drt_check_states` accept
//! its states, a no only where no time passes for its walks.
#![tactic(auto)]

mod curves;
mod ends;
mod idle;
mod looking;
mod places;
mod response;
mod search;
mod stepping;
mod tables;
mod tails;
mod trials;
mod trying;
mod walks;
mod waves;
mod workers;

pub use places::Subject;
pub use response::{Responded, search_response};
pub use search::{Searched, search_states};
