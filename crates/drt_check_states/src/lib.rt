//! The rules of the independent checker on claimed tails and states.
//!
//! A yes under fixed priorities may come with a tail for each task but the one of lowest priority, and with a search for each vertex.
//! `is_tail` and `bounds_walks` decide what `drt_states/specs/Tails.antt` asks of a tail; `are_states`, `have_dominated_children`
//! and `have_passing_times` what `drt_states/specs/States.antt` asks of the states of a search, each once those before it are kept.
//! `find_crests` finds the greatest values of the tails once for all searches. It stands on no crate of the search.
#![tactic(auto)]

mod children;
mod crests;
mod curves;
mod passing;
mod states;
mod tails;

pub use children::have_dominated_children;
pub use crests::find_crests;
pub use passing::have_passing_times;
pub use states::are_states;
pub use tails::{bounds_walks, is_tail};
