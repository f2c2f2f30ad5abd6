//! The rules on the claimed tails and searches of a yes under fixed priorities, for the independent checker.
//!
//! There is a tail for each task but the one of lowest priority, and a search for each vertex. What they have to keep over the graphs
//! and deadlines of a set is said in `drt_claims/specs/Searches.antt`; `drt_check_states` decides it for one tail, and for the
//! states of one search.
//!
//! The checker above uses `has_rising_tails`, `bound_walks`, `is_search_per_vertex`, `have_states`, `have_passing_states` and
//! `have_dominated_splits`, in this order. It stands on no crate of the search. Only `have_passing_states` takes memory.
#![tactic(auto)]

mod bounds;
mod passing;
mod places;
mod splits;
mod states;
mod subjects;
mod tails;
mod vertices;

pub use passing::have_passing_states;
pub use splits::have_dominated_splits;
pub use states::have_states;
pub use subjects::is_search_per_vertex;
pub use tails::{bound_walks, has_rising_tails};
