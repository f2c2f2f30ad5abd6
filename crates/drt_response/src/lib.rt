//! Exact worst response times under fixed priorities.
//!
//! `respond` looks for the greatest response time of each vertex, and shows releases that reach it: first by the trees of `drt_sp` with few
//! steps, so that small sets have a small answer, then by tails and states, then by trees with the whole budget. The layer above uses the
//! one contract of `respond`. `budgets_suffice_for_responses` says that a budget that is enough for the analysis is enough here. `Response`
//! and `print`, which writes responses as text, are those of `drt_responses`.
#![tactic(auto)]

mod ahead;
mod answer;
mod by_states;
mod by_trees;
mod laws;
mod reaching;
mod responding;
mod subjects;
mod vertex;

pub use answer::ResponseTrail;
pub use by_states::respond_by_states;
pub use drt_responses::{Response, print};
pub use drt_sp::Answer;
pub use laws::budgets_suffice_for_responses;
pub use responding::respond;
