//! How far EDF's demand has to be looked at.
//!
//! `plan` brings the ratios of a set to one scale and says whether its utilisation is below, at or above one. Below one it
//! gives the horizon: `horizon_holds` is that no time past it has walks with too much work. Above one the cycles that have
//! the ratios ask for too much by themselves, and `overload` searches their step times; `overload_has_a_time` bounds where
//! that search ends.
//!
//! `drt_rates::scan` looks for the least time up to a horizon at which the demands of the tasks over their fronts are too
//! much; `demands_within` is that there is none past the horizon, where the fronts' labels are those of walks.
#![tactic(auto)]

mod answers;
mod cycle_turns;
mod given;
mod laws;
mod plans;
mod searching;

pub use answers::{Beyond, Horizon, Over};
pub use cycle_turns::CycleTurn;
pub use drt_rates::scan;
pub use given::ratios;
pub use laws::{demands_within, horizon_holds, overload_has_a_time, search_ends, work_is_bounded};
pub use plans::plan;
pub use searching::overload;
