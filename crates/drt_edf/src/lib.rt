//! The exact analysis of a task set under EDF.
//!
//! `analyse_edf` takes the ratios of the tasks' cycles and plans by them: a utilisation of one is told apart; above one the
//! turns of the cycles are searched for a time with too much work; below one each task's walks are searched up to the horizon,
//! and the demands over these fronts are scanned. Where the budget is enough for any search of a task's walks, and there are at most 2^22 cells,
//! they are worked in a wave table of `drt_wave`, and else in a table whose steps the budget counts.
//! Searches of the latter kind go side by side. Each answer carries its evidence, which keeps the rules of `drt_claims`, and each other
//! answer its cause. The layer above uses the one contract of `analyse_edf`.
#![tactic(auto)]

mod above;
mod analysis;
mod answer;
mod below;
mod laws;
mod reckoning;
mod refusal;
mod searching;
mod turns;

pub use analysis::analyse_edf;
pub use answer::EdfAnswer;
pub use drt_edf_fronts::{has_wave_table, searches_are_bounded};
pub use drt_trails::EdfTrail;
pub use laws::{horizon_is_one, rates_are_one};
