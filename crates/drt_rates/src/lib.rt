//! The arithmetic of ratios with potentials, and the sweep over fronts.
//!
//! `scale`, `rate` and `horizon` are those of a set of tasks with a ratio and potentials each, whoever found or claims them
//! (`RatioClaim`). `scan` looks for the least time at which the demands of the tasks over their fronts are too much. Nothing
//! here searches for a ratio, potentials or a front, so the analysis and the checker of claims share it.
#![tactic(auto)]

mod horizons;
mod ratio_claim;
mod scales;
mod scanning;

pub use horizons::horizon;
pub use ratio_claim::RatioClaim;
pub use scales::{rate, scale};
pub use scanning::scan;
