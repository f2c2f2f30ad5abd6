//! Drawn task sets, the same for the same number: the work of the command `bench`.
//!
//! A set has 12 tasks of 12 vertices. `generate` draws it from a number by a linear congruential
//! generator, and its contract says each field as a formula of the draw that the field takes.
//! `sets_keep_limits` and `deadlines_are_constrained` say what holds of all of them.
#![tactic(auto)]

mod draws;
mod generating;
mod laws;

pub use generating::generate;
pub use laws::{deadlines_are_constrained, sets_keep_limits};
