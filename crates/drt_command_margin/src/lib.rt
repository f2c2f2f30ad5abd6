//! The command `margin`: how much the execution time of a vertex can grow.
//!
//! Its verdict stands in `specs/Verdict.antt`, and what stands besides, as its evidence and its trails, in `specs/Besides.antt`.
#![tactic(auto)]

mod command;
mod text;

pub use command::{Margin, make};
