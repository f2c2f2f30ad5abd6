//! The command `assign`: priorities under which a set is schedulable, or the tasks for which there are none.
//!
//! Its verdict stands in `specs/Verdict.antt`, and what stands besides, as its evidence and its trails, in `specs/Besides.antt`.
#![tactic(auto)]

mod command;
mod text;

pub use command::{Assign, make};
