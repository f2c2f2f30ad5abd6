//! The command `bench`: both verdicts about a drawn set. Its promises stand in specs/Bench.antt. The law
//! `scales_are_small` says of each drawn set that its scale is small, so that the command never meets one that is too fine.
#![tactic(auto)]

mod ahead;
mod command;
mod laws;

pub use command::{Bench, make};
