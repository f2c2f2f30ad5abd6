//! The command `convert`: a classic file as a task file of version 1. Its promises stand in specs/: Verdict.antt,
//! Besides.antt and, for what is refused, Convert.antt.
#![tactic(auto)]

mod command;

pub use command::Convert;
