//! The top call: one run of the command, from its words and its input to its output and its status.
//!
//! `run` carries the theorem of the whole tool: a text is written only where it is what the command
//! makes of the input, and every other status comes only under its cause. The program above prints
//! `notice` and ends with the status. Each command is a crate of its own; a further one is one arm of `dispatch` and of `rules_of`.
#![tactic(auto)]

pub mod running;

pub use drt_outcome::{Fault, Outcome, Trail, notice};
pub use running::run;
