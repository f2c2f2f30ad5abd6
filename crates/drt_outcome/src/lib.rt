//! How a run ends: its status, its fault, what shows a spent budget, and the line that tells it.
//!
//! A command refuses an input with a `Fault`, and its report may have a `Trail`. `outcome_of` says
//! how a run ends that stopped, and `notice` what the program then prints on standard error.
#![tactic(auto)]

pub mod fault;
pub mod notices;
pub mod outcome;
pub mod stop;

pub use fault::{Fault, PastEdge, fault_status};
pub use notices::notice;
pub use outcome::{Outcome, Trail};
pub use stop::{Stop, outcome_of};
