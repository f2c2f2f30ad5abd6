//! A table that several workers step, each through a pass of its own, under one lock.
//!
//! Labels are made outside the lock: a worker that took a node has a label of its own, extends it where memory may be taken, and
//! offers what it made. Each call looks under the lock whether the pass still agrees with the table, makes one step of the table
//! machine, and raises the pass's count where the step is logged. After `SharedTable::finish` the log has as many entries as
//! the passes count together, and the table is one that `Table::drive` can go on with.
#![tactic(auto)]

mod board;
mod pass;
mod passes;
mod reply;
mod shared;
mod terms;

pub use pass::{Holding, Pass};
pub use reply::{Found, SharedReply};
pub use shared::{SharedEnd, SharedTable};
