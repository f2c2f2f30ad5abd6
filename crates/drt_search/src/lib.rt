//! Searches of a graph's walks by several workers.
//!
//! Where a gate wants several workers to begin at once, `search_together` starts a shared table with a pass for each, has them turn
//! their passes, and drives what they left over to its end; else it drives a table alone. Its answer is that of a table that one
//! caller starts and drives, so the layers above use it in place of these two. A worker makes its labels where no lock is held.
#![tactic(auto)]

mod search;
mod turn;

pub use search::{drive_on, search_together};
pub use turn::{SharedLabel, Turned, take_turn};
