//! A lock round a machine that keeps the log of its steps.
//!
//! Threads step the machine under the lock, each with a seat of its own. A seat counts the steps that it logged, and what all
//! seats counted is the length of the log: `Lock::close` says so of the seat to which all others were joined. Whoever finds the
//! lock free takes it; one that doesn't looks again for a while, and then sleeps until it is woken.
#![tactic(auto)]

mod kept;
mod lock;
mod rule;
mod view;

pub use kept::Kept;
pub use lock::Lock;
pub use rule::{Guarded, Rule};
pub use view::{Grip, SeatView};
