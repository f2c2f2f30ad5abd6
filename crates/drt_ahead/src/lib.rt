//! Answers that workers find ahead of a loop.
//!
//! A caller has independent jobs, and a loop that takes their answers in order of places. Before the loop `look_ahead` has workers begin the
//! jobs, the largest first, and gives the answers that were found, each at its job's place. Where the loop comes to a place, it takes what is
//! there by `take_found`, or does the job itself. Each answer that is there is one that the job may give, whoever did it, so the loop
//! promises what it promises without workers.
#![tactic(auto)]

mod crew;
mod found;
mod line;
mod looking;
mod sizes;

pub use found::take_found;
pub use looking::look_ahead;
pub use sizes::{largest_first, shared_size};
