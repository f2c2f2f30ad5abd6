//! The tail of a task: for each vertex a function that bounds what walks that start there ask for, and that walks attain.
//!
//! A walk that starts at a vertex, read backwards, is a walk of the turned graph that ends there, and has the same span and the same work. So the
//! tail up to a bound is the front of the turned graph up to it, where each deadline is 1, in one list for each vertex. The call for the layer
//! above is `find_tail`.
#![tactic(auto)]

mod cutting;
mod deadlines;
mod tails;
mod turning;

pub use deadlines::latest_deadline;
pub use tails::find_tail;
