//! The front of a task's walks, merged from sorted lists.
//!
//! Each vertex has a list of marks, in ascending order of offset and of work: the labels of walks that end there and that no other covers. Each
//! edge has a cursor into the list of its source, and the mark at the cursor gives the edge's candidate. `merged_front` offers the candidates in
//! order of offset, and keeps those that no mark covers. The proof that the front is exact doesn't rest on that order: a candidate that comes out
//! of order is noticed, and then there is no front.
#![tactic(auto)]

mod arcs;
mod gathering;
mod lists;
mod mark;
mod merging;
mod offering;
mod opening;
mod queue;
mod streams;

pub use arcs::Arc;
pub use lists::Lists;
pub use mark::Mark;
pub use merging::{Patience, merged_front};
pub use offering::Offered;
