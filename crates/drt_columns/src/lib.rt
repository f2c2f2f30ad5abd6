//! Labels by their samples, in columns.
//!
//! A table of labels compares each new label with all kept ones of its vertex. `Columns` keeps a few samples of each label
//! in such a form that most of the kept labels are ruled out many at a time: what `seek` and `next` name is all that is
//! left to compare. The crate knows nothing of labels beside their numbers and samples.
#![tactic(auto)]

mod block;
mod columns;
mod seek;

pub use columns::Columns;
pub use seek::Seek;
