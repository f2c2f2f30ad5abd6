//! Digraph real-time tasks, their releases, and the tick machine that runs them.
//!
//! What must be believed of the whole tool stands in `specs/` of this crate: which releases are
//! legal, what the processor does at each tick, what a miss is, when a set is schedulable, and
//! what the utilisation of a set is. No definition there speaks of an analysis. The layer above
//! uses `legal`, the types and these definitions.
#![tactic(auto)]

pub mod copying;
pub mod jobs;
pub mod limits;
pub mod name;
pub mod plain;
pub mod releases;
pub mod row;
pub mod tasks;

pub use copying::copy_vertices;
pub use jobs::{Job, Miss, Policy, Release};
pub use limits::{MOST_TIME, MOST_VERTICES, task_set};
pub use name::Name;
pub use plain::plain_trace;
pub use releases::legal;
pub use row::Row;
pub use std::alloc::AllocError as Memory;
pub use tasks::{Edge, Task, TaskSet, Vertex};
