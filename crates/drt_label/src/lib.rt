//! Labels of walks.
//!
//! A label sums up a walk of a task's graph, and a table keeps only the labels that no other one dominates.
//! What the table needs to know of a label is the trait `Label` alone: how labels are made, read and compared, and
//! the laws that dominance keeps. The demand labels of EDF and the request labels of fixed priorities are its two
//! kinds.
#![tactic(auto)]

mod label;

pub use label::{Label, SAMPLES};
pub use std::alloc::AllocError as Memory;
