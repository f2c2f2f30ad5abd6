//! Worked task sets for tests: tasks from tables of numbers, and the texts of files.
//!
//! `make_task` and `make_set` turn shapes into tasks and sets, whose names are letters counted from
//! `a`. `shapes` has tasks and `texts` the files of the worked examples. Nothing is proved of a set made here but that
//! it is one: what a test expects of it is worked out by hand.
#![tactic(auto)]

mod sets;
pub mod shapes;
pub mod texts;

pub use sets::{Shape, edge, make_looped, make_name, make_set, make_task, make_vertex};
