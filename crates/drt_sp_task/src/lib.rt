//! The analysis of one task under its priority, by trees.
//!
//! `analyse_task` makes trees that stand for the walks of the tasks of higher priority, and proves each vertex of the task against them.
//! Whether the tasks of higher priority meet their own deadlines doesn't matter: nothing is assumed of it, and nothing is said. The layer
//! above uses the one contract of `analyse_task`.
//!
//! `budgets_suffice_for_task` says that a budget that is enough for the whole set is enough for each of its tasks.
#![tactic(auto)]

mod analysis;
mod answer;
mod given;
pub mod laws;
mod missing;
mod trees;
mod vertices;

pub use analysis::analyse_task;
pub use answer::TaskAnswer;
pub use laws::budgets_suffice_for_task;
