//! The answer to one task under its priority.
//!
//! `decide_task` first goes by tails and states, which looks only as deep as the answer needs; where that finds none, and where the budget is
//! one for trees alone, it goes by the trees of `drt_sp_task`. The tasks of lower priority don't matter, and
//! nothing is assumed of those of higher priority: they may well miss deadlines of their own. The layer above uses the one contract of
//! `decide_task`.
#![tactic(auto)]

mod by_states;
mod deciding;
mod higher;
mod refusal;
mod subjects;
mod tails;

pub use deciding::decide_task;
pub use drt_sp_task::TaskAnswer;
