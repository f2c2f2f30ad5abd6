//! The answer to a task set under fixed priorities.
//!
//! `analyse_fixed` first goes by the trees of `drt_sp` with few steps, so that small sets have a small answer. Where
//! these are spent, or are bound to be (`is_beyond_trees`), it goes by tails and states, which looks only as deep as
//! the answer needs; and where that finds none, by trees with the whole budget. An answer by tails and states is given
//! only where the checker accepts it, so nothing is relied on of how it is found, but that the releases of a no are
//! those of the walks that a search finds.
#![tactic(auto)]

mod analysis;
mod foresight;
mod looking;
mod ranges;
mod releases;
mod searching;
mod tails;
mod vertices;

pub use analysis::{Analysed, analyse_fixed, decide_by_states, first_effort};
pub use drt_sp::ALLOWANCE;
pub use foresight::is_beyond_trees;
pub use looking::{ENOUGH_STATES, MOST_AHEAD};
