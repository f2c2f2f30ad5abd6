//! Tests of what the analysis under fixed priorities stands on: trees of request functions, their labels, and worked rows of frontiers,
//! as the definitions compute them and as real frontiers answer. And of the analysis itself: dossiers of worked sets, spent budgets,
//! and answers by several workers. Drawn sets are compared with a plain reading by `examples/drawn`.
#![tactic(auto)]

#[cfg(test)]
mod answer_tests;
#[cfg(test)]
mod answering;
#[cfg(test)]
mod meeting_tests;
#[cfg(test)]
mod parts_tests;
#[cfg(test)]
mod refine_driver;
mod refine_rows;
#[cfg(test)]
mod refine_tests;
#[cfg(test)]
mod request_tests;
#[cfg(test)]
mod table_tests;
#[cfg(test)]
mod tick_tests;
#[cfg(test)]
mod tree_tests;
#[cfg(test)]
mod worked_trees;

pub use refine_rows::{split_once, split_twice};
