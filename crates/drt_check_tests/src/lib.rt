//! Tests of what no dossier shows of the checker's crates: fronts within bounds that are no horizon of their set, a tree
//! without a walk, and what nodes' values are, as the definitions compute them and as `take_values` takes them. What dossiers
//! show stands in examples/cases, as runs of `drt check`.
#![tactic(auto)]

#[cfg(test)]
mod front_tests;
#[cfg(test)]
mod given;
#[cfg(test)]
mod tree_tests;
#[cfg(test)]
mod value_tests;
mod worked;

pub use worked::{chain_values, tree_is_claimed, tree_values};
