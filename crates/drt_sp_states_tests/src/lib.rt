//! Tests of the search of states: worked sets that pass, that miss, and whose states are split.
#![tactic(auto)]

#[cfg(test)]
mod cases;
#[cfg(test)]
mod tests;
