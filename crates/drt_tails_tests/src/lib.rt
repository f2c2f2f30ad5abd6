//! Tests of tails: those of two small tasks, worked out by hand.
#![tactic(auto)]

#[cfg(test)]
mod tests;
