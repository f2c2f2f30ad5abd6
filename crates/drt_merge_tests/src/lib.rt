//! Tests of merged fronts: those of small tasks are worked out by hand, and drawn tasks have one.
#![tactic(auto)]

#[cfg(test)]
mod tests;
