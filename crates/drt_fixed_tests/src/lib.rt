//! Tests of the answer under fixed priorities: by tails and states, and in which order they are tried.
#![tactic(auto)]

#[cfg(test)]
mod tests;
