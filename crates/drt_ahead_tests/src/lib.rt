//! Tests of what workers find ahead: at which places answers stand, where there are none, and that two workers are at work at the same time.
#![tactic(auto)]

#[cfg(test)]
mod ahead_tests;
