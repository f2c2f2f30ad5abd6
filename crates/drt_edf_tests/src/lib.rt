//! Tests of what the analysis under EDF stands on, by hand: demand, ratios of cycles, horizons, fronts. And of the analysis itself: which kind
//! of table a task has, worked noes, and that two tasks are searched at the same time. Drawn sets and large fronts are compared with a plain
//! reading by `examples/drawn`.
#![tactic(auto)]

#[cfg(test)]
mod ahead_tests;
#[cfg(test)]
mod demand_tests;
#[cfg(test)]
mod fronts_tests;
#[cfg(test)]
mod horizon_tests;
#[cfg(test)]
mod kind_tests;
#[cfg(test)]
mod ratio_tests;
#[cfg(test)]
mod refusal_tests;
