//! Tests of exact worst response times: worked sets, drawn sets by states and by several workers, and searches of worked forests. Drawn sets are
//! compared with a plain reading by `examples/drawn`.
#![tactic(auto)]

#[cfg(test)]
mod answers;
#[cfg(test)]
mod search_tests;
#[cfg(test)]
mod searches;
#[cfg(test)]
mod states_tests;
#[cfg(test)]
mod worked_tests;
