//! Tests of what several workers share: the pool and the lock round a machine that notes who stepped it; tables that are searched together,
//! step by step, halted, and by several numbers of workers; and the shared frontier, as several passes are answered in a given order.
#![tactic(auto)]

#[cfg(test)]
mod frontier_differing;
#[cfg(test)]
mod frontier_driver;
#[cfg(test)]
mod frontier_passes;
#[cfg(test)]
mod frontier_workers;
#[cfg(test)]
mod lock_tests;
#[cfg(test)]
mod pool_tests;
#[cfg(test)]
mod search_tests;
#[cfg(test)]
mod tally;
#[cfg(test)]
mod turn_tests;
