//! Tests of dense tables: works, fronts and walks that were worked out by hand, the numbers that seats draw, and
//! drawn tasks beside tables of labels, with 1 to 16 workers.
#![tactic(auto)]

#[cfg(test)]
mod drawn_tests;
#[cfg(test)]
mod graphs;
#[cfg(test)]
mod relief;
#[cfg(test)]
mod seat_tests;
#[cfg(test)]
mod sharing_tests;
#[cfg(test)]
mod tables;
#[cfg(test)]
mod wide_tests;
#[cfg(test)]
mod work_tests;
