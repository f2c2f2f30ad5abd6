//! Tests of numbers, efforts, graphs and request functions, and of the tick machine and its replay, on what was worked by hand.
#![tactic(auto)]

#[cfg(test)]
mod effort_tests;
#[cfg(test)]
mod graph_tests;
#[cfg(test)]
mod looped;
#[cfg(test)]
mod machine;
#[cfg(test)]
mod num_tests;
#[cfg(test)]
mod rates_tests;
#[cfg(test)]
mod replaying;
#[cfg(test)]
mod steps_tests;
#[cfg(test)]
mod sweep_tests;
