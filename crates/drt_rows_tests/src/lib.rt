//! Tests of real demand tables by the worked rows: what they answer to given calls, and which nodes are dropped at once; and of labels in columns.
#![tactic(auto)]

#[cfg(test)]
mod columns_tests;
#[cfg(test)]
mod driver;
#[cfg(test)]
mod dropping_tests;
#[cfg(test)]
mod tests;
