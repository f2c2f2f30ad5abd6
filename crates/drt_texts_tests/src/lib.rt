//! Tests of reading and writing, of the words of the command line, of drawn sets as texts, and of lines of the summary.
#![tactic(auto)]

#[cfg(test)]
mod adapters;
#[cfg(test)]
mod devices;
#[cfg(test)]
mod gen_tests;
#[cfg(test)]
mod summary_tests;
#[cfg(test)]
mod words_tests;
