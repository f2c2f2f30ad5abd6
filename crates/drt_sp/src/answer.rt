//! The answers of an analysis.
use drt_claims::Evidence;

/// What is found of a set under fixed priorities.
#[derive(Drop)]
pub enum Answer<Y, T> {
    /// Each job meets its deadline, as this shows.
    Meets(Y),
    /// A job misses its deadline, with the evidence.
    Misses(Evidence),
    /// A budget is spent before there is an answer, as this trail shows.
    Undecided(T),
}
