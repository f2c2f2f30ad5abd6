//! The answers.
use drt_claims::Evidence;
use drt_horizon::Beyond;
use drt_trails::{EdfTrail, FixedTrail};

/// What is shown of the set with one tick more than the margin.
#[derive(Drop)]
pub enum Next {
    /// Evidence of that set, which isn't a yes.
    Shown(Evidence),
    /// The execution time would exceed 1,000,000 ticks.
    Limit,
}

/// Where an analysis spent a budget, under its policy.
#[derive(Drop)]
pub enum MarginTrail {
    Edf(EdfTrail),
    Fixed(FixedTrail),
}

/// What was found of the margin of a vertex.
#[derive(Drop)]
pub enum MarginAnswer {
    /// The margin, in ticks, the evidence of the set with it, and what is shown of the set with one tick more.
    Found {
        add: u32,
        within: Evidence,
        next: Next,
    },
    /// The set as it is isn't a yes.
    AtZero(Evidence),
    /// Under EDF, the numbers of the set with so many ticks more are out of reach.
    Beyond {
        add: u32,
        beyond: Beyond,
    },
    /// The analysis of the set with so many ticks more spent a budget.
    Undecided {
        add: u32,
        trail: MarginTrail,
    },
}
