//! The answers of the analysis.
use drt_claims::Evidence;
use drt_horizon::Beyond;
use drt_trails::EdfTrail;

/// What the analysis of a set under EDF found.
#[derive(Drop)]
pub enum EdfAnswer {
    /// The set is schedulable, or isn't, or its utilisation is one, with the evidence.
    Done(Evidence),
    /// The numbers of the set are out of reach.
    Beyond(Beyond),
    /// A budget was spent before there was an answer.
    Undecided(EdfTrail),
}
