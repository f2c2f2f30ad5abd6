//! The answers of the analysis of one task.
use drt_model::{Miss, Release, Row};
use drt_trails::FixedTrail;

/// What was found of one task under its priority.
#[derive(Drop)]
pub enum TaskAnswer {
    /// No job of the task misses, whatever is released.
    Meets,
    /// Legal releases, none of a task of lower priority, and a job of the task that misses in them.
    Misses { releases: Row<Release>, miss: Miss },
    /// A budget was spent before there was an answer.
    Undecided(FixedTrail),
}
