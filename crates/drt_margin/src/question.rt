//! What is asked of sets.
use drt_model::Policy;

/// What is asked of sets: for which vertex of which task they are changed, each by its number from 0, and under which policy they are analysed.
#[derive(Clone, Copy, Drop)]
pub struct Question {
    pub policy: Policy,
    pub task: u32,
    pub vertex: u32,
}
