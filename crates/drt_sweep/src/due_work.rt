//! A work that is due at a time.

/// A work of a task with the time at which it is due, both in ticks. Tasks are named by their numbers, from 0 to 31.
#[derive(Drop, Clone, Copy, Debug, PartialEq, Eq)]
pub struct DueWork {
    pub due: u64,
    pub task: u32,
    pub work: u64,
}
