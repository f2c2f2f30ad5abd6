//! Releases, the jobs that they make, misses and policies.

/// A job that a task releases: its task and vertex by number, when it is released, and the ticks that
/// it needs.
#[derive(Debug, Clone, Copy, PartialEq, Eq)]
pub struct Release {
    pub task: u32,
    pub vertex: u32,
    pub time: u64,
    pub need: u64,
}

/// A job as the tick machine sees it: its task by number and that task's priority, its release, its
/// absolute deadline and its need, in ticks.
#[derive(Debug, Clone, Copy, PartialEq, Eq)]
pub struct Job {
    pub task: u32,
    pub priority: u32,
    pub time: u64,
    pub deadline: u64,
    pub need: u64,
}

/// A job that hasn't had its need by its deadline: its task, its place among the task's jobs, and the
/// absolute deadline.
#[derive(Debug, Clone, Copy, PartialEq, Eq)]
pub struct Miss {
    pub task: u32,
    pub index: u32,
    pub deadline: u64,
}

/// Which pending job runs: that of the earliest deadline, or that of the highest fixed priority.
#[derive(Debug, Clone, Copy, PartialEq, Eq)]
pub enum Policy {
    Edf,
    Fixed,
}
