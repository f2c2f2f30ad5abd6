//! Events of jobs.

/// What happens to a job.
#[derive(Debug, Clone, Copy, PartialEq, Eq)]
pub enum Mark {
    /// It gets its last tick just before.
    Finish,
    /// Its deadline comes, and it doesn't miss it.
    Deadline,
    /// Its deadline comes, and it misses it.
    Miss,
    /// It is released.
    Release,
}

/// An event: when it happens, in ticks, what it is, and the job's place in the list of releases.
#[derive(Debug, Clone, Copy, PartialEq, Eq)]
pub struct Event {
    pub time: u64,
    pub mark: Mark,
    pub job: usize,
}
