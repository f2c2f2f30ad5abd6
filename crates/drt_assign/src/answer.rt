//! The answers to a set that wants priorities.
use drt_claims::Dossier;
use drt_model::{Miss, Release, Row, TaskSet};
use drt_trails::FixedTrail;

/// Legal releases, and the job that misses in them where its task has the lowest priority of those that release.
#[derive(Drop)]
pub struct Stuck {
    pub releases: Row<Release>,
    pub miss: Miss,
}

/// What was found of a set that wants priorities.
#[derive(Drop)]
pub enum AssignAnswer {
    /// An order: the dossier of the set with it, a yes.
    Done(Dossier),
    /// No order exists: the set as it was, and the tasks that are stuck, in order of the file.
    NoOrder {
        set: TaskSet,
        stuck: Row<Stuck>,
    },
    /// A budget was spent at this task under these others: the set as it was.
    Undecided {
        set: TaskSet,
        higher: Row<u32>,
        task: u32,
        trail: FixedTrail,
    },
    /// An order was found, and a budget was spent by the analysis of the set with it.
    Unproved {
        set: TaskSet,
        trail: FixedTrail,
    },
}
