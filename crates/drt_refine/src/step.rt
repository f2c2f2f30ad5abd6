//! States, steps and replies.

/// The state of a combination: it waits to be taken, a worker holds it, it passed with a time (in ticks), it was split at
/// a place into the combinations `left` and `right`, or it failed.
#[derive(Clone, Copy, Debug, PartialEq, Eq)]
pub enum CombinationState {
    Pending,
    Taken(u32),
    Passed(u64),
    Split { place: u32, left: u32, right: u32 },
    Failed,
}

/// A step of a worker: it takes the next combination, or it settles one that it holds. That one passes with a time (in
/// ticks), is split at a place, or fails.
#[derive(Clone, Copy, Debug, PartialEq, Eq)]
pub enum FrontierStep {
    Take,
    Pass { id: u32, time: u64 },
    Split { id: u32, place: u32 },
    Fail { id: u32 },
}

/// What a frontier answers: the combination that was taken, the least one that has to be settled first, that all is done,
/// that the combination passed, the two into which it was split, the one that has failed, or that the budget is spent.
#[derive(Clone, Copy, Debug, PartialEq, Eq)]
pub enum FrontierReply {
    Taken(u32),
    Busy(u32),
    Finished,
    Passed,
    Halved(u32, u32),
    Failed(u32),
    Spent,
}

/// One entry of a log: a worker and its step.
#[derive(Clone, Copy, Debug, PartialEq, Eq)]
pub struct FrontierEntry {
    pub worker: u32,
    pub step: FrontierStep,
}
