//! Tails and states as a dossier claims them.
use drt_model::Row;

/// A jump of a function of time: past this offset, in ticks, it is at least this work, in ticks.
#[derive(Debug, Drop, Clone, Copy, PartialEq, Eq)]
pub struct Jump {
    pub offset: u64,
    pub work: u64,
}

/// For each vertex of a task the jumps of a function that bounds what walks that start there ask for.
#[derive(Debug, Drop)]
pub struct TailClaim {
    pub curves: Row<Row<Jump>>,
}

/// Where the walk of a place stands: at this vertex, whose job is released at the offset, in ticks, or later. A place is the number
/// of tasks of higher priority.
#[derive(Debug, Drop, Clone, Copy, PartialEq, Eq)]
pub struct StateEntry {
    pub place: u32,
    pub vertex: u32,
    pub offset: u64,
}

/// How a state ends.
#[derive(Debug, Drop)]
pub enum StateEnd {
    /// The vertex that is searched has room at this time, in ticks.
    Passes(u64),
    /// The walk at this place moves on; the numbers are those of states that dominate the states after that, in order.
    Splits { place: u32, children: Row<u32> },
}

/// A combination of walks of higher tasks: where some of them stand, and the work of their vertices before, in ticks.
#[derive(Debug, Drop)]
pub struct StateClaim {
    pub entries: Row<StateEntry>,
    pub work: u64,
    pub end: StateEnd,
}

/// The states that show that a vertex of a task meets its deadline under fixed priorities.
#[derive(Debug, Drop)]
pub struct SearchClaim {
    pub task: u32,
    pub vertex: u32,
    pub states: Row<StateClaim>,
}
