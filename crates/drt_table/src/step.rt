//! Steps and replies.

/// A step of a worker: it takes the next node, offers the label of a node that it holds extended by one of its
/// out-edges, or closes the node.
#[derive(Clone, Copy, Debug, PartialEq, Eq)]
pub enum TableStep {
    Take,
    Offer { node: u32, edge: u32 },
    Close { node: u32 },
}

/// What a table answers: the node that was taken, the taken node of least offset that has to be ended first, that all is
/// done, the node that was added, the least node that dominates the label, that the label is out of range, that the node
/// is closed, or that the budget is spent.
#[derive(Clone, Copy, Debug, PartialEq, Eq)]
pub enum TableReply {
    Taken(u32),
    Busy(u32),
    Finished,
    Added(u32),
    Dominated(u32),
    OutOfRange,
    Closed,
    Spent,
}

/// One entry of a log: a worker and its step.
#[derive(Clone, Copy, Debug, PartialEq, Eq)]
pub struct Entry {
    pub worker: u32,
    pub step: TableStep,
}
