//! What a shared table answers.

ghost use Rattle.std.specs.Prelude.{◌≡◌};

use drt_table::TableReply;

/// What a call found under the lock: the least node that the table says the worker holds, how many of its out-edges were
/// offered (0 where there is none), and whether its label is the pass's label (false where there is none).
#[derive(Clone, Copy, Debug, PartialEq, Eq)]
pub struct Found {
    pub held: Option<u32>,
    pub offered: u32,
    pub same: bool,
}

/// What a call answers: the table's reply to its one step, or that a worker has halted the search, or that the table holds
/// something else for the worker than its pass. The last two change nothing.
#[derive(Clone, Copy, Debug, PartialEq, Eq)]
pub enum SharedReply {
    Step(TableReply),
    Halted,
    Strange(Found),
}

// What a worker wants to do with the table: to take a node, to offer a label for an out-edge of the node that it holds, or to
// close that node.
#[derive(Drop)]
pub(crate) enum Move<T> {
    Take,
    Offer { edge: u32, label: T },
    Close,
}
