//! How a run ends.
use crate::fault::Fault;
use drt_model::Row;
use drt_refine::FrontierEntry;
use drt_table::Entry;
use drt_trails::{EdfTrail, FixedTrail};

/// How a run ends: the status that the program ends with, what shows a spent budget, and the fault
/// of a refused input.
#[derive(Debug, Drop)]
pub struct Outcome {
    pub status: u8,
    pub trail: Trail,
    pub fault: Fault,
}

/// What shows that a budget was spent.
#[derive(Debug, Drop)]
pub enum Trail {
    /// No budget was spent.
    Nothing,
    /// The search of this task's walks spent it, by the steps of this log.
    Table {
        task: u32,
        log: Row<Entry>,
    },
    /// The refinement at this vertex of this task spent it, by the steps of this log.
    Refine {
        task: u32,
        vertex: u32,
        log: Row<FrontierEntry>,
    },
    /// The search for an overload spent it; its last step time, in ticks.
    Overload {
        last: u64,
    },
    /// Of the two analyses of a drawn set these spent it.
    Bench {
        edf: Option<EdfTrail>,
        fixed: Option<FixedTrail>,
    },
    /// The search for the worst response of this vertex of this task spent it: one worker took these combinations, in order.
    Response {
        task: u32,
        vertex: u32,
        taken: Row<Row<u32>>,
    },
    /// The refinement at this vertex of this task, with these tasks and no others of higher priority, spent it, by the steps of this log.
    Assign {
        higher: Row<u32>,
        task: u32,
        vertex: u32,
        log: Row<FrontierEntry>,
    },
}

/// The schedulable set's status.
pub const YES: u8 = 0;

/// The status of a set that isn't schedulable.
pub const NO: u8 = 1;

/// The status of a utilisation of one.
pub const ONE: u8 = 2;

/// The status of a spent budget.
pub const UNDECIDED: u8 = 3;

/// The status of a refused file.
pub const FILE_REFUSED: u8 = 4;

/// The status of refused words.
pub const WORDS_REFUSED: u8 = 5;

/// The status of a failed read.
pub const READ_FAILED: u8 = 6;

/// The status of a failed write.
pub const WRITE_FAILED: u8 = 7;

/// The status of want of memory.
pub const OUT_OF_MEMORY: u8 = 8;

/// The status of evidence that breaks a rule.
pub const EVIDENCE_REJECTED: u8 = 9;

/// The status of a refused dossier.
pub const DOSSIER_REFUSED: u8 = 10;
