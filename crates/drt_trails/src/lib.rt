//! What shows that an analysis spent a budget.
//!
//! A trail has the steps that were made, in order, of the search or the refinement whose budget is spent, or the last step time of a
//! search for an overload. The analyses say what is true of the trails that they give.
#![tactic(auto)]

use drt_model::Row;
use drt_refine::FrontierEntry;
use drt_table::Entry;

/// Where an analysis under EDF spent a budget.
#[derive(Debug, Drop)]
pub enum EdfTrail {
    /// In the search of this task's walks, by the steps of this log.
    Table { task: u32, log: Row<Entry> },
    /// In the search for an overload, whose last step time was this, in ticks.
    Overload { last: u64 },
}

/// Where an analysis under fixed priorities spent a budget, with the steps that were made, in order.
#[derive(Debug, Drop)]
pub enum FixedTrail {
    /// In the search of this task's walks.
    Table {
        task: u32,
        log: Row<Entry>,
    },
    /// In the refinement of combinations at this vertex of this task.
    Refine {
        task: u32,
        vertex: u32,
        log: Row<FrontierEntry>,
    },
}
