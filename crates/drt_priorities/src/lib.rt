//! A set of tasks with other priorities.
//!
//! `prioritise` gives the tasks of a set the priorities of a list, and changes nothing else. The laws say what stays: the limits, the
//! graphs, the constraint on deadlines, and which releases are legal; and that the old priorities give the old tasks back. What it means
//! that an order of the tasks exists stands in `specs/Priorities.antt`. `copy_of` makes a second set like one, for another worker to change.
#![tactic(auto)]

mod copying;
mod laws;
mod prioritising;

pub use copying::copy_of;
pub use laws::{
    priorities_keep_constraints, priorities_keep_graphs, priorities_keep_legality,
    priorities_keep_limits, priorities_undo,
};
pub use prioritising::prioritise;
