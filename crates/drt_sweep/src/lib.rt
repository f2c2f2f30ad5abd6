//! The sweep over the times at which work is due.
//!
//! A time has too much work where, summed over the tasks, the greatest work of each task that is due by then is more than
//! the time. `first_excess` finds the least such time; `rises` drops beforehand most works that can't be such a greatest
//! one. The works are plain numbers: what they are the works of, and why, is for the layers above. `specs/Dues.antt` has
//! the sum over any lists, one for each task, and `specs/DueWorks.antt` the same over one list of works that name their
//! tasks; `proofs/Lists.antt` ties the two.
#![tactic(auto)]

mod due_work;
mod rising;
mod sweeping;

pub use due_work::DueWork;
pub use rising::rises;
pub use sweeping::first_excess;
