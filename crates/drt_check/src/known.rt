//! What is found once for all rules of a dossier.
ghost use Rattle.std.specs.Prelude.{◌≡◌, ◌≢◌, AllPairs, IfOk, None};
ghost use Rattle.drt_check_trees.specs.Order.{IsPriorityOrder};

use drt_check_trees::priority_order;
use drt_model::{Memory, Row, TaskSet};
use std::alloc::Global;

/// What the rows of the rules share.
#[derive(Drop)]
pub struct Known {
    /// The numbers of the tasks in order of priority, the highest first.
    pub order: Row<u32>,
    /// The horizon that the claimed ratios give, in ticks, once it has been found to be at most 2^40.
    pub horizon: Option<u64>,
}

impl Known {
    /// What is known before any rule is asked: the order of the tasks.
    pub fn new(alloc: Global, set: &TaskSet) -> Result<Known, Memory>
        ensures order { IfOk result (λ known. IsPriorityOrder set.now.tasks known.order) }
        ensures distinct { IfOk result (λ known. AllPairs (λ s t. s.priority ≢ t.priority) set.now.tasks) }
        ensures horizon { IfOk result (λ known. known.horizon ≡ None) }
    {
        let order = priority_order(alloc, set)?;
        Ok(Known {
            order,
            horizon: None,
        })
    }
}
