//! The miss of a vertex that fails.
ghost use Rattle.std.specs.Prelude.{IfOk};
ghost use Rattle.drt_check_trees.specs.Order.{IsOrder};
ghost use Rattle.drt_sp_task.specs.Task.{IsTaskMiss};
ghost use Rattle.drt_sp_task.specs.Trees.{IsFailing};

use crate::given::Given;
use drt_busy::{requests_miss, times_suffice_for_task};
use drt_model::{Memory, Miss, Release, Row};
use drt_sp::{VertexTuple, leaf_releases};
use drt_tree::Forest;
use std::alloc::Global;

/// The releases of the walks that a vertex' tuple of leaves names, with offsets below the vertex' deadline, and the miss of the vertex' job,
/// which is released at 0.
pub(crate) fn find_miss(
    alloc: Global,
    given: Given<'_>,
    forest: &Forest,
    failed: &VertexTuple,
) -> Result<(Row<Release>, Miss), Memory>
    requires order { IsOrder given.set.now.tasks given.order.now }
    requires failed { IsFailing given forest.now failed.now }
    ensures { IfOk result (λ found. IsTaskMiss given.entry.set.now.tasks failed.now.task found.0 found.1) }
{
    requests_miss();
    times_suffice_for_task();
    given.set.keep_limits();
    let graphs = given.set.graphs();
    graphs.keep_limits();
    let deadline = graphs.graph(failed.task).vertex(failed.vertex).deadline;
    let releases = leaf_releases(alloc, given.set, forest, given.order, failed, deadline)?;
    let miss = Miss {
        task: failed.task,
        index: 0,
        deadline: u64::from(deadline),
    };
    Ok((releases, miss))
}
