//! The vertices of the task.
ghost use Rattle.std.specs.Prelude.{◌<◌, ◌≤◌, length, IfOk};
ghost use Rattle.drt_check_trees.specs.Order.{IsOrder};
ghost use Rattle.drt_sp_task.specs.Task.{IsTaskAnswer};
ghost use Rattle.drt_sp_task.specs.Trees.{AreHigherTrees};

use crate::answer::TaskAnswer;
use crate::given::Given;
use crate::missing::find_miss;
use crate::trees::HigherTrees;
use drt_busy::times_suffice_for_task;
use drt_crew::Crew;
use drt_model::Memory;
use drt_pool::Gate;
use drt_refine::over_every_interleaving;
use drt_sp::{TaskProofs, VertexTuple, leaves_pass, prove_vertices};
use drt_trails::FixedTrail;
use std::sync::Wait;
use std::thread::Threads;

/// What the vertices of a task say of it, against the trees of the tasks of higher priority.
pub(crate) fn decide_over<G: Gate, R: Threads + Wait + Sync>(
    crew: &Crew<'_, G, R>,
    given: Given<'_>,
    task: u32,
    trees: &HigherTrees,
) -> Result<TaskAnswer, Memory>
    requires order { IsOrder given.set.now.tasks given.order.now }
    requires task { task < length given.set.now.tasks }
    requires trees { AreHigherTrees given task trees.now }
    ensures { IfOk result (IsTaskAnswer given.entry.set.now crew.now.effort.budget task) }
{
    leaves_pass();
    over_every_interleaving();
    times_suffice_for_task();
    given.set.keep_limits();
    let graphs = given.set.graphs();
    graphs.keep_limits();
    trees.forest.show_sound();
    let roots = trees.roots.as_slice();
    match prove_vertices(crew, &trees.forest, roots, task, graphs.graph(task))? {
        TaskProofs::Passed(_proofs) => Ok(TaskAnswer::Meets),
        TaskProofs::Failed { vertex, tuple } => {
            let failed = VertexTuple {
                task,
                vertex,
                tuple,
            };
            let (releases, miss) = find_miss(crew.alloc, given, &trees.forest, &failed)?;
            Ok(TaskAnswer::Misses { releases, miss })
        }
        TaskProofs::Spent { vertex, log } => {
            let trail = FixedTrail::Refine { task, vertex, log };
            Ok(TaskAnswer::Undecided(trail))
        }
    }
}
