//! The analysis.
ghost use Rattle.std.specs.Prelude.{◌<◌, IfOk, length};
ghost use Rattle.drt_sp_task.specs.Task.{IsTaskAnswer};

use crate::answer::TaskAnswer;
use crate::given::Given;
use crate::trees::{Grown, grow_trees};
use crate::vertices::decide_over;
use drt_accepted::Accepted;
use drt_check_trees::priority_order;
use drt_crew::Crew;
use drt_model::Memory;
use drt_pool::Gate;
use std::sync::Wait;
use std::thread::Threads;

/// Decides whether one task of a set with constrained deadlines meets its deadlines under its priority, whatever the tasks of lower
/// priority do, and whether or not those of higher priority meet theirs. The workers of the crew take part as in `analyse_fixed` of
/// `drt_sp`, and the gate sees each of their turns. Each search and each refinement takes at most the crew's budget of steps.
///
/// First the walks of each task of higher priority are searched up to the greatest deadline of the set, for its tree. Then each vertex of
/// the task is proved, in file order, against these trees. The first search or refinement that spends its budget ends the analysis, and the
/// first vertex that fails gives the miss.
///
/// Source: Stigge and Yi, "Combinatorial Abstraction Refinement for Feasibility Analysis" (RTSS 2013).
pub fn analyse_task<G: Gate, R: Threads + Wait + Sync>(
    crew: &Crew<'_, G, R>,
    set: &Accepted<'_>,
    task: u32,
) -> Result<TaskAnswer, Memory>
    requires task { task < length set.now.tasks }
    ensures { IfOk result (IsTaskAnswer set.now crew.now.effort.budget task) }
{
    let order = priority_order(crew.alloc, set.set())?;
    let given = Given {
        set,
        order: order.as_slice(),
    };
    match grow_trees(crew, given, task)? {
        Grown::Trees(trees) => decide_over(crew, given, task, &trees),
        Grown::Spent(trail) => Ok(TaskAnswer::Undecided(trail)),
    }
}
