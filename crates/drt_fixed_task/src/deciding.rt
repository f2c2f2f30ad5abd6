//! The answer to one task.
ghost use Rattle.std.specs.Prelude.{◌<◌, IfOk, length};
ghost use Rattle.drt_sp_task.specs.Task.{IsTaskAnswer};

use crate::by_states::decide_by_states;
use drt_accepted::Accepted;
use drt_crew::Crew;
use drt_model::Memory;
use drt_pool::Gate;
use drt_sp::ALLOWANCE;
use drt_sp_task::{TaskAnswer, analyse_task};
use std::sync::Wait;
use std::thread::Threads;

/// Decides whether a task of a set with constrained deadlines meets its deadlines under its priority, whatever the tasks of lower priority
/// do.
///
/// With a budget of more than 4,096 first the states of each vertex of the task are searched, with the budget for each: an answer has no
/// evidence to be kept small, and states are quicker. Where that says nothing, and with a smaller budget at once, tables and frontiers have
/// the whole budget, and what they say stands.
pub fn decide_task<G: Gate, R: Threads + Wait + Sync>(
    crew: &Crew<'_, G, R>,
    set: &Accepted<'_>,
    task: u32,
) -> Result<TaskAnswer, Memory>
    requires task { task < length set.now.tasks }
    ensures { IfOk result (IsTaskAnswer set.now crew.now.effort.budget task) }
{
    if crew.effort.budget() <= ALLOWANCE {
        return analyse_task(crew, set, task);
    }
    match decide_by_states(crew, set, task)? {
        Some(answer) => Ok(answer),
        None => analyse_task(crew, set, task),
    }
}
