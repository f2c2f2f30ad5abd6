//! The tasks of higher priority.
ghost use Rattle.std.specs.Prelude.{◌≡◌, ◌<◌, IfOk, length, nat_lt};
ghost use Rattle.drt_busy.specs.Choice.{task_at};
ghost use Rattle.drt_fixed_task.specs.Higher.{higher_tasks};

use drt_accepted::Accepted;
use drt_model::Memory;
use std::alloc::Global;

/// The numbers of the tasks that have a higher priority than a task, in order of the file.
pub(crate) fn higher_tasks(alloc: Global, set: &Accepted<'_>, task: u32) -> Result<Vec<u32>, Memory>
    requires task { task < length set.now.tasks }
    ensures { IfOk result (λ higher. higher.items ≡ higher_tasks set.now.tasks task) }
{
    let mut higher = Vec::new(alloc);
    'tasks: for k in 0..set.graphs().count() {
        if is_higher(set, k, task) {
            higher.push(k)?;
        }
    }
    Ok(higher)
}

/// Whether a task has a higher priority than another one.
pub(crate) fn is_higher(set: &Accepted<'_>, task: u32, other: u32) -> bool
    requires task { task < length set.now.tasks }
    requires other { other < length set.now.tasks }
    ensures { result ≡ nat_lt (task_at set.now.tasks task).priority (task_at set.now.tasks other).priority }
{
    let tasks = set.tasks();
    tasks[task as usize].priority < tasks[other as usize].priority
}
