//! Other priorities for the tasks of a set.
ghost use Rattle.std.specs.Prelude.{◌≡◌, length};
ghost use Rattle.drt_model.specs.Limits.{IsTaskSet};
ghost use Rattle.drt_priorities.specs.Priorities.{prioritised};

use drt_model::{Row, TaskSet};

/// The set as one of this version, with these priorities: the first task has the first one, and so on. Nothing else changes, and no
/// memory is taken.
pub fn prioritise(set: TaskSet, version: u8, priorities: &[u32]) -> TaskSet
    requires limits { IsTaskSet version (prioritised set.tasks priorities.now) }
    requires as_many { length priorities.now ≡ length set.tasks }
    ensures { result ≡ record { version = version; tasks = prioritised set.tasks priorities.now } }
{
    let (_, tasks) = set.into_parts();
    let mut tasks = tasks.into_vec();
    for (k, priority) in priorities.iter().enumerate() {
        tasks[k].priority = *priority;
    }
    TaskSet {
        version,
        tasks: Row::from_vec(tasks),
    }
}
