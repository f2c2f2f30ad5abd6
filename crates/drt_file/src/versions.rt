//! From version 1 to version 2.
ghost use Rattle.std.specs.Prelude.{◌≡◌, ◌↔◌};
ghost use Rattle.drt_model.specs.declared.jobs.Policy.{Policy};
ghost use Rattle.drt_model.specs.Schedulable.{Schedulable};

use drt_model::TaskSet;

/// The same tasks as a set of version 2, which has room for more tasks and vertices and writes
/// priorities. The set is schedulable under the same policies as before.
pub fn upgrade(set: TaskSet) -> TaskSet
    ensures version { result.version ≡ 2 }
    ensures tasks { result.tasks ≡ set.tasks }
    ensures same_answers { (policy : Policy) → Schedulable set.tasks policy ↔ Schedulable result.tasks policy }
{
    let (_, tasks) = set.into_parts();
    TaskSet { version: 2, tasks }
}
