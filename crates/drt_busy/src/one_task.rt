//! Sets of one task.
ghost use Rattle.drt_busy.specs.OneTask.{OneTaskDecides, TooLongMisses};

/// A set of one task with constrained deadlines is schedulable, under either policy, exactly where the
/// execution time of each vertex is at most its deadline.
pub fn one_task_decides()
    ensures { OneTaskDecides }
{}

/// Where a vertex of the first task has an execution time past its deadline, its release at 0 with the
/// whole execution time is legal alone, and its job, the only one, misses under either policy.
pub fn too_long_misses()
    ensures { TooLongMisses }
{}
