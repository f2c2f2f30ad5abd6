//! The laws of the trace: what the jobs have had, and what a miss says of their needs.
ghost use Rattle.drt_busy.specs.Assignment.{NoAssignmentMeets};
ghost use Rattle.drt_busy.specs.Laws.{DoneGrows, LeastMisses, MissesOverload, MissesPassNoTime, NoTimeMisses, OverloadMisses, PicksArePending, TicksAreUsed};

/// A pick is a job of the list that is released and lacks ticks.
pub fn picks_are_pending()
    ensures { PicksArePending }
{}

/// What a job has had never falls, and never exceeds its need.
pub fn done_grows()
    ensures { DoneGrows }
{}

/// Where a job is pending the tick runs a job that it doesn't go before.
pub fn ticks_are_used()
    ensures { TicksAreUsed }
{}

/// Where a job misses, one of least deadline among those that miss does.
pub fn least_misses()
    ensures { LeastMisses }
{}

/// Under EDF, a miss shows an interval that ends at its deadline and whose jobs need more ticks than it has.
pub fn misses_overload()
    ensures { MissesOverload }
{}

/// Under either policy, where the jobs that are due by t need more than t, one of them misses.
pub fn overload_misses()
    ensures { OverloadMisses }
{}

/// Under fixed priorities, the first miss of a task shows a start of the higher tasks' busy time from which
/// no length up to the deadline holds the job's need and theirs; the task's earlier jobs are done at the
/// job's release.
pub fn misses_pass_no_time()
    ensures { MissesPassNoTime }
{}

/// Under fixed priorities, a job released at 0 misses where no length up to its deadline holds its need and
/// the needs of the higher jobs released within it.
pub fn no_time_misses()
    ensures { NoTimeMisses }
{}

/// Where the jobs that are due by t need more than t, no assignment of one job to each tick meets all
/// these deadlines, whatever the order.
pub fn no_assignment_meets()
    ensures { NoAssignmentMeets }
{}
