//! What decides a task set with constrained deadlines, in terms of walks alone.
ghost use Rattle.drt_busy.specs.Decide.{DeadlinesDecide, DemandMisses, RequestsMiss, TimesDecide, TimesSufficeForTask};
ghost use Rattle.drt_busy.specs.PartWalk.{PartsFollowWalks};

/// What a task releases in an interval follows a walk of its graph, and needs at most what that walk does, its
/// releases as early as the separations allow.
pub fn parts_follow_walks()
    ensures { PartsFollowWalks }
{}

/// Under EDF a set with constrained deadlines is schedulable exactly where no walks, one for each task, that are
/// due by t have more work than t (Stigge, Ekberg, Guan and Yi, RTAS 2011).
pub fn deadlines_decide()
    ensures { DeadlinesDecide }
{}

/// Under fixed priorities a set with constrained deadlines is schedulable exactly where, for each vertex and all
/// walks of the tasks, some time up to its deadline has room for it and what the higher tasks ask for before
/// (Stigge and Yi, RTSS 2013).
pub fn times_decide()
    ensures { TimesDecide }
{}

/// The same for one task alone: where a time passes for each of its vertices, none of its jobs misses.
pub fn times_suffice_for_task()
    ensures { TimesSufficeForTask }
{}

/// Walks that are due by t and have more work than t have legal releases of which a job that is due by t misses,
/// under either policy.
pub fn demand_misses()
    ensures { DemandMisses }
{}

/// A vertex and walks for which no time passes have legal releases in which the vertex's job misses, under fixed
/// priorities.
pub fn requests_miss()
    ensures { RequestsMiss }
{}
