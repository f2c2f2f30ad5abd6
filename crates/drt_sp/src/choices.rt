//! What trees say of the walks of the tasks.
ghost use Rattle.drt_sp.specs.ChoiceLaws.{LeavesMiss, LeavesPass, LeavesRespond, WalksPass};

use drt_busy::{releases_reach, requests_miss, response_decides, times_suffice_for_task};

/// Where for each tuple of leaves, one of each tree, a time passes for a vertex, a time passes for all walks of the tasks of
/// higher priority.
pub fn leaves_pass()
    ensures { LeavesPass }
{}

/// Where for a tuple of leaves no time passes for a vertex, and for each vertex of the tasks of higher priority one passes for
/// all walks, the releases of the leaves' walks from time 0, with offsets below the vertex's deadline, and one of the vertex at
/// 0 are legal, and the vertex's job misses its deadline, before which no job misses one.
pub fn leaves_miss()
    ensures { LeavesMiss }
{
    requests_miss();
    times_suffice_for_task();
}

/// Where a time passes for all walks of the tasks of higher priority, one passes for each tuple of leaves.
pub fn walks_pass()
    ensures { WalksPass }
{}

/// Where each vertex of a task passes, the greatest of the least times over all tuples of leaves is the greatest response time of the
/// vertex. The releases of the walks that its tuple names, from time 0 and with offsets below that time, and one of the vertex at 0 are
/// legal, and the vertex's job finishes after exactly so many ticks.
pub fn leaves_respond()
    ensures { LeavesRespond }
{
    response_decides();
    releases_reach();
    times_suffice_for_task();
}
