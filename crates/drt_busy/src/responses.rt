//! Worst response times under fixed priorities, in terms of walks alone.
ghost use Rattle.drt_busy.specs.Response.{CutsAreReleases, ReleasesReach, ResponseDecides};

/// For a vertex of a task that meets its deadlines, the greatest response time over all legal releases is the greatest of the least
/// times that have room, over all choices of one walk for each task.
pub fn response_decides()
    ensures { ResponseDecides }
{}

/// The releases of the walks before n and the job at 0 are legal, and that job finishes after exactly n ticks, where n is the least
/// time that has room for the walks.
pub fn releases_reach()
    ensures { ReleasesReach }
{}

/// The releases of a cut walk are those of the walk before the time at which it is cut.
pub fn cuts_are_releases()
    ensures { CutsAreReleases }
{}
