//! Which lists of releases a task set may release.
ghost use Rattle.std.specs.Prelude.{◌≡◌, ◌+◌, ◌<◌, ◌≤◌, ◌⊎◌, ◌↔◌, IsTrue, IsSomeAnd, IfSome, slice_get};
ghost use Rattle.drt_model.specs.Legal.{IsReleaseOf, Leads, Follows, IsLegal, IsAllowed, IsAllowedStep};

use crate::jobs::Release;
use crate::tasks::{Edge, Task, TaskSet};

/// Whether the list stands in order of tasks, and the part of each task is a legal list of that task.
/// It takes no memory.
pub fn legal(set: &TaskSet, releases: &[Release]) -> bool
    ensures { IsTrue result ↔ IsLegal set.now.tasks releases.now }
{
    let tasks = set.tasks();
    for (i, release) in releases.iter().enumerate() {
        if !is_allowed(tasks, release) {
            return false;
        }
        if i > 0 && !is_allowed_step(tasks, &releases[i - 1], release) {
            return false;
        }
    }
    true
}

// Whether the release is of a vertex of its task, with a need in range.
fn is_allowed(tasks: &[Task], release: &Release) -> bool
    ensures { IsTrue result ↔ IsAllowed tasks.now release.now }
{
    match tasks.get(release.task as usize) {
        Some(task) => is_release_of(task, release),
        None => false,
    }
}

// Whether the second release may stand after the first.
fn is_allowed_step(tasks: &[Task], first: &Release, second: &Release) -> bool
    ensures { IsTrue result ↔ IsAllowedStep tasks.now first.now second.now }
{
    if first.task != second.task {
        return first.task < second.task;
    }
    match tasks.get(first.task as usize) {
        Some(task) => follows(task, first, second),
        None => false,
    }
}

fn is_release_of(task: &Task, release: &Release) -> bool
    ensures { IsTrue result ↔ IsReleaseOf task.now release.now }
{
    match task.vertices.as_slice().get(release.vertex as usize) {
        Some(vertex) => release.need >= 1 && release.need <= u64::from(vertex.wcet),
        None => false,
    }
}

fn follows(task: &Task, first: &Release, second: &Release) -> bool
    ensures { IsTrue result ↔ Follows task.now first.now second.now }
{
    for edge in task.edges.as_slice() {
        if leads(edge, first, second) {
            return true;
        }
    }
    false
}

// Whether the edge leads from the one release to the other, with its separation between them.
fn leads(edge: &Edge, first: &Release, second: &Release) -> bool
    ensures { IsTrue result ↔ Leads edge.now first.now second.now }
{
    edge.from == first.vertex
        && edge.to == second.vertex
        && first.time <= second.time
        && u64::from(edge.sep) <= second.time - first.time
}
