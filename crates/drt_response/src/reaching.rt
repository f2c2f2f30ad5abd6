//! The releases that reach a response time.
ghost use Rattle.std.specs.Prelude.{◌≡◌, ◌≤◌, ◌<◌, ℕ, IfOk, length};
ghost use Rattle.drt_model.specs.Numbers.{most_time};
ghost use Rattle.drt_model.specs.Digraph.{vertex_count};
ghost use Rattle.drt_busy.specs.Choice.{AreWalks, graph_at};
ghost use Rattle.drt_busy.specs.Response.{reaching};
ghost use Rattle.drt_releases.specs.Walks.{walk_at};
ghost use Rattle.drt_response.specs.Placed.{job_walk_in_priority_order, walk_in_priority_order};

use crate::subjects::{VertexAt, higher_count};
use drt_accepted::Accepted;
use drt_model::{Memory, Release, Row};
use drt_releases::{LAST_DEADLINE, all_releases, cut_walk};
use std::alloc::Global;

/// The job of a vertex that is released at 0, and when it finishes, in ticks.
#[derive(Clone, Copy)]
pub(crate) struct FirstJob {
    pub at: VertexAt,
    pub finish: u32,
}

/// The releases of walks of the tasks of higher priority, the walk at each place that of the task there, from time 0 and before the job
/// finishes, and one of the vertex at 0, in order of tasks. Each needs its whole execution time.
pub(crate) fn reaching_releases(
    alloc: Global,
    set: &Accepted<'_>,
    walks: &[Row<u32>],
    job: FirstJob,
) -> Result<Row<Release>, Memory>
    requires walks { AreWalks set.now.tasks (walk_in_priority_order set.now.tasks walks.now) }
    requires task { job.at.task < length set.now.tasks }
    requires vertex { job.at.vertex < vertex_count (graph_at set.now.tasks job.at.task) }
    requires finish { job.finish ≤ most_time }
    ensures { IfOk result (λ releases. releases ≡ reaching set.now.tasks (walk_in_priority_order set.now.tasks walks.now) job.at.task job.at.vertex job.finish) }
{
    let graphs = set.graphs();
    graphs.keep_limits();
    let chosen = job_walks(alloc, set, walks, job)?;
    let releases = all_releases(alloc, graphs, chosen.as_slice(), LAST_DEADLINE)?;
    Ok(Row::from_vec(releases))
}

// A walk for each task: for those of higher priority than the job's the one at its place, cut where the job finishes, and the vertex alone
// for the job's task.
fn job_walks(
    alloc: Global,
    set: &Accepted<'_>,
    walks: &[Row<u32>],
    job: FirstJob,
) -> Result<Vec<Row<u32>>, Memory>
    requires walks { AreWalks set.now.tasks (walk_in_priority_order set.now.tasks walks.now) }
    requires task { job.at.task < length set.now.tasks }
    ensures count { IfOk result (λ chosen. length chosen.items ≡ length set.now.tasks) }
    ensures each { IfOk result (λ chosen. (k : ℕ) → k < length set.now.tasks → walk_at chosen.items k ≡ job_walk_in_priority_order set.now.tasks walks.now job.at.task job.at.vertex job.finish k) }
{
    let graphs = set.graphs();
    let mut chosen = Vec::new(alloc);
    'tasks: for k in 0..graphs.count() {
        chosen.push(job_walk(alloc, set, walks, job, k)?)?;
    }
    Ok(chosen)
}

// The walk of one task among them.
fn job_walk(
    alloc: Global,
    set: &Accepted<'_>,
    walks: &[Row<u32>],
    job: FirstJob,
    k: u32,
) -> Result<Row<u32>, Memory>
    requires walks { AreWalks set.now.tasks (walk_in_priority_order set.now.tasks walks.now) }
    requires task { job.at.task < length set.now.tasks }
    requires here { k < length set.now.tasks }
    ensures { IfOk result (λ walk. walk ≡ job_walk_in_priority_order set.now.tasks walks.now job.at.task job.at.vertex job.finish k) }
{
    let tasks = set.tasks();
    let graphs = set.graphs();
    let priority = tasks[k as usize].priority;
    if priority < tasks[job.at.task as usize].priority {
        let walk = walk_of(walks, higher_count(tasks, priority));
        return cut_walk(alloc, graphs.graph(k), job.finish, walk);
    }
    let mut walk = Vec::new(alloc);
    if k == job.at.task {
        walk.push(job.at.vertex)?;
    }
    Ok(Row::from_vec(walk))
}

// The walk at a place; no walk past the last one.
fn walk_of(walks: &[Row<u32>], place: usize) -> &[u32]
    ensures { result.now ≡ walk_at walks.now place }
{
    match walks.get(place) {
        Some(walk) => walk.as_slice(),
        None => &[],
    }
}
