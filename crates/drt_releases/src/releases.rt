//! The releases of walks.
ghost use Rattle.std.specs.Prelude.{◌≡◌, ℕ, ◌<◌, ◌≤◌, List, ◌++◌, length, IfOk};
ghost use Rattle.drt_model.specs.Numbers.{most_ticks};
ghost use Rattle.drt_model.specs.declared.tasks.Task.{Task};
ghost use Rattle.drt_model.specs.Digraph.{vertex_count};
ghost use Rattle.drt_model.specs.Walk.{IsWalk, due_of};
ghost use Rattle.drt_busy.specs.WalkReleases.{all_releases, release_at, releases_of};
ghost use Rattle.drt_claims.specs.Claims.{graphs_of};
ghost use Rattle.drt_releases.specs.Walks.{AreDueWalks, walk_at};

use drt_graph::{Graph, Graphs};
use drt_model::{Memory, Release, Row};
use std::alloc::Global;

/// By when all jobs of walks are due that are cut within a deadline, in ticks: their offsets are below it, and each job's deadline is at
/// most as much later; both are at most 1,000,000 ticks.
pub const LAST_DEADLINE: u64 = 2_000_000;

/// The releases of walks, one for each task, that are due by `t`, in order of tasks. `t` is in ticks.
pub fn all_releases(
    alloc: Global,
    graphs: &Graphs,
    walks: &[Row<u32>],
    t: u64,
) -> Result<Vec<Release>, Memory>
    requires walks { AreDueWalks graphs.now (walk_at walks.now) t }
    requires time { t ≤ most_ticks }
    ensures { IfOk result (λ releases. (tasks : List Task) → graphs.now ≡ graphs_of tasks → releases.items ≡ all_releases tasks (walk_at walks.now) (length tasks)) }
{
    let mut releases = Vec::with_capacity(alloc, release_count(walks))?;
    'tasks: for i in 0..graphs.count() {
        add_releases(graphs.graph(i), i, walk_of(walks, i), t, &mut releases)?;
    }
    Ok(releases)
}

// How many releases the walks have.
fn release_count(walks: &[Row<u32>]) -> usize {
    let mut count: usize = 0;
    'walks: for walk in walks {
        count = count.saturating_add(walk.as_slice().len());
    }
    count
}

/// The walk of a task in a list of them, one for each; no walk past its end.
pub fn walk_of(walks: &[Row<u32>], task: u32) -> &[u32]
    ensures { result.now ≡ walk_at walks.now task }
{
    match walks.get(task as usize) {
        Some(walk) => walk.as_slice(),
        None => &[],
    }
}

// Adds the releases of a walk that is due by `t`, each as early as its separation allows.
fn add_releases(
    graph: &Graph,
    task: u32,
    walk: &[u32],
    t: u64,
    releases: &mut Vec<Release>,
) -> Result<(), Memory>
    requires walk { IsWalk graph.now walk.now }
    requires due { due_of graph.now walk.now ≤ t }
    requires time { t ≤ most_ticks }
    ensures { IfOk result (λ none. releases.new.items ≡ releases.old.items ++ releases_of graph.now task walk.now) }
{
    let count = graph.vertex_count();
    if walk.is_empty() {
        return Ok(());
    }
    let mut time: u64 = 0;
    let mut vertex = walk[0];
    releases.push(release_at(graph, task, time, vertex))?;
    'steps: for i in 1..walk.len() {
        let next = walk[i];
        let Some(gap) = graph.separation(vertex, next) else {
            unreachable!();
        };
        time += u64::from(gap);
        vertex = next;
        releases.push(release_at(graph, task, time, vertex))?;
    }
    Ok(())
}

// The release of a vertex at this time, with its whole execution time.
fn release_at(graph: &Graph, task: u32, time: u64, vertex: u32) -> Release
    requires { vertex < vertex_count graph.now }
    ensures { result ≡ release_at graph.now task time vertex }
{
    Release {
        task,
        vertex,
        time,
        need: u64::from(graph.vertex(vertex).wcet),
    }
}
