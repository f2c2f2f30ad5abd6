//! The releases of a no.
ghost use Rattle.std.specs.Prelude.{◌≡◌, ℕ, ◌<◌, List, length, IfOk};
ghost use Rattle.std.specs.List.{AllZip};
ghost use Rattle.drt_model.specs.Digraph.{Digraph};
ghost use Rattle.drt_graph.specs.Graphs.{graph_of};
ghost use Rattle.drt_model.specs.Walk.{IsWalk};
ghost use Rattle.drt_check_states.specs.Places.{graphs_at};
ghost use Rattle.drt_releases.specs.Walks.{walk_at};
ghost use Rattle.drt_fixed.specs.Answers.{IsOfStates};
ghost use Rattle.drt_fixed.specs.Searching.{AreHigher, IsBeside, IsSearchGiven, IsVertexPlaced};

use crate::vertices::{Given, PlacedVertex};
use drt_claims::Evidence;
use drt_model::{Memory, Miss, Row};
use drt_releases::{LAST_DEADLINE, all_releases, cut_walk};
use std::alloc::Global;

/// The no of a vertex: the releases of walks of tasks of higher priority, the walk at each place that of the task
/// there, as far as they come before the deadline, and one of the vertex at 0, in order of tasks; and the miss of its
/// job.
pub(crate) fn refusal(
    alloc: Global,
    given: Given<'_>,
    walks: &[Row<u32>],
    vertex: PlacedVertex,
) -> Result<Evidence, Memory>
    requires given { IsSearchGiven given }
    requires vertex { IsVertexPlaced given vertex }
    requires walks { AreHigher given vertex walks.now }
    ensures { IfOk result (IsOfStates given.entry.set.now.tasks) }
{
    let chosen = job_walks(alloc, given, walks, vertex)?;
    let graphs = given.set.graphs();
    let releases = all_releases(alloc, graphs, chosen.as_slice(), LAST_DEADLINE)?;
    Ok(Evidence::FixedNo {
        releases: Row::from_vec(releases),
        miss: Miss {
            task: vertex.at.task,
            index: 0,
            deadline: u64::from(vertex.at.deadline),
        },
    })
}

// A walk for each task: for those of higher priority than the vertex's the one at its place, cut at the vertex's
// deadline, and the vertex alone for its own task.
fn job_walks(
    alloc: Global,
    given: Given<'_>,
    walks: &[Row<u32>],
    vertex: PlacedVertex,
) -> Result<Vec<Row<u32>>, Memory>
    requires given { IsSearchGiven given }
    requires vertex { IsVertexPlaced given vertex }
    requires walks { AreHigher given vertex walks.now }
    ensures { IfOk result (λ chosen. (k : ℕ) → k < length given.entry.set.now.tasks → IsBeside given.entry.set.now.tasks vertex.at.task vertex.at.vertex k (walk_at chosen.items k)) }
{
    let graphs = given.set.graphs();
    let mut chosen = Vec::new(alloc);
    'tasks: for k in 0..graphs.count() {
        let walk = job_walk(alloc, given, walks, vertex, k)?;
        chosen.push(walk)?;
    }
    Ok(chosen)
}

// The walk of one task among them.
fn job_walk(
    alloc: Global,
    given: Given<'_>,
    walks: &[Row<u32>],
    vertex: PlacedVertex,
    k: u32,
) -> Result<Row<u32>, Memory>
    requires given { IsSearchGiven given }
    requires vertex { IsVertexPlaced given vertex }
    requires walks { AreHigher given vertex walks.now }
    requires here { k < length given.set.now.tasks }
    ensures { IfOk result (IsBeside given.entry.set.now.tasks vertex.at.task vertex.at.vertex k) }
{
    let at = vertex.at;
    let tasks = given.set.tasks();
    let graphs = given.set.graphs();
    let graph = graphs.graph(k);
    if tasks[k as usize].priority < tasks[at.task as usize].priority {
        let higher = &given.order[..vertex.place];
        return cut_walk(alloc, graph, at.deadline, walk_of(higher, walks, k));
    }
    let mut walk = Vec::new(alloc);
    if k == at.task {
        walk.push(at.vertex)?;
    }
    Ok(Row::from_vec(walk))
}

// The walk of a task, where one is at its place.
fn walk_of<'a>(order: &[u32], walks: &'a [Row<u32>], task: u32) -> &'a [u32]
    ensures { (graphs : List Digraph) → AllZip IsWalk (graphs_at graphs order.now) walks.now → IsWalk (graph_of graphs task) result.now }
{
    for place in 0..order.len() {
        if order[place] == task {
            return walk_at(walks, place);
        }
    }
    &[]
}

// The walk at a place; no walk past the last one.
fn walk_at(walks: &[Row<u32>], place: usize) -> &[u32]
    ensures { result.now ≡ walk_at walks.now place }
{
    match walks.get(place) {
        Some(walk) => walk.as_slice(),
        None => &[],
    }
}
