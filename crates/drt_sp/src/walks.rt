//! The walks that a tuple of leaves names.
ghost use Rattle.std.specs.Prelude.{◌≡◌, ℕ, ◌≤◌, ◌<◌, List, length, IfOk};
ghost use Rattle.drt_model.specs.declared.tasks.Task.{Task};
ghost use Rattle.drt_model.specs.Digraph.{vertex_count};
ghost use Rattle.drt_busy.specs.Choice.{graph_at};
ghost use Rattle.drt_busy.specs.WalkReleases.{with_job};
ghost use Rattle.drt_sp.specs.Choices.{chosen};
ghost use Rattle.drt_claims.specs.Claims.{graphs_of};
ghost use Rattle.drt_releases.specs.Walks.{walk_at};
ghost use Rattle.drt_sp.specs.Chosen.{AreLeaves, leaf_for};
ghost use Rattle.drt_model.specs.Walk.{IsWalk};

use drt_accepted::Accepted;
use drt_graph::{Graph, Graphs};
use drt_model::{Memory, Row};
use drt_releases::cut_walk;
use drt_tree::Forest;
use std::alloc::Global;

/// A vertex of a task, by their numbers, and a tuple of leaves of the trees of the tasks of higher priority.
#[derive(Drop)]
pub struct VertexTuple {
    pub task: u32,
    pub vertex: u32,
    pub tuple: Row<u32>,
}

/// The walks of a vertex and a tuple of leaves, one for each task: those of the leaves for the tasks of higher priority, cut at `end`
/// ticks, and the vertex alone for its own task.
pub(crate) fn job_walks(
    alloc: Global,
    set: &Accepted<'_>,
    forest: &Forest,
    order: &[u32],
    shown: &VertexTuple,
    end: u32,
) -> Result<Vec<Row<u32>>, Memory>
    requires leaves { AreLeaves set.now.tasks forest.now order.now shown.now.tuple }
    requires task { shown.now.task < length set.now.tasks }
    requires vertex { shown.now.vertex < vertex_count (graph_at set.now.tasks shown.now.task) }
    ensures count { IfOk result (λ walks. length walks.items ≡ length set.now.tasks) }
    ensures each { IfOk result (λ walks. (k : ℕ) → k < length set.now.tasks → walk_at walks.items k ≡ with_job set.now.tasks (chosen set.now.tasks forest.now end order.now shown.now.tuple) shown.now.task shown.now.vertex k) }
{
    let graphs = set.graphs();
    let mut walks = Vec::new(alloc);
    'tasks: for k in 0..graphs.count() {
        walks.push(job_walk(alloc, set, forest, order, shown, end, k)?)?;
    }
    Ok(walks)
}

// The walk of one task among them.
fn job_walk(
    alloc: Global,
    set: &Accepted<'_>,
    forest: &Forest,
    order: &[u32],
    shown: &VertexTuple,
    end: u32,
    k: u32,
) -> Result<Row<u32>, Memory>
    requires leaves { AreLeaves set.now.tasks forest.now order.now shown.now.tuple }
    requires task { shown.now.task < length set.now.tasks }
    requires vertex { shown.now.vertex < vertex_count (graph_at set.now.tasks shown.now.task) }
    requires here { k < length set.now.tasks }
    ensures { IfOk result (λ walk. walk ≡ with_job set.now.tasks (chosen set.now.tasks forest.now end order.now shown.now.tuple) shown.now.task shown.now.vertex k) }
{
    let tasks = set.tasks();
    if tasks[k as usize].priority < tasks[shown.task as usize].priority {
        let graphs = set.graphs();
        return chosen_walk(alloc, graphs, forest, end, order, shown.tuple.as_slice(), k);
    }
    let mut walk = Vec::new(alloc);
    if k == shown.task {
        walk.push(shown.vertex)?;
    }
    Ok(Row::from_vec(walk))
}

// The walk that a tuple names for a task, cut at `end` ticks; no walk where the tuple has no leaf for it.
fn chosen_walk(
    alloc: Global,
    graphs: &Graphs,
    forest: &Forest,
    end: u32,
    order: &[u32],
    tuple: &[u32],
    k: u32,
) -> Result<Row<u32>, Memory>
    requires here { k < length graphs.now }
    requires leaves { (tasks : List Task) × (graphs.now ≡ graphs_of tasks) × AreLeaves tasks forest.now order.now tuple.now }
    ensures { IfOk result (λ walk. (tasks : List Task) → graphs.now ≡ graphs_of tasks → walk ≡ chosen tasks forest.now end order.now tuple.now k) }
{
    match leaf_of(order, tuple, k) {
        Some(leaf) => cut_walk(alloc, graphs.graph(k), end, forest.walk(leaf).as_slice()),
        None => Ok(Row::from_vec(Vec::new(alloc))),
    }
}

// The leaf that a tuple has for a task.
fn leaf_of(order: &[u32], tuple: &[u32], k: u32) -> Option<u32>
    requires { length tuple.now ≤ length order.now }
    ensures { result ≡ leaf_for order.now tuple.now k }
{
    'places: for i in 0..tuple.len() {
        if order[i] == k {
            return Some(tuple[i]);
        }
    }
    None
}
