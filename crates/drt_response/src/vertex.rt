//! The greatest response time of one vertex.
ghost use Rattle.std.specs.Prelude.{◌≡◌, ℕ, ◌≤◌, ◌<◌, length, take, Some, slice_get, IfOk};
ghost use Rattle.drt_model.specs.Digraph.{vertex_count};
ghost use Rattle.drt_busy.specs.Choice.{graph_at};
ghost use Rattle.drt_sp.specs.Grown.{AreProvedTrees};
ghost use Rattle.drt_response.specs.Answers.{IsVertexResponse};

use crate::subjects::VertexAt;
use drt_accepted::Accepted;
use drt_busy::times_suffice_for_task;
use drt_crew::Crew;
use drt_model::{Memory, Row};
use drt_pool::Gate;
use drt_responses::Response;
use drt_sp::{ProvedTrees, VertexTuple, leaf_releases, leaves_respond, walks_pass};
use drt_worst::{Worst, worst};
use std::sync::Wait;
use std::thread::Threads;

/// What came of a vertex: its response, or what a worker took that spent its budget.
#[derive(Drop)]
pub(crate) enum VertexResponse {
    Reached(Response),
    Spent(Row<Row<u32>>),
}

/// The greatest response time of a vertex of a task, in ticks, over the trees of the tasks of higher priority.
pub(crate) fn respond_vertex<G: Gate, R: Threads + Wait + Sync>(
    crew: &Crew<'_, G, R>,
    set: &Accepted<'_>,
    trees: &ProvedTrees,
    at: VertexAt,
) -> Result<VertexResponse, Memory>
    requires trees { AreProvedTrees set.now trees.now }
    requires task { at.task < length set.now.tasks }
    requires vertex { at.vertex < vertex_count (graph_at set.now.tasks at.task) }
    ensures { IfOk result (IsVertexResponse set.now crew.now.effort.budget at.task at.vertex) }
{
    times_suffice_for_task();
    leaves_respond();
    walks_pass();
    let graphs = set.graphs();
    graphs.keep_limits();
    let order = trees.order.as_slice();
    let higher = first_roots(trees.roots.as_slice(), place_of(order, at.task));
    let subject = graphs.graph(at.task).vertex(at.vertex);
    match worst(crew, &trees.forest, higher, subject.wcet, subject.deadline)? {
        Worst::Spent { taken } => Ok(VertexResponse::Spent(taken)),
        Worst::Reached { ticks, leaves } => {
            let shown = VertexTuple {
                task: at.task,
                vertex: at.vertex,
                tuple: leaves,
            };
            let releases = leaf_releases(
                crew.alloc,
                set,
                &trees.forest,
                order,
                &shown,
                ticks as u32,
            )?;
            Ok(VertexResponse::Reached(Response {
                task: at.task,
                vertex: at.vertex,
                ticks,
                releases,
            }))
        }
    }
}

// The place of a task in the order.
fn place_of(order: &[u32], task: u32) -> usize
    requires { (i : ℕ) × (slice_get order.now i ≡ Some task) }
    ensures { slice_get order.now result ≡ Some task }
{
    'places: for i in 0..order.len() {
        if order[i] == task {
            return i;
        }
    }
    unreachable!()
}

// The roots at the first places.
fn first_roots(roots: &[u32], count: usize) -> &[u32]
    requires { count ≤ length roots.now }
    ensures { result.now ≡ take count roots.now }
{
    &roots[..count]
}
