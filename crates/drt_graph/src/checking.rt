//! Whether the deadlines of a set are constrained.
ghost use Rattle.std.specs.Prelude.{◌≡◌, ◌<◌, ◌≤◌, ◌↔◌, All, IfSome, IsTrue, MatchOption, MatchResult, length, map, slice_get};
ghost use Rattle.drt_model.specs.Constrained.{AreConstrained, IsConstrainedEdge};
ghost use Rattle.drt_model.specs.Digraph.{digraph_of};
ghost use Rattle.drt_graph.specs.Past.{IsFirstPast, IsFirstPastEdge, IsGraphCause};

use crate::building::graphs_of;
use crate::error::GraphError;
use crate::graphs::Graphs;
use drt_model::{Edge, Task, TaskSet, Vertex};
use std::alloc::Global;

/// The graphs of the set, one a task, if on each edge the deadline of the source is at most the separation. Otherwise the
/// error names the first edge, in order of tasks and then of edges, where it isn't.
pub fn check(alloc: Global, set: &TaskSet) -> Result<Graphs, GraphError>
    ensures { MatchResult result (λ graphs. AreConstrained set.now.tasks × (graphs ≡ map digraph_of set.now.tasks)) (IsGraphCause set.now.tasks) }
{
    let tasks = set.tasks();
    match first_past(tasks) {
        Some((task, edge)) => Err(GraphError::DeadlinePastSeparation { task, edge }),
        None => match graphs_of(alloc, tasks) {
            Ok(graphs) => Ok(Graphs { graphs }),
            Err(_) => Err(GraphError::Memory),
        },
    }
}

/// The numbers of the task and of the edge of the first edge whose separation is below the deadline of its source, in order of tasks and
/// then of edges. There is none exactly where the deadlines are constrained, and no memory is taken.
pub fn first_past(tasks: &[Task]) -> Option<(u32, u32)>
    requires tasks { length tasks.now ≤ 32 }
    requires edges { All (λ t. length t.edges ≤ 256) tasks.now }
    ensures { MatchOption result (AreConstrained tasks.now) (λ at. IsFirstPast tasks.now at.0 at.1) }
{
    for i in 0..tasks.len() {
        if let Some(edge) = first_past_edge(&tasks[i]) {
            return Some((i as u32, edge));
        }
    }
    None
}

// The first edge of the task whose separation is below the deadline of its source.
fn first_past_edge(task: &Task) -> Option<u32>
    requires { length task.now.edges ≤ 256 }
    ensures { MatchOption result (All (IsConstrainedEdge task.now) task.now.edges) (λ k. IsFirstPastEdge task.now k) }
{
    let vertices = task.vertices.as_slice();
    let edges = task.edges.as_slice();
    for k in 0..edges.len() {
        if !is_constrained(vertices, edges[k]) {
            return Some(k as u32);
        }
    }
    None
}

// Whether the source of the edge is due by the time that the edge's separation is over.
fn is_constrained(vertices: &[Vertex], edge: Edge) -> bool
    ensures { IsTrue result ↔ IfSome (slice_get vertices.now edge.from) (λ v. v.deadline ≤ edge.sep) }
{
    match vertices.get(edge.from as usize) {
        Some(source) => source.deadline <= edge.sep,
        None => true,
    }
}
