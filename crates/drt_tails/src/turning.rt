//! The graph with each edge turned round.
ghost use Rattle.std.specs.Prelude.{◌≡◌, ◌<◌, IfOk, IfSome, map};
ghost use Rattle.drt_model.specs.Digraph.{vertex_count, out_degree};
ghost use Rattle.drt_tails.specs.Turned.{AreTurned, AreTurnedGraphs, AreTurnedTo, IsTurnedTask, urgent};

use drt_graph::{Graph, GraphError, Graphs, check};
use drt_model::{Edge, Memory, Name, Row, Task, Vertex, task_set};
use std::alloc::Global;

// The vertex, with the deadline 1.
fn urgent_vertex(alloc: Global, vertex: &Vertex) -> Result<Vertex, Memory>
    ensures { IfOk result (λ copy. copy ≡ urgent vertex.now) }
{
    let name = Name::from_vec(Vec::from_slice(alloc, vertex.name.as_slice())?);
    Ok(Vertex {
        name,
        wcet: vertex.wcet,
        deadline: 1,
    })
}

// The vertices of a graph, each with the deadline 1.
fn urgent_vertices(alloc: Global, graph: &Graph) -> Result<Vec<Vertex>, Memory>
    ensures { IfOk result (λ vertices. vertices.items ≡ map urgent graph.now.vertices) }
{
    let count = graph.vertex_count();
    let mut vertices = Vec::with_capacity(alloc, count as usize)?;
    'vertices: for v in 0..count {
        vertices.push(urgent_vertex(alloc, graph.vertex(v))?)?;
    }
    Ok(vertices)
}

// Adds the edges out of a vertex, turned round.
fn add_turned(graph: &Graph, u: u32, edges: &mut Vec<Edge>) -> Result<(), Memory>
    requires vertex { u < vertex_count graph.now }
    requires before { AreTurnedTo graph.now u 0 edges.old.items }
    ensures { IfOk result (λ r. AreTurnedTo graph.now u (out_degree graph.now u) edges.new.items) }
{
    let degree = graph.out_degree(u);
    'edges: for k in 0..degree {
        let edge = graph.out_edge(u, k);
        edges.push(Edge {
            from: edge.to,
            to: u,
            sep: edge.sep,
        })?;
    }
    Ok(())
}

// The edges of a graph, turned round.
fn turned_edges(alloc: Global, graph: &Graph) -> Result<Vec<Edge>, Memory>
    ensures { IfOk result (λ edges. AreTurned graph.now edges.items) }
{
    let count = graph.vertex_count();
    let mut edges = Vec::new(alloc);
    'vertices: for u in 0..count {
        add_turned(graph, u, &mut edges)?;
    }
    Ok(edges)
}

// The task of the turned graph.
fn turned_task(alloc: Global, graph: &Graph) -> Result<Task, Memory>
    ensures { IfOk result (λ task. IsTurnedTask graph.now task) }
{
    let vertices = urgent_vertices(alloc, graph)?;
    let edges = turned_edges(alloc, graph)?;
    Ok(Task {
        name: Name::from_vec(Vec::from_slice(alloc, b"turned")?),
        priority: 1,
        vertices: Row::from_vec(vertices),
        edges: Row::from_vec(edges),
    })
}

/// The graph with each edge turned round and each deadline 1, as the only one of a set. None where it isn't the graph of a task within the limits
/// of a set, as with more than 256 edges.
pub fn turned_graphs(alloc: Global, graph: &Graph) -> Result<Option<Graphs>, Memory>
    ensures { IfOk result (λ r. IfSome r (AreTurnedGraphs graph.now)) }
{
    let mut tasks = Vec::new(alloc);
    tasks.push(turned_task(alloc, graph)?)?;
    let Some(set) = task_set(2, Row::from_vec(tasks)) else {
        return Ok(None);
    };
    match check(alloc, &set) {
        Ok(graphs) => Ok(Some(graphs)),
        Err(GraphError::Memory) => Err(Memory),
        // Each deadline is 1, so none is past a separation.
        Err(GraphError::DeadlinePastSeparation { task: _, edge: _ }) => Ok(None),
    }
}
