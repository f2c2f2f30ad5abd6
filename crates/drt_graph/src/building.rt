//! How the graphs of tasks are built.
ghost use Rattle.std.specs.Prelude.{◌≡◌, ◌<◌, ◌≤◌, ◌++◌, ◌∷◌, [], All, IfOk, length, map, slice_set, slice_index_or};
ghost use Rattle.std.specs.List.{range_with_len};
ghost use Rattle.drt_model.specs.Digraph.{IsSoundGraph, digraph_of, edges_from};

use crate::graph::Graph;
use drt_model::{Edge, Memory, Task, copy_vertices};
use std::alloc::Global;

/// The graphs of the tasks, in order.
pub fn graphs_of(alloc: Global, tasks: &[Task]) -> Result<Vec<Graph>, Memory>
    requires sound { All (λ t. IsSoundGraph (digraph_of t)) tasks.now }
    requires ends { All (λ t. All (λ e. e.from < length t.vertices) t.edges) tasks.now }
    ensures { IfOk result (λ graphs. graphs.items ≡ map digraph_of tasks.now) }
{
    let mut graphs = Vec::new(alloc);
    for task in tasks {
        graphs.push(graph_of(alloc, task)?)?;
    }
    Ok(graphs)
}

// The graph of one task.
fn graph_of(alloc: Global, task: &Task) -> Result<Graph, Memory>
    requires sound { IsSoundGraph (digraph_of task.now) }
    requires ends { All (λ e. e.from < length task.now.vertices) task.now.edges }
    ensures { IfOk result (λ graph. graph ≡ digraph_of task.now) }
{
    let vertices = copy_vertices(alloc, task.vertices.as_slice())?;
    let out = rows_of(alloc, vertices.len(), task.edges.as_slice())?;
    Ok(Graph { vertices, out })
}

// The edges out of each of `count` vertices, in order: one pass over the edges.
fn rows_of(alloc: Global, count: usize, edges: &[Edge]) -> Result<Vec<Vec<Edge>>, Memory>
    requires { All (λ e. e.from < count) edges.now }
    ensures { IfOk result (λ rows. map (λ row. row.items) rows.items ≡ map (edges_from edges.now) (range_with_len 0 count)) }
{
    let mut rows = empty_rows(alloc, count)?;
    for edge in edges {
        rows[edge.from as usize].push(*edge)?;
    }
    Ok(rows)
}

fn empty_rows(alloc: Global, count: usize) -> Result<Vec<Vec<Edge>>, Memory>
    ensures { IfOk result (λ rows. map (λ row. row.items) rows.items ≡ map (edges_from []) (range_with_len 0 count)) }
{
    let mut rows = Vec::with_capacity(alloc, count)?;
    for _row in 0..count {
        rows.push(Vec::new(alloc))?;
    }
    Ok(rows)
}
