//! The least separation of a graph.

ghost use Rattle.std.specs.Prelude.{◌≡◌, ◌<◌, true, length};
ghost use Rattle.drt_model.specs.Digraph.{IsSoundGraph, vertex_count, out_edges};
ghost use Rattle.drt_table.specs.Machine.{shortest};
ghost use Rattle.drt_table.specs.Earliest.{smaller, least_of};

use drt_graph::Graph;

// The least separation of the graph's edges, if there is an edge.
pub(crate) fn shortest(graph: &Graph) -> Option<u32>
    ensures { result ≡ shortest graph.now.out }
{
    let mut least = None;
    let count = graph.vertex_count();
    for v in 0..count {
        least = smaller(least, shortest_out(graph, v));
    }
    least
}

// The least separation of the edges out of a vertex.
fn shortest_out(graph: &Graph, v: u32) -> Option<u32>
    requires { v < vertex_count graph.now }
    ensures { result ≡ least_of (λ e. true) (λ e. e.sep) (out_edges graph.now v) }
{
    let mut least = None;
    let degree = graph.out_degree(v);
    for k in 0..degree {
        least = smaller(least, Some(graph.out_edge(v, k).sep));
    }
    least
}

// The smaller of two numbers, where there are two.
pub(crate) fn smaller(a: Option<u32>, b: Option<u32>) -> Option<u32>
    ensures { result ≡ smaller a b }
{
    match (a, b) {
        (None, _) => b,
        (Some(_), None) => a,
        (Some(m), Some(n)) => Some(m.min(n)),
    }
}
