//! The latest deadline of a graph.
ghost use Rattle.std.specs.Prelude.{ℕ, ◌<◌, ◌≤◌};
ghost use Rattle.drt_model.specs.Numbers.{most_time};
ghost use Rattle.drt_model.specs.Digraph.{vertex_count};
ghost use Rattle.drt_model.specs.Walk.{deadline};

use drt_graph::Graph;

/// The greatest deadline of a graph's vertices, in ticks, and 1 where it has none.
pub fn latest_deadline(graph: &Graph) -> u32
    ensures some { 1 ≤ result }
    ensures most { result ≤ most_time }
    ensures bounds { (v : ℕ) → v < vertex_count graph.now → deadline graph.now v ≤ result }
    ensures least { (n : ℕ) → 1 ≤ n → ((v : ℕ) → v < vertex_count graph.now → deadline graph.now v ≤ n) → result ≤ n }
{
    let mut latest = 1;
    'vertices: for v in 0..graph.vertex_count() {
        latest = latest.max(graph.vertex(v).deadline);
    }
    latest
}
