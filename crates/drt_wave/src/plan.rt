//! What a table is of.
ghost use Rattle.std.specs.Prelude.{◌≡◌, ℕ, ◌+◌, ◌*◌, ◌<◌, ◌≤◌, IfOk};
ghost use Rattle.drt_model.specs.Digraph.{IsSoundGraph, vertex_count, out_degree, edge_of};
ghost use Rattle.drt_wave.specs.Cells.{IsWavePlan, net_of, width, most_cells};

use drt_graph::Graph;
use drt_model::Memory;
use std::alloc::Global;

/// A graph, the greatest offset in ticks, and how many offsets a wave spans: the least separation of the graph, or all
/// offsets where that is less.
#[derive(Drop)]
pub struct Plan {
    pub graph: Graph,
    pub bound: u64,
    pub span: u64,
}

// The least of the separations out of a vertex and `most`.
fn least_out(graph: &Graph, v: u32, most: u64) -> u64
    requires vertex { v < vertex_count graph.now }
    requires some { 0 < most }
    ensures some { 0 < result }
    ensures within { result ≤ most }
    ensures apart { (k : ℕ) → k < out_degree graph.now v → result ≤ (edge_of graph.now v k).sep }
    ensures greatest { (n : ℕ) → n ≤ most → ((k : ℕ) → k < out_degree graph.now v → n ≤ (edge_of graph.now v k).sep) → n ≤ result }
{
    graph.keep_limits();
    let degree = graph.out_degree(v);
    let mut least = most;
    'edges: for k in 0..degree {
        least = least.min(u64::from(graph.out_edge(v, k).sep));
    }
    least
}

// The least separation of a graph, or `most` where no separation is less.
fn least_separation(graph: &Graph, most: u64) -> u64
    requires some { 0 < most }
    ensures some { 0 < result }
    ensures within { result ≤ most }
    ensures apart { (v k : ℕ) → v < vertex_count graph.now → k < out_degree graph.now v → result ≤ (edge_of graph.now v k).sep }
    ensures greatest { (n : ℕ) → n ≤ most → ((v k : ℕ) → v < vertex_count graph.now → k < out_degree graph.now v → n ≤ (edge_of graph.now v k).sep) → n ≤ result }
{
    let count = graph.vertex_count();
    let mut least = most;
    'vertices: for v in 0..count {
        least = least_out(graph, v, least);
    }
    least
}

/// The plan of a table of a graph up to a bound.
pub(crate) fn make_plan(alloc: Global, graph: &Graph, bound: u64) -> Result<Plan, Memory>
    requires small { vertex_count graph.now * (bound + 1) ≤ most_cells }
    ensures graph { IfOk result (λ plan. plan.graph ≡ graph.now) }
    ensures bound { IfOk result (λ plan. plan.bound ≡ bound) }
    ensures planned { IfOk result (λ plan. IsWavePlan plan) }
{
    graph.keep_limits();
    let span = least_separation(graph, bound + 1);
    let graph = graph.copy(alloc)?;
    Ok(Plan { graph, bound, span })
}

impl Plan {
    /// How many offsets there are.
    pub(crate) fn width(&self) -> u64
        requires small { vertex_count self.now.graph * (self.now.bound + 1) ≤ most_cells }
        ensures { result ≡ width self.now }
    {
        self.graph.keep_limits();
        self.bound + 1
    }

    /// How many waves there are.
    pub(crate) fn wave_count(&self) -> u32
        requires planned { IsWavePlan self.now }
        ensures { result ≡ (net_of self.now).waves }
    {
        (self.bound / self.span + 1) as u32
    }

    /// How many cells there are.
    pub(crate) fn cell_count(&self) -> u64
        requires small { vertex_count self.now.graph * (self.now.bound + 1) ≤ most_cells }
        ensures { result ≡ vertex_count self.now.graph * (self.now.bound + 1) }
    {
        self.graph.vertex_count() as u64 * self.width()
    }
}
