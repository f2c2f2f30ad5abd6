//! The separations of a graph, laid out so that each is found by one look.
ghost use Rattle.std.specs.Prelude.{◌≡◌, ◌+◌, ◌<◌, ◌≤◌, IfOk, length};
ghost use Rattle.drt_model.specs.Numbers.{most_time, most_work};
ghost use Rattle.drt_model.specs.Walk.{gap};
ghost use Rattle.drt_check_trees.specs.Asking.{AreWalkVertices};
ghost use Rattle.drt_check_trees.specs.Gaps.{AreGaps, leap};

use drt_graph::Graph;
use drt_model::Memory;
use std::alloc::Global;

/// A graph with its separations laid out, and the bound below which walks span.
#[derive(Clone, Copy)]
pub struct Bounded<'a> {
    pub graph: &'a Graph,
    pub gaps: &'a [u32],
    pub bound: u32,
}

/// The separations of the graph's edges: 96 rows of 96 numbers, with 0 where there is no edge.
pub(crate) fn gaps_of(alloc: Global, graph: &Graph) -> Result<Vec<u32>, Memory>
    ensures { IfOk result (λ gaps. AreGaps graph.now gaps.items) }
{
    let mut gaps = Vec::with_capacity(alloc, 9216)?;
    for k in 0..9216u32 {
        gaps.push(gap_between(graph, k / 96, k % 96))?;
    }
    Ok(gaps)
}

// The separation of the edge from `u` to `v`, and 0 where there is none.
fn gap_between(graph: &Graph, u: u32, v: u32) -> u32
    ensures value { result ≡ gap graph.now u v }
    ensures most { result ≤ most_time }
{
    if u >= graph.vertex_count() {
        return 0;
    }
    match graph.separation(u, v) {
        Some(gap) => gap,
        None => 0,
    }
}

/// The offset of the next release of a walk, where the one at the place has that offset; the same offset at the end.
pub(crate) fn next_offset(
    graph: &Graph,
    gaps: &[u32],
    walk: &[u32],
    place: usize,
    offset: u64,
) -> u64
    requires gaps { AreGaps graph.now gaps.now }
    requires walk { AreWalkVertices graph.now walk.now }
    requires place { place < length walk.now }
    requires offset { offset ≤ most_work }
    ensures value { result ≡ offset + leap graph.now walk.now place }
    ensures most { result ≤ offset + most_time }
{
    graph.keep_limits();
    if place + 1 == walk.len() {
        return offset;
    }
    let row = walk[place] as usize;
    offset + gaps[96 * row + walk[place + 1] as usize] as u64
}
