//! The greatest gains of walks, level by level.
ghost use Rattle.std.specs.Prelude.{◌≡◌, ℕ, ◌+◌, ◌*◌, ◌<◌, ◌≤◌, IfOk, length, slice_index};
ghost use Rattle.drt_model.specs.Numbers.{most_cycle};
ghost use Rattle.drt_model.specs.Digraph.{Digraph, vertex_count, out_degree, edge_of};
ghost use Rattle.drt_ratio.specs.Levels.{height, level_of, IsRaised, IsRelaxed, Rises, IsLevelBelow, IsWholeRound, IsTower};

use drt_graph::Graph;
use drt_model::{MOST_VERTICES, Memory};
use std::alloc::Global;

/// The greatest gain of a walk to each vertex, and the vertex before its last.
#[derive(Drop, Clone, Copy)]
pub struct Level {
    pub heights: [u64; MOST_VERTICES],
    pub from: [u32; MOST_VERTICES],
}

// Takes the k-th edge out of `u` into account.
fn offer(graph: &Graph, a: u64, b: u64, low: &Level, u: u32, k: u32, high: &mut Level)
    requires vertex { u < vertex_count graph.now }
    requires edge { k < out_degree graph.now u }
    requires a_small { a ≤ most_cycle }
    requires b_small { b ≤ most_cycle }
    requires low_small { IsLevelBelow graph.now low.now 1000000000000000000 }
    requires raised { IsRaised graph.now a b low.now high.old }
    ensures raised { IsRaised graph.now a b low.now high.new }
    ensures rises { Rises high.old high.new }
    ensures done { IsRelaxed graph.now a b low.now high.new u k }
{
    graph.keep_limits();
    let edge = *graph.out_edge(u, k);
    let v = edge.to as usize;
    let wcet = graph.vertex(edge.to).wcet;
    let gained = low.heights[u as usize] + b * wcet as u64;
    let lost = a * edge.sep as u64;
    if high.heights[v] + lost < gained {
        high.heights[v] = gained - lost;
        high.from[v] = u;
    }
}

// The level a round above `low`.
fn raised(graph: &Graph, a: u64, b: u64, low: &Level) -> Level
    requires a_small { a ≤ most_cycle }
    requires b_small { b ≤ most_cycle }
    requires low_small { IsLevelBelow graph.now low.now 1000000000000000000 }
    ensures { IsWholeRound graph.now a b low.now result }
{
    let mut high = Level {
        heights: low.heights,
        from: [0; MOST_VERTICES],
    };
    'sources: for u in 0..graph.vertex_count() {
        'edges: for k in 0..graph.out_degree(u) {
            offer(graph, a, b, low, u, k, &mut high);
        }
    }
    high
}

/// The levels of as many rounds as there are vertices, from the level whose heights are 0.
pub fn levels(alloc: Global, graph: &Graph, a: u64, b: u64) -> Result<Vec<Level>, Memory>
    requires a_small { a ≤ most_cycle }
    requires b_small { b ≤ most_cycle }
    ensures tower { IfOk result (λ levels. IsTower graph.now a b levels.items) }
    ensures count { IfOk result (λ levels. length levels.items ≡ vertex_count graph.now + 1) }
{
    let mut levels = Vec::new(alloc);
    levels.push(Level {
        heights: [0; MOST_VERTICES],
        from: [0; MOST_VERTICES],
    })?;
    'rounds: for i in 0..graph.vertex_count() {
        let next = raised(graph, a, b, &levels[i as usize]);
        levels.push(next)?;
    }
    Ok(levels)
}

/// The greatest gain of a walk of at most `k` edges to `v`.
pub fn height_at(levels: &[Level], k: usize, v: usize) -> u64
    requires level { k < length levels.now }
    requires vertex { v < 96 }
    ensures { result ≡ height (level_of levels.now k) v }
{
    levels[k].heights[v]
}

/// The vertex before the last of that walk.
pub fn from_at(levels: &[Level], k: usize, v: usize) -> u32
    requires level { k < length levels.now }
    requires vertex { v < 96 }
    ensures { result ≡ slice_index (level_of levels.now k).from v }
{
    levels[k].from[v]
}
