//! Cycles in the walks that gain most.
ghost use Rattle.std.specs.Prelude.{◌≡◌, ◌≢◌, ℕ, ◌+◌, ◌-◌, ◌*◌, ◌<◌, ◌≤◌, IfOk, MatchOption, length, slice_index};
ghost use Rattle.drt_model.specs.Digraph.{Digraph, vertex_count};
ghost use Rattle.drt_model.specs.Utilisation.{AreDistinct};
ghost use Rattle.drt_ratio.specs.Levels.{height, level_of, IsTower, IsTrace, IsRepeat, IsGain, IsSettled};

use crate::levels::{Level, from_at, height_at};
use drt_graph::Graph;
use drt_model::Memory;
use std::alloc::Global;

// The walk to `v` that has the gain of the last level. The contract alone reads `_a` and `_b`, the ratio of the levels.
fn trace(
    alloc: Global,
    graph: &Graph,
    _a: u64,
    _b: u64,
    levels: &[Level],
    v: u32,
) -> Result<Vec<u32>, Memory>
    requires tower { IsTower graph.now _a _b levels.now }
    requires count { length levels.now ≡ vertex_count graph.now + 1 }
    requires vertex { v < vertex_count graph.now }
    ensures { IfOk result (λ walk. IsTrace graph.now _a _b (vertex_count graph.now) v (height (level_of levels.now (vertex_count graph.now)) v) walk.items) }
{
    let mut trail = Vec::new(alloc);
    trail.push(v)?;
    let mut at = v;
    let mut k = graph.vertex_count() as usize;
    'down: while k > 0 {
        let height = height_at(levels, k, at as usize);
        if height != height_at(levels, k - 1, at as usize) {
            at = from_at(levels, k, at as usize);
            trail.push(at)?;
        }
        k -= 1;
    }
    trail.reverse();
    Ok(trail)
}

// The first two places with the same number.
fn repeat(walk: &[u32]) -> Option<(usize, usize)>
    ensures { MatchOption result (AreDistinct walk.now) (λ places. IsRepeat walk.now places.0 places.1) }
{
    'ends: for j in 0..walk.len() {
        'starts: for i in 0..j {
            if walk[i] == walk[j] {
                return Some((i, j));
            }
        }
    }
    None
}

// The first vertex whose height the last round raised.
fn risen(graph: &Graph, levels: &[Level]) -> Option<u32>
    requires { length levels.now ≡ vertex_count graph.now + 1 }
    ensures { MatchOption result (IsSettled levels.now (vertex_count graph.now)) (λ v. (v < vertex_count graph.now) × (height (level_of levels.now (vertex_count graph.now)) v ≢ height (level_of levels.now (vertex_count graph.now - 1)) v)) }
{
    let count = graph.vertex_count();
    let last = count as usize;
    'vertices: for v in 0..count {
        if height_at(levels, last, v as usize) != height_at(levels, last - 1, v as usize) {
            return Some(v);
        }
    }
    None
}

/// A cycle that gains, if the last round raised a height.
pub fn gaining(
    alloc: Global,
    graph: &Graph,
    a: u64,
    b: u64,
    levels: &[Level],
) -> Result<Option<Vec<u32>>, Memory>
    requires tower { IsTower graph.now a b levels.now }
    requires count { length levels.now ≡ vertex_count graph.now + 1 }
    ensures { IfOk result (λ found. MatchOption found (IsSettled levels.now (vertex_count graph.now)) (λ cycle. IsGain graph.now a b cycle.items)) }
{
    graph.keep_limits();
    let Some(v) = risen(graph, levels) else {
        return Ok(None);
    };
    let walk = trace(alloc, graph, a, b, levels, v)?;
    let Some((i, j)) = repeat(walk.as_slice()) else {
        unreachable!();
    };
    let cycle = Vec::from_slice(alloc, &walk.as_slice()[i + 1..j + 1])?;
    Ok(Some(cycle))
}
