//! Walks that are cut at a time.
ghost use Rattle.std.specs.Prelude.{◌≡◌, IfOk};
ghost use Rattle.drt_model.specs.Walk.{IsWalk};
ghost use Rattle.drt_busy.specs.Response.{cut};

use drt_graph::Graph;
use drt_model::{Memory, Row};
use std::alloc::Global;

/// A walk as far as the offsets of its releases are below `end`, in ticks.
pub fn cut_walk(alloc: Global, graph: &Graph, end: u32, walk: &[u32]) -> Result<Row<u32>, Memory>
    requires walk { IsWalk graph.now walk.now }
    ensures { IfOk result (λ row. row ≡ cut graph.now end walk.now) }
{
    graph.keep_limits();
    let mut kept = Vec::new(alloc);
    if walk.is_empty() {
        return Ok(Row::from_vec(kept));
    }
    let mut vertex = walk[0];
    let mut offset: u64 = 0;
    kept.push(vertex)?;
    'steps: for i in 1..walk.len() {
        let next = walk[i];
        let Some(gap) = graph.separation(vertex, next) else {
            unreachable!();
        };
        offset += u64::from(gap);
        if offset >= u64::from(end) {
            return Ok(Row::from_vec(kept));
        }
        kept.push(next)?;
        vertex = next;
    }
    Ok(Row::from_vec(kept))
}
