//! The search for the greatest ratio.
ghost use Rattle.std.specs.Prelude.{◌≡◌, ℕ, ℤ, pos, ◌+◌, ◌*◌, ◌<◌, ◌≤◌, ◌-◌, IfOk, length};
ghost use Rattle.drt_model.specs.Numbers.{most_cycle};
ghost use Rattle.drt_model.specs.Digraph.{Digraph, vertex_count};
ghost use Rattle.drt_ratio.specs.Claims.{IsInReach, IsRatioProof};
ghost use Rattle.drt_graph.specs.RatioRules.{ProvesRatio};
ghost use Rattle.drt_graph.specs.Potential.{potential_of};
ghost use Rattle.drt_ratio.specs.Levels.{height, IsLevelBelow};
ghost use Rattle.drt_model.specs.Walk.{IsCycle, work, cycle_span};

use crate::levels::{Level, levels};
use crate::traces::gaining;
use drt_graph::{Graph, cycle_sums};
use drt_model::{Memory, Row};
use drt_num::Ratio;
use drt_rates::RatioClaim;
use std::alloc::Global;

// The heights as potentials.
fn potentials(alloc: Global, level: &Level, count: u32) -> Result<Vec<i64>, Memory>
    requires few { count ≤ 96 }
    requires small { (v : ℕ) → v < count → height level.now v ≤ 1000000000000000000 }
    ensures counted { IfOk result (λ out. length out.items ≡ count) }
    ensures heights { IfOk result (λ out. (v : ℕ) → v < count → potential_of out.items v ≡ pos (height level.now v)) }
{
    let mut out = Vec::new(alloc);
    'vertices: for v in 0..count {
        out.push(level.heights[v as usize] as i64)?;
    }
    Ok(out)
}

// The ratio of a cycle.
fn ratio_of(graph: &Graph, cycle: &[u32]) -> Ratio
    requires is { IsCycle graph.now cycle.now }
    requires few { length cycle.now ≤ vertex_count graph.now }
    ensures value { result.num * cycle_span graph.now cycle.now ≡ work graph.now cycle.now * result.den }
    ensures num_small { result.num ≤ most_cycle }
    ensures den_small { result.den ≤ most_cycle }
    ensures span_some { 1 ≤ cycle_span graph.now cycle.now }
    ensures work_some { 1 ≤ work graph.now cycle.now }
{
    graph.keep_limits();
    let (work, span) = cycle_sums(graph, cycle);
    Ratio::new(work, span)
}

/// The greatest ratio of execution times to separations of the cycles of the graph, a cycle that has it, and the canonical
/// potentials.
///
/// It takes some hundred kilobytes of memory while it runs. Source of the potentials: Bellman and Ford; of the steps from
/// ratio to ratio: Dinkelbach's method for ratios.
pub fn greatest(alloc: Global, graph: &Graph) -> Result<RatioClaim, Memory>
    ensures greatest { IfOk result (λ proof. IsRatioProof graph.now proof.num proof.den proof.cycle proof.potentials) }
    ensures reach { IfOk result (λ proof. IsInReach graph.now proof.num proof.den proof.potentials) }
    ensures keeps { IfOk result (λ proof. ProvesRatio graph.now proof.num proof.den proof.cycle proof.potentials) }
{
    let mut ratio = Ratio::new(0, 1);
    let mut cycle = Vec::new(alloc);
    'improving: loop {
        let a = ratio.num() as u64;
        let b = ratio.den() as u64;
        let levels = levels(alloc, graph, a, b)?;
        let Some(found) = gaining(alloc, graph, a, b, levels.as_slice())? else {
            let count = graph.vertex_count();
            let potentials = potentials(alloc, &levels[count as usize - 1], count)?;
            return Ok(RatioClaim {
                num: a,
                den: b,
                cycle: Row::from_vec(cycle),
                potentials: Row::from_vec(potentials),
            });
        };
        ratio = ratio_of(graph, found.as_slice());
        cycle = found;
    }
}
