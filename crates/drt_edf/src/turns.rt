//! Whole turns of the cycles that have the tasks' ratios, as walks.
ghost use Rattle.std.specs.Prelude.{◌≡◌, ◌<◌, ◌/◌, List, length, IfOk};
ghost use Rattle.std.specs.List.{repeat};
ghost use Rattle.drt_model.specs.declared.tasks.Task.{Task};
ghost use Rattle.drt_model.specs.Walk.{IsCycle};
ghost use Rattle.drt_horizon.specs.Given.{AreGiven};
ghost use Rattle.drt_claims.specs.Claims.{graphs_of};
ghost use Rattle.drt_edf.specs.Turns.{AreTurns, turns_of, turns_within};

use drt_graph::{Graph, Graphs, cycle_sums};
use drt_model::{Memory, Row};
use drt_rates::RatioClaim;
use std::alloc::Global;

/// For each task the walk of the whole turns of its cycle within `t`.
pub(crate) fn turns(
    alloc: Global,
    graphs: &Graphs,
    proofs: &[RatioClaim],
    t: u64,
) -> Result<Row<Row<u32>>, Memory>
    requires { AreGiven graphs.now proofs.now }
    ensures each { IfOk result (λ walks. walks ≡ turns_within graphs.now proofs.now t) }
    ensures enough { IfOk result (λ walks. (tasks : List Task) → graphs.now ≡ graphs_of tasks → AreTurns tasks proofs.now t walks) }
{
    let mut walks = Vec::new(alloc);
    'tasks: for i in 0..graphs.count() {
        let cycle = proofs[i as usize].cycle.as_slice();
        walks.push(turns_of(alloc, graphs.graph(i), cycle, t)?)?;
    }
    Ok(Row::from_vec(walks))
}

// The walk of the whole turns of a cycle within `t`, and no walk where there is no cycle.
fn turns_of(alloc: Global, graph: &Graph, cycle: &[u32], t: u64) -> Result<Row<u32>, Memory>
    requires { 0 < length cycle.now → IsCycle graph.now cycle.now }
    ensures { IfOk result (λ walk. walk ≡ turns_of graph.now t cycle.now) }
{
    graph.keep_limits();
    if cycle.is_empty() {
        return Ok(Row::from_vec(Vec::new(alloc)));
    }
    let (_work, span) = cycle_sums(graph, cycle);
    let count = t as u128 / span;
    Ok(Row::from_vec(cycle.repeat(alloc, count as usize)?))
}
