//! The tails of the tasks of higher priority.
ghost use Rattle.std.specs.Prelude.{◌≤◌, IfOk, IfSome};
ghost use Rattle.drt_model.specs.Numbers.{most_time};
ghost use Rattle.drt_check_states.specs.Places.{AreTasks, graphs_at};
ghost use Rattle.drt_fixed_task.specs.Tails.{AreTails};

use drt_effort::MOST_BUDGET;
use drt_graph::{Graph, Graphs};
use drt_model::Memory;
use drt_states::TailClaim;
use drt_tails::find_tail;
use std::alloc::Global;

// How many steps a tail may take.
const MOST_STEPS: u64 = MOST_BUDGET as u64;

/// The tails of these tasks up to the bound, in ticks, in the same order. None where one takes too many steps.
pub(crate) fn find_tails(
    alloc: Global,
    graphs: &Graphs,
    tasks: &[u32],
    bound: u32,
) -> Result<Option<Vec<TailClaim>>, Memory>
    requires tasks { AreTasks graphs.now tasks.now }
    requires some { 1 ≤ bound }
    requires most { bound ≤ most_time }
    ensures { IfOk result (λ found. IfSome found (λ tails. AreTails bound (graphs_at graphs.now tasks.now) tails.items)) }
{
    let mut tails = Vec::new(alloc);
    'tasks: for i in 0..tasks.len() {
        let graph = graphs.graph(tasks[i]);
        let Some(tail) = find_tail(alloc, graph, u64::from(bound), MOST_STEPS)? else {
            return Ok(None);
        };
        tails.push(tail)?;
    }
    Ok(Some(tails))
}
