//! The tail of a graph.
ghost use Rattle.std.specs.Prelude.{◌≤◌, IfOk, IfSome};
ghost use Rattle.drt_effort.specs.Efforts.{most_budget};
ghost use Rattle.drt_model.specs.Numbers.{most_time};
ghost use Rattle.drt_states.specs.Tails.{IsTail, BoundsWalks};
ghost use Rattle.drt_tails.specs.Attained.{IsAttained};

use crate::cutting::curves_of;
use crate::turning::turned_graphs;
use drt_graph::Graph;
use drt_merge::{Patience, merged_front};
use drt_model::{Memory, Row};
use drt_states::TailClaim;
use std::alloc::Global;

/// The tail of a graph up to the bound, in ticks. None where the graph has more than 256 edges, or where the jumps count more steps than the
/// budget: two for each, and one for each edge into its vertex.
pub fn find_tail(
    alloc: Global,
    graph: &Graph,
    bound: u64,
    budget: u64,
) -> Result<Option<TailClaim>, Memory>
    requires some { 1 ≤ bound }
    requires bound { bound ≤ most_time }
    requires few { budget ≤ most_budget }
    ensures tail { IfOk result (λ r. IfSome r (IsTail bound graph.now)) }
    ensures bounds { IfOk result (λ r. IfSome r (BoundsWalks bound graph.now)) }
    ensures attained { IfOk result (λ r. IfSome r (IsAttained graph.now)) }
{
    let count = graph.vertex_count();
    let Some(turned) = turned_graphs(alloc, graph)? else {
        return Ok(None);
    };
    let Some(front) = merged_front(alloc, turned.graph(0), bound, budget, Patience::ToTheEnd)?
    else {
        return Ok(None);
    };
    let curves = curves_of(alloc, front.as_slice(), count)?;
    Ok(Some(TailClaim {
        curves: Row::from_vec(curves),
    }))
}
