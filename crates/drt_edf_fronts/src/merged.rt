//! Tasks whose walks are merged.
ghost use Rattle.std.specs.Prelude.{◌≤◌, IfOk, IfSome};
ghost use Rattle.drt_model.specs.Numbers.{most_horizon};
ghost use Rattle.drt_effort.specs.Efforts.{most_budget};
ghost use Rattle.drt_model.specs.Digraph.{IsConstrainedGraph};
ghost use Rattle.drt_claims.specs.Ranges.{IsCounted};
ghost use Rattle.drt_edf_fronts.specs.LabelFronts.{IsLabelFront};

use drt_graph::{FrontEntry, Graph};
use drt_merge::Patience;
use drt_model::{Memory, Row};
use std::alloc::Global;

/// The front of a task's walks up to the bound, in ticks, merged from the lists of its vertices. None where its labels count more steps
/// than the budget has, as the steps of a table that finds them would, or where a sixteenth of the budget shows that it's unlikely to last.
pub fn merged_front(
    alloc: Global,
    graph: &Graph,
    bound: u64,
    budget: u64,
) -> Result<Option<Row<FrontEntry>>, Memory>
    requires constrained { IsConstrainedGraph graph.now }
    requires bound { bound ≤ most_horizon }
    requires few { budget ≤ most_budget }
    ensures front { IfOk result (λ r. IfSome r (IsLabelFront graph.now bound)) }
    ensures counted { IfOk result (λ r. IfSome r IsCounted) }
{
    graph.keep_limits();
    let patience = Patience::WhileHopeful;
    let merged = drt_merge::merged_front(alloc, graph, bound, budget, patience)?;
    Ok(merged)
}
