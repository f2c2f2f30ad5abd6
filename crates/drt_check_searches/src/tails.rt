//! Whether there is a tail for each place, and the tails bound what walks ask for.
ghost use Rattle.std.specs.Prelude.{◌≡◌, ◌↔◌, IsTrue};
ghost use Rattle.drt_claims.specs.Claims.{graphs_of};
ghost use Rattle.drt_claims.specs.Sorting.{sorted_places};
ghost use Rattle.drt_states.specs.Tails.{BoundsWalks, EachTail, IsTail};
ghost use Rattle.drt_check_trees.specs.Order.{IsPriorityOrder};

use crate::places::{bound_at, graph_at};
use drt_check_states::{bounds_walks, is_tail};
use drt_graph::Graphs;
use drt_model::TaskSet;
use drt_states::TailClaim;

/// Whether there is a tail for each task but the one of lowest priority, with a rising function for each vertex whose jumps lie
/// below the greatest deadline of the tasks of lower priority. It takes no memory.
pub fn has_rising_tails(set: &TaskSet, graphs: &Graphs, order: &[u32], tails: &[TailClaim]) -> bool
    requires graphs { graphs.now ≡ graphs_of set.now.tasks }
    requires order { IsPriorityOrder set.now.tasks order.now }
    ensures { IsTrue result ↔ EachTail IsTail (sorted_places set.now.tasks) tails.now }
{
    if tails.len() != set.tasks().len() - 1 {
        return false;
    }
    for i in 0..tails.len() {
        let graph = graph_at(set, graphs, order, i);
        let bound = bound_at(set, order, i);
        if !is_tail(graph, bound, &tails[i]) {
            return false;
        }
    }
    true
}

/// Whether the functions of each tail bound what walks ask for. It takes no memory.
pub fn bound_walks(set: &TaskSet, graphs: &Graphs, order: &[u32], tails: &[TailClaim]) -> bool
    requires graphs { graphs.now ≡ graphs_of set.now.tasks }
    requires order { IsPriorityOrder set.now.tasks order.now }
    requires tails { EachTail IsTail (sorted_places set.now.tasks) tails.now }
    ensures { IsTrue result ↔ EachTail BoundsWalks (sorted_places set.now.tasks) tails.now }
{
    for i in 0..tails.len() {
        let graph = graph_at(set, graphs, order, i);
        let bound = bound_at(set, order, i);
        if !bounds_walks(graph, bound, &tails[i]) {
            return false;
        }
    }
    true
}
