//! Whether the states of searches are states.
ghost use Rattle.std.specs.Prelude.{◌≡◌, ◌↔◌, All, IsTrue};
ghost use Rattle.drt_claims.specs.Claims.{graphs_of};
ghost use Rattle.drt_claims.specs.Searches.{HasStatesOver};
ghost use Rattle.drt_claims.specs.Sorting.{by_priority};
ghost use Rattle.drt_check_trees.specs.Order.{IsPriorityOrder};

use crate::places::higher_order;
use drt_check_states::are_states;
use drt_graph::Graphs;
use drt_model::TaskSet;
use drt_states::SearchClaim;

/// Whether the states of each search are states over the tasks of higher priority than its task's. It takes no memory.
pub fn have_states(set: &TaskSet, graphs: &Graphs, order: &[u32], searches: &[SearchClaim]) -> bool
    requires graphs { graphs.now ≡ graphs_of set.now.tasks }
    requires order { IsPriorityOrder set.now.tasks order.now }
    ensures { IsTrue result ↔ All (HasStatesOver set.now.tasks (by_priority set.now.tasks)) searches.now }
{
    for i in 0..searches.len() {
        if !has_states(set, graphs, order, &searches[i]) {
            return false;
        }
    }
    true
}

fn has_states(set: &TaskSet, graphs: &Graphs, order: &[u32], search: &SearchClaim) -> bool
    requires graphs { graphs.now ≡ graphs_of set.now.tasks }
    requires order { IsPriorityOrder set.now.tasks order.now }
    ensures { IsTrue result ↔ HasStatesOver set.now.tasks (by_priority set.now.tasks) search.now }
{
    if search.task as usize >= set.tasks().len() {
        return true;
    }
    let higher = higher_order(set, graphs, order, search.task);
    are_states(graphs, higher, search.states.as_slice())
}
