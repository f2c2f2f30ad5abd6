//! Whether the states of searches that split are split as they should be.
ghost use Rattle.std.specs.Prelude.{◌≡◌, ◌↔◌, All, IsTrue};
ghost use Rattle.drt_claims.specs.Claims.{graphs_of};
ghost use Rattle.drt_claims.specs.Searches.{HasDominatedChildren, HasStatesOver};
ghost use Rattle.drt_claims.specs.Sorting.{by_priority};
ghost use Rattle.drt_check_trees.specs.Order.{IsPriorityOrder};

use crate::places::higher_order;
use crate::vertices::numbers;
use drt_check_states::have_dominated_children;
use drt_graph::Graphs;
use drt_model::TaskSet;
use drt_states::SearchClaim;

/// Whether the states of each search that split have children, each of which is dominated by a state of the search. It takes no
/// memory.
pub fn have_dominated_splits(
    set: &TaskSet,
    graphs: &Graphs,
    order: &[u32],
    searches: &[SearchClaim],
) -> bool
    requires graphs { graphs.now ≡ graphs_of set.now.tasks }
    requires order { IsPriorityOrder set.now.tasks order.now }
    requires states { All (HasStatesOver set.now.tasks (by_priority set.now.tasks)) searches.now }
    ensures { IsTrue result ↔ All (HasDominatedChildren set.now.tasks (by_priority set.now.tasks)) searches.now }
{
    for i in 0..searches.len() {
        if !has_dominated_splits(set, graphs, order, &searches[i]) {
            return false;
        }
    }
    true
}

fn has_dominated_splits(set: &TaskSet, graphs: &Graphs, order: &[u32], search: &SearchClaim) -> bool
    requires graphs { graphs.now ≡ graphs_of set.now.tasks }
    requires order { IsPriorityOrder set.now.tasks order.now }
    requires states { HasStatesOver set.now.tasks (by_priority set.now.tasks) search.now }
    ensures { IsTrue result ↔ HasDominatedChildren set.now.tasks (by_priority set.now.tasks) search.now }
{
    let tasks = set.tasks();
    if search.task as usize >= tasks.len() {
        return true;
    }
    let higher = higher_order(set, graphs, order, search.task);
    let (_, deadline) = numbers(&tasks[search.task as usize], search.vertex);
    have_dominated_children(graphs, higher, deadline, search.states.as_slice())
}
