//! Whether walks are short.
ghost use Rattle.std.specs.Prelude.{◌≡◌, ◌↔◌, ◌≤◌, IsTrue};
ghost use Rattle.drt_model.specs.Numbers.{most_time};
ghost use Rattle.drt_claims.specs.Claims.{graphs_of};
ghost use Rattle.drt_claims.specs.Trees.{HasShortWalks, IsShortWalk, IsTreePerHigherTask, greatest_deadline};
ghost use Rattle.drt_claims.specs.Sorting.{sorted_graphs};
ghost use Rattle.drt_check_trees.specs.Order.{IsPriorityOrder};
ghost use Rattle.drt_model.specs.Each.{Each};

use crate::deadlines::greatest_deadline;
use crate::order::tree_graph;
use drt_claims::TreeClaim;
use drt_graph::{Graph, Graphs};
use drt_model::TaskSet;

/// Whether the walks of all trees are walks of their graphs that span less than the greatest deadline. It takes no memory.
pub fn have_short_walks(set: &TaskSet, graphs: &Graphs, order: &[u32], trees: &[TreeClaim]) -> bool
    requires graphs { graphs.now ≡ graphs_of set.now.tasks }
    requires order { IsPriorityOrder set.now.tasks order.now }
    requires per_task { IsTreePerHigherTask set.now.tasks trees.now }
    ensures { IsTrue result ↔ Each (HasShortWalks (greatest_deadline set.now.tasks)) (sorted_graphs set.now.tasks trees.now) trees.now }
{
    let bound = greatest_deadline(set);
    for i in 0..trees.len() {
        let graph = tree_graph(set, graphs, order, trees, i);
        if !has_short_walks(graph, bound, &trees[i]) {
            return false;
        }
    }
    true
}

// Whether the walks of the tree are walks of the graph that span less than the bound.
fn has_short_walks(graph: &Graph, bound: u32, tree: &TreeClaim) -> bool
    requires from { 1 ≤ bound }
    requires to { bound ≤ most_time }
    ensures { IsTrue result ↔ HasShortWalks bound graph.now tree.now }
{
    let walks = tree.walks.as_slice();
    for i in 0..walks.len() {
        if !is_short(graph, bound, walks[i].as_slice()) {
            return false;
        }
    }
    true
}

// Whether the list is a walk of the graph that spans less than the bound.
fn is_short(graph: &Graph, bound: u32, walk: &[u32]) -> bool
    requires from { 1 ≤ bound }
    requires to { bound ≤ most_time }
    ensures { IsTrue result ↔ IsShortWalk bound graph.now walk.now }
{
    if walk.is_empty() || walk[0] >= graph.vertex_count() {
        return false;
    }
    let mut at = walk[0];
    let mut span = 0;
    for i in 1..walk.len() {
        match graph.separation(at, walk[i]) {
            Some(gap) => {
                if gap >= bound - span {
                    return false;
                }
                span += gap;
                at = walk[i];
            }
            None => return false,
        }
    }
    true
}
