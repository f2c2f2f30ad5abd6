//! Whether the times at which items of proofs pass pass.
ghost use Rattle.std.specs.Prelude.{◌≡◌, ◌↔◌, All, IfOk, IsTrue};
ghost use Rattle.std.specs.List.{AllByRecursion};
ghost use Rattle.drt_claims.specs.Claims.{graphs_of};
ghost use Rattle.drt_claims.specs.Proofs.{HasPassingTimes, HasShape};
ghost use Rattle.drt_claims.specs.Ranges.{IsInRangeTree};
ghost use Rattle.drt_claims.specs.Trees.{HasShortWalks, IsTree, IsTreePerHigherTask, greatest_deadline};
ghost use Rattle.drt_claims.specs.Sorting.{sorted_graphs};
ghost use Rattle.drt_check_trees.specs.Order.{IsPriorityOrder};
ghost use Rattle.drt_check_proofs.specs.Points.{AreRooms, IsPoint, IsTimely, marks, points};
ghost use Rattle.drt_model.specs.Each.{Each};

use crate::queries::place_queries;
use crate::rooms::add_rooms;
use drt_check_trees::{greatest_deadline, tree_graph};
use drt_check_values::take_values;
use drt_claims::{ProofClaim, TreeClaim};
use drt_graph::Graphs;
use drt_model::{Memory, TaskSet};
use std::alloc::Global;

/// Whether each time at which an item of a proof passes passes: it is 1 or later, not past the deadline of the proof's vertex, and
/// the execution time of the vertex and what the combination asks for before it fit into it.
///
/// The values of each tree are asked for once, for all proofs, and none is kept. What is left of each time is kept between: 4 bytes
/// for each item that passes, beside 8 for its question, and 4 more while a tree is asked.
pub fn have_passing_times(
    alloc: Global,
    set: &TaskSet,
    graphs: &Graphs,
    order: &[u32],
    trees: &[TreeClaim],
    proofs: &[ProofClaim],
) -> Result<bool, Memory>
    requires graphs { graphs.now ≡ graphs_of set.now.tasks }
    requires order { IsPriorityOrder set.now.tasks order.now }
    requires per_task { IsTreePerHigherTask set.now.tasks trees.now }
    requires in_range { All IsInRangeTree trees.now }
    requires walks { Each (HasShortWalks (greatest_deadline set.now.tasks)) (sorted_graphs set.now.tasks trees.now) trees.now }
    requires trees { All IsTree trees.now }
    requires proofs { All (HasShape set.now.tasks trees.now) proofs.now }
    ensures { IfOk result (λ have. IsTrue have ↔ All (HasPassingTimes set.now.tasks (sorted_graphs set.now.tasks trees.now) trees.now) proofs.now) }
{
    let mut rooms = Vec::with_capacity(alloc, pass_count(proofs))?;
    if !add_rooms(set.tasks(), proofs, &mut rooms)? {
        return Ok(false);
    }
    take_places(
        alloc,
        set,
        graphs,
        order,
        trees,
        proofs,
        rooms.as_mut_slice(),
    )
}

// Room for the items that pass: a proof has one more of them than items that split.
fn pass_count(proofs: &[ProofClaim]) -> usize {
    let mut count: usize = 0;
    for proof in proofs {
        count = count.saturating_add(proof.items.as_slice().len() / 2 + 1);
    }
    count
}

// Takes what the proofs ask for at each place from what is left of their times, if it fits.
fn take_places(
    alloc: Global,
    set: &TaskSet,
    graphs: &Graphs,
    order: &[u32],
    trees: &[TreeClaim],
    proofs: &[ProofClaim],
    rooms: &mut [u32],
) -> Result<bool, Memory>
    requires graphs { graphs.now ≡ graphs_of set.now.tasks }
    requires order { IsPriorityOrder set.now.tasks order.now }
    requires per_task { IsTreePerHigherTask set.now.tasks trees.now }
    requires in_range { All IsInRangeTree trees.now }
    requires walks { Each (HasShortWalks (greatest_deadline set.now.tasks)) (sorted_graphs set.now.tasks trees.now) trees.now }
    requires trees { All IsTree trees.now }
    requires proofs { All (HasShape set.now.tasks trees.now) proofs.now }
    requires timely { AllByRecursion IsTimely (marks set.now.tasks proofs.now) }
    requires rooms { AreRooms (sorted_graphs set.now.tasks trees.now) trees.now 0 (points set.now.tasks trees.now proofs.now) rooms.old }
    ensures { IfOk result (λ have. IsTrue have ↔ AllByRecursion (IsPoint (sorted_graphs set.now.tasks trees.now) trees.now) (points set.now.tasks trees.now proofs.now)) }
{
    let tasks = set.tasks();
    let bound = greatest_deadline(set);
    let mut nodes = Vec::new(alloc);
    let mut queries = Vec::with_capacity(alloc, pass_count(proofs))?;
    'places: for i in 0..trees.len() {
        let tree = &trees[i];
        place_queries(tasks, tree, i, proofs, &mut nodes, &mut queries)?;
        let graph = tree_graph(set, graphs, order, trees, i);
        if !take_values(alloc, graph, tree, bound, queries.as_slice(), rooms)? {
            return Ok(false);
        }
    }
    Ok(true)
}
