//! Whether proofs have the right shape.
ghost use Rattle.std.specs.Prelude.{◌≡◌, ◌<◌, ◌≤◌, ◌^◌, ◌↔◌, All, IfOk, IsTrue, length, nat_lt};
ghost use Rattle.std.specs.List.{count_by};
ghost use Rattle.drt_claims.specs.Proofs.{HasShape, IsProofPerVertex};
ghost use Rattle.drt_claims.specs.Trees.{IsTree, IsTreePerHigherTask, higher_count};
ghost use Rattle.drt_check_proofs.specs.Places.{depth_after};
ghost use Rattle.drt_check_proofs.specs.Shapes.{CanTakeAt, CanTakeBelow, IsWholeProof};

use crate::places::{begin, take};
use drt_claims::{Item, ProofClaim, TreeClaim};
use drt_model::{Memory, Task, TaskSet};
use std::alloc::Global;

/// Whether each proof has the right shape.
pub fn have_shapes(
    alloc: Global,
    set: &TaskSet,
    trees: &[TreeClaim],
    proofs: &[ProofClaim],
) -> Result<bool, Memory>
    ensures { IfOk result (λ have. IsTrue have ↔ All (HasShape set.now.tasks trees.now) proofs.now) }
{
    let tasks = set.tasks();
    let mut nodes = Vec::new(alloc);
    'proofs: for proof in proofs {
        if !has_shape(tasks, trees, proof, &mut nodes)? {
            return Ok(false);
        }
    }
    Ok(true)
}

fn has_shape(
    tasks: &[Task],
    trees: &[TreeClaim],
    proof: &ProofClaim,
    nodes: &mut Vec<u32>,
) -> Result<bool, Memory>
    ensures { IfOk result (λ has. IsTrue has ↔ HasShape tasks.now trees.now proof.now) }
{
    if proof.task as usize >= tasks.len() {
        return Ok(true);
    }
    let task = &tasks[proof.task as usize];
    let width = higher_count(tasks, task.priority).min(trees.len());
    let items = proof.items.as_slice();
    Ok(is_closed(width, items) && can_take_below(trees, width, items, nodes)?)
}

/// How many tasks have a higher priority than the number stands for.
pub(crate) fn higher_count(tasks: &[Task], priority: u32) -> usize
    ensures { result ≡ higher_count tasks.now priority }
{
    tasks.iter().filter(|t| t.priority < priority).count()
}

// Whether the items can be taken at each of the first places.
fn can_take_below(
    trees: &[TreeClaim],
    width: usize,
    items: &[Item],
    nodes: &mut Vec<u32>,
) -> Result<bool, Memory>
    requires { width ≤ length trees.now }
    ensures { IfOk result (λ can. IsTrue can ↔ CanTakeBelow trees.now width items.now) }
{
    'places: for i in 0..width {
        if !can_take(&trees[i], i, items, nodes)? {
            return Ok(false);
        }
    }
    Ok(true)
}

// Whether the items can be taken at the place, from the root of the tree on.
fn can_take(
    tree: &TreeClaim,
    i: usize,
    items: &[Item],
    nodes: &mut Vec<u32>,
) -> Result<bool, Memory>
    ensures { IfOk result (λ can. IsTrue can ↔ CanTakeAt tree.now i items.now) }
{
    begin(tree, nodes)?;
    'items: for item in items {
        if !take(tree, i, *item, nodes)? {
            return Ok(false);
        }
    }
    Ok(true)
}

// Whether the items end all combinations that they begin with or make, and no more, and split at places below the width.
fn is_closed(width: usize, items: &[Item]) -> bool
    ensures { IsTrue result ↔ IsWholeProof width items.now }
{
    let mut depth = 1;
    'items: for item in items {
        match depth_after(width, *item, depth) {
            Some(next) => depth = next,
            None => return false,
        }
    }
    depth == 0
}

// How many combinations there are after an item, if it can be taken.
fn depth_after(width: usize, item: Item, depth: usize) -> Option<usize>
    requires { depth ≤ 2 ^ 63 }
    ensures { result ≡ depth_after width item depth }
{
    if depth == 0 {
        return None;
    }
    match item {
        Item::Pass(_) => Some(depth - 1),
        Item::Split(place) if (place as usize) < width => Some(depth + 1),
        Item::Split(_) => None,
    }
}
