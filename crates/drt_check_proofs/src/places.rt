//! A proof seen at one place, as a stack of nodes of one tree. The last of the nodes is the topmost combination's.
ghost use Rattle.std.specs.Prelude.{◌≡◌, IfOk, Some, None, reverse, if◌then◌else◌, [], ◌∷◌};
ghost use Rattle.drt_claims.specs.Proofs.{node_parts};
ghost use Rattle.drt_claims.specs.Trees.{root};
ghost use Rattle.drt_check_proofs.specs.Places.{after_at, halves_at};

use drt_claims::{Item, TreeClaim};
use drt_model::Memory;
use std::alloc::AllocError;

// The two parts of a node of the tree, if it is a pair.
fn parts(tree: &TreeClaim, node: u32) -> Option<(u32, u32)>
    ensures { result ≡ node_parts tree.now node }
{
    let walks = tree.walks.as_slice().len();
    if (node as usize) < walks {
        return None;
    }
    match tree.pairs.as_slice().get(node as usize - walks) {
        Some(pair) => Some((pair.left, pair.right)),
        None => None,
    }
}

// The nodes at a place of the two halves of a combination that has this node there and is split.
fn halves(tree: &TreeClaim, i: usize, place: u32, node: u32) -> Option<(u32, u32)>
    ensures { result ≡ halves_at tree.now i place node }
{
    if place as usize == i {
        parts(tree, node)
    } else {
        Some((node, node))
    }
}

/// Takes an item at a place, if it can be taken there.
pub(crate) fn take(
    tree: &TreeClaim,
    i: usize,
    item: Item,
    nodes: &mut Vec<u32>,
) -> Result<bool, Memory>
    ensures { IfOk result (λ taken. after_at tree.now i item (reverse nodes.old.items) ≡ (if taken then Some (reverse nodes.new.items) else None)) }
{
    let Some(top) = nodes.pop() else {
        return Ok(false);
    };
    let Item::Split(place) = item else {
        return Ok(true);
    };
    let Some((left, right)) = halves(tree, i, place, top) else {
        return Ok(false);
    };
    nodes.push(right)?;
    nodes.push(left)?;
    Ok(true)
}

/// Leaves the root of the tree alone in the stack. A tree whose root has no number of 32 bits fits in no memory.
pub(crate) fn begin(tree: &TreeClaim, nodes: &mut Vec<u32>) -> Result<(), Memory>
    ensures { IfOk result (λ u. nodes.new.items ≡ root tree.now ∷ []) }
{
    nodes.clear();
    let count = tree
        .walks
        .as_slice()
        .len()
        .saturating_add(tree.pairs.as_slice().len());
    match u32::try_from(count.saturating_sub(1)) {
        Ok(root) => nodes.push(root)?,
        Err(_) => return Err(AllocError),
    }
    Ok(())
}
