//! Whether claims have the shape of trees.
ghost use Rattle.std.specs.Prelude.{◌≡◌, ℕ, ◌+◌, ◌<◌, ◌≤◌, ◌↔◌, All, IfOk, IsTrue, false, true, length};
ghost use Rattle.drt_claims.specs.Trees.{IsTree, named};
ghost use Rattle.drt_check_trees.specs.Marks.{AreLower, IsLowerPair, marked, names};

use drt_claims::{Pair, TreeClaim};
use drt_model::Memory;
use std::alloc::Global;

/// Whether each claim is a tree: its pairs name lower nodes, and each node but the last is named once.
pub fn are_trees(alloc: Global, trees: &[TreeClaim]) -> Result<bool, Memory>
    ensures { IfOk result (λ are. IsTrue are ↔ All IsTree trees.now) }
{
    for i in 0..trees.len() {
        if !is_tree(alloc, &trees[i])? {
            return Ok(false);
        }
    }
    Ok(true)
}

// Whether one claim is a tree.
fn is_tree(alloc: Global, tree: &TreeClaim) -> Result<bool, Memory>
    ensures { IfOk result (λ is. IsTrue is ↔ IsTree tree.now) }
{
    let walks = tree.walks.as_slice().len();
    let pairs = tree.pairs.as_slice();
    if walks == 0 || pairs.len() != walks - 1 {
        return Ok(false);
    }
    let mut marks = no_marks(alloc, 2 * pairs.len())?;
    let slots = marks.as_mut_slice();
    if !name_all(slots, walks, pairs) {
        return Ok(false);
    }
    Ok(all_marked(slots))
}

// Marks of so many nodes, none of which is marked.
fn no_marks(alloc: Global, count: usize) -> Result<Vec<bool>, Memory>
    ensures { IfOk result (λ marks. (length marks.items ≡ count) × ((n : ℕ) → marked marks.items n ≡ 0)) }
{
    Ok(vec![in alloc; false; count]?)
}

// Marks the nodes that the pairs name, up to the first pair that names a node from its own on or one that is marked: whether there is
// none.
fn name_all(marks: &mut [bool], walks: usize, pairs: &[Pair]) -> bool
    requires room { length marks.old + 1 ≡ walks + length pairs.now }
    requires none { (n : ℕ) → n < length marks.old → marked marks.old n ≡ 0 }
    ensures kept { result ≡ true → AreLower walks pairs.now × ((n : ℕ) → n < length marks.old → marked marks.new n ≡ named pairs.now n) }
    ensures broken { result ≡ false → ¬ (AreLower walks pairs.now × ((n : ℕ) → n < length marks.old → named pairs.now n ≤ 1)) }
{
    for i in 0..pairs.len() {
        if !name_pair(marks, walks + i, pairs[i]) {
            return false;
        }
    }
    true
}

// Marks the two nodes that a pair names, which has the number `own`: whether they are below it and neither was marked.
fn name_pair(marks: &mut [bool], own: usize, pair: Pair) -> bool
    requires { own ≤ length marks.old }
    ensures kept { result ≡ true → IsLowerPair own pair × ((n : ℕ) → marked marks.new n ≡ marked marks.old n + names pair n) }
    ensures broken { result ≡ false → IsLowerPair own pair → (n : ℕ) × (n < own) × (2 ≤ marked marks.old n + names pair n) }
{
    let left = pair.left as usize;
    let right = pair.right as usize;
    if left >= own || right >= own {
        return false;
    }
    if left == right || marks[left] || marks[right] {
        return false;
    }
    marks[left] = true;
    marks[right] = true;
    true
}

// Whether all are marked.
fn all_marked(marks: &[bool]) -> bool
    ensures { IsTrue result ↔ ((n : ℕ) → n < length marks.now → marked marks.now n ≡ 1) }
{
    for mark in marks {
        if !*mark {
            return false;
        }
    }
    true
}
