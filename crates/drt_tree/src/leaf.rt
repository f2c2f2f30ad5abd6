//! The leaves of a tree, and their order.
ghost use Rattle.std.specs.Prelude.{◌≡◌, ℕ, ◌≤◌, length, IfOk};
ghost use Rattle.std.specs.Result.{OnOk};
ghost use Rattle.std.specs.Ordering.{is_lt};
ghost use Rattle.std.specs.List.Sorted.{IsPermutation, IsSortedBy};
ghost use Rattle.drt_tree.specs.Leaf.{leaf_cmp, is_leaf_before, leaves_of};

use drt_model::Row;
use drt_request::RequestLabel;
use drt_steps::Steps;
use std::alloc::{AllocError as Memory, Global};
use std::cmp::Ordering;
use std::sync::Arc;

/// A leaf to be: a request function and the walk that it is from.
#[derive(Drop)]
pub struct Leaf {
    pub steps: Steps,
    pub walk: Row<u32>,
}

impl Leaf {
    // The order of two leaves: by their functions from the bound down, and then by their walks.
    fn compare(&self, other: &Leaf) -> Ordering
        ensures { result ≡ leaf_cmp self.now other.now }
    {
        if self.steps.bound() != other.steps.bound() {
            return self.steps.bound().cmp(&other.steps.bound());
        }
        match self.steps.compare_from_end(&other.steps) {
            Ordering::Equal => self.walk.as_slice().cmp(&other.walk.as_slice()),
            order => order,
        }
    }
}

/// The leaves of some labels and their walks, in memory of their own.
pub fn gather(
    alloc: Global,
    labels: &[Arc<RequestLabel>],
    walks: &[Row<u32>],
) -> Result<Vec<Leaf>, Memory>
    requires { length labels.now ≡ length walks.now }
    ensures { IfOk result (λ v. v.items ≡ leaves_of labels.now walks.now) }
{
    let mut leaves = Vec::new(alloc);
    for i in 0..labels.len() {
        let label = &labels[i];
        let walk = &walks[i];
        let steps = label.steps().copy(alloc)?;
        let walk = Row::from_vec(Vec::from_slice(alloc, walk.as_slice())?);
        leaves.push(Leaf { steps, walk })?;
    }
    Ok(leaves)
}

/// Puts the leaves in their order: by their functions from the bound down, and then by their walks.
pub fn sort_leaves(leaves: &mut Vec<Leaf>) -> Result<(), Memory>
    ensures permutation { IsPermutation leaves.old.items leaves.new.items }
    ensures sorted { OnOk result (IsSortedBy is_leaf_before leaves.new.items) }
{
    leaves.sort_by(
        |a: &Leaf, b: &Leaf| -> Ordering
            ensures { result ≡ leaf_cmp a.now b.now }
        { a.compare(b) },
    )
}
