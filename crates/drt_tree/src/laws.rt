//! What holds of every forest.
ghost use Rattle.std.specs.Prelude.{◌≡◌, ℕ, ◌≤◌, Some};
ghost use Rattle.drt_steps.specs.Values.{value_at};
ghost use Rattle.drt_tree.specs.Tree.{Plain, IsForest, IsUnder, children, leaves, node_values_in};

/// What holds of every forest.
///
/// - There is at least one leaf under each node, and there are at least two under each pair.
/// - The function of a leaf is nowhere above that of a node over it.
///
/// The function does nothing: its contract is a theorem.
pub fn every_forest()
    ensures some { (f : Plain) (n : ℕ) → IsForest f → 1 ≤ leaves f n }
    ensures pairs { (f : Plain) (n l r : ℕ) → IsForest f → children f n ≡ Some (l, r) → 2 ≤ leaves f n }
    ensures below { (f : Plain) (leaf n t : ℕ) → IsForest f → IsUnder f leaf n → value_at (node_values_in f leaf) t ≤ value_at (node_values_in f n) t }
{}
