//! Whether there are as many trees as there should be.
ghost use Rattle.std.specs.Prelude.{◌↔◌, IsTrue};
ghost use Rattle.drt_claims.specs.Trees.{IsTreePerHigherTask};

use drt_claims::TreeClaim;
use drt_model::TaskSet;

/// Whether there is one tree fewer than tasks.
pub fn is_tree_per_higher_task(set: &TaskSet, trees: &[TreeClaim]) -> bool
    ensures { IsTrue result ↔ IsTreePerHigherTask set.now.tasks trees.now }
{
    trees.len() == set.tasks().len() - 1
}
