//! The place at which a combination is split.

ghost use Rattle.std.specs.Prelude.{◌≡◌, ℕ, ◌≤◌, length};
ghost use Rattle.drt_refine.specs.Below.{AreNodes};
ghost use Rattle.drt_refine.specs.Eager.{IsSplitPlace};

use drt_tree::{Forest, every_forest};

/// The place at which a combination of these nodes is to be split: that whose node has the most leaves under it, the least
/// one in a tie, and `None` where each node is a leaf.
pub fn choose_place(forest: &Forest, nodes: &[u32]) -> Option<u32>
    requires nodes { AreNodes forest.now nodes.now }
    requires few { length nodes.now ≤ 31 }
    ensures { IsSplitPlace forest.now nodes.now result }
{
    forest.show_sound();
    every_forest();
    let mut widest = None;
    let mut most = 1;
    for i in 0..nodes.len() {
        let leaves = forest.leaves_under(nodes[i]);
        if leaves > most {
            widest = Some(i as u32);
            most = leaves;
        }
    }
    widest
}
