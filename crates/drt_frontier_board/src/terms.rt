//! What a frontier is started with.

use drt_refine::Frontier;
use drt_tree::Forest;
use std::marker::Model;
use std::snapshot::Snapshot;

/// The forest, the roots, the wcet, the deadline and the budget of a frontier, as contracts see them. They take no bytes.
#[derive(Drop)]
pub struct Terms {
    forest: Snapshot<Forest>,
    opening: Snapshot<Frontier>,
}

impl Model for Terms {
    ghost use Rattle.drt_refine.specs.Machine.{FrontierSetting};
    ghost use Rattle.drt_refine.specs.View.{setting_of};

    ghost Value = { FrontierSetting };

    ghost view = { λ t. setting_of t.forest.value t.opening.value };
}

impl Terms {
    ghost use Rattle.std.specs.Prelude.{◌≡◌};
    ghost use Rattle.drt_refine.specs.View.{setting_of};

    /// Those of a frontier over the forest.
    pub fn new(forest: &Forest, opening: &Frontier) -> Terms
        ensures { result ≡ setting_of forest.now opening.now }
    {
        Terms {
            forest: Snapshot::of(forest),
            opening: Snapshot::of(opening),
        }
    }
}
