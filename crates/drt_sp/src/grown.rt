//! The trees of an analysis.
ghost use Rattle.drt_sp.specs.Grown.{AreProvedTrees};
ghost use Rattle.drt_sp.specs.Progress.{AreTreesComplete};

use crate::progress::Progress;
use drt_accepted::Accepted;
use drt_busy::times_decide;
use drt_model::Row;
use drt_tree::Forest;

/// The trees with which each vertex of a set was proved: the numbers of the tasks in order of priority, and the roots of the trees of
/// all but the last one, in this order.
#[derive(Drop)]
pub struct ProvedTrees {
    pub forest: Forest,
    pub roots: Row<u32>,
    pub order: Row<u32>,
}

impl ProvedTrees {
    /// The trees of an analysis that proved all vertices.
    pub(crate) fn of(set: &Accepted<'_>, order: Row<u32>, progress: Progress) -> ProvedTrees
        requires { AreTreesComplete set.now.tasks order progress.forest progress.roots.items progress.trees.items progress.proofs.items }
        ensures { AreProvedTrees set.now result }
    {
        times_decide();
        set.keep_limits();
        let Progress { forest, roots, .. } = progress;
        forest.show_sound();
        ProvedTrees {
            forest,
            roots: Row::from_vec(roots),
            order,
        }
    }
}
