//! What holds after any run.

ghost use Rattle.std.specs.Prelude.{◌≡◌, ℕ, ◌+◌, ◌*◌, ◌≤◌, ◌<◌, IsTrue, List, length, slice_get, Some, None, false};
ghost use Rattle.drt_steps.specs.Time.{AreChosen};
ghost use Rattle.drt_tree.specs.Tree.{IsForest};
ghost use Rattle.drt_worklist.specs.Places.{first};
ghost use Rattle.drt_refine.specs.Below.{AreBelow, tuples};
ghost use Rattle.drt_refine.specs.Combination.{Combination, is_failed};
ghost use Rattle.drt_refine.specs.Eager.{IsEager};
ghost use Rattle.drt_refine.specs.Facts.{Facts, IsPassed, CanGoOn};
ghost use Rattle.drt_refine.specs.Machine.{FrontierSetting, IsRun, replay, is_finished, IsHopeless};
ghost use Rattle.drt_refine.specs.Settled.{AreSettled, IsPassedOrSplit};

use drt_tree::every_forest;

/// What holds after any run of the frontier machine, whoever made its steps and in whatever order.
///
/// - Each tuple of leaves below the roots is below a combination that isn't split, what a state says of its combination is
///   true, and each combination has a node of the forest for each root.
/// - Where it is finished, each tuple below the roots is below a combination that passed, and its time passes for the tuple.
/// - Where a combination has failed, its nodes are leaves and no time passes.
/// - Where it is neither finished nor has a combination failed, one more entry can follow under a budget that allows it.
/// - There are fewer than four entries for each tuple below the roots.
///
/// The function does nothing: its contract is a theorem.
pub fn over_every_interleaving()
    ensures facts { (t : FrontierSetting) (log : _) → IsForest t.forest → AreChosen t.deadline t.forest.pool t.roots → IsRun t log → Facts t (replay t log).combinations }
    ensures finished { (t : FrontierSetting) (log : _) → IsForest t.forest → AreChosen t.deadline t.forest.pool t.roots → IsRun t log → IsTrue (is_finished t (replay t log))
        → (tuple : List ℕ) → AreBelow t.forest tuple t.roots → IsPassed t (replay t log).combinations tuple }
    ensures failed { (t : FrontierSetting) (log : _) (id : ℕ) → IsForest t.forest → AreChosen t.deadline t.forest.pool t.roots → IsRun t log
        → first is_failed (replay t log).combinations ≡ Some id → (c : Combination) × (slice_get (replay t log).combinations id ≡ Some c) × IsHopeless t c.nodes }
    ensures longer { (t : FrontierSetting) (log : _) (budget : ℕ) → IsRun t log → is_finished t (replay t log) ≡ false → first is_failed (replay t log).combinations ≡ None
        → t.budget ≤ budget → length log < budget → CanGoOn t budget log }
    ensures short { (t : FrontierSetting) (log : _) → IsForest t.forest → IsRun t log → length log + 2 ≤ 4 * tuples t.forest t.roots }
{
    every_forest();
}

/// What holds besides after any eager run of the frontier machine, whoever made its steps and in whatever order.
///
/// - The first combination has the roots as its nodes, and each tuple below a combination is below the roots. A time that
///   passed is the least one that passes. Where a combination was split, no time passes for its nodes, the place is the
///   widest, and its halves come later and are those of no other combination.
/// - Where it is finished, each combination passed or was split.
///
/// The function does nothing: its contract is a theorem.
pub fn eager_settles()
    ensures settled { (t : FrontierSetting) (log : _) → IsRun t log → IsEager t log → AreSettled t (replay t log).combinations }
    ensures finished { (t : FrontierSetting) (log : _) → IsTrue (is_finished t (replay t log)) → (id : ℕ) (c : Combination) → slice_get (replay t log).combinations id ≡ Some c → IsPassedOrSplit c.state }
{}
