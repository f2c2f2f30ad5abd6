//! What holds after any run.

ghost use Rattle.std.specs.Prelude.{◌≡◌, ℕ, ◌+◌, ◌*◌, ◌<◌, ◌≤◌, IsTrue, List, length, false};
ghost use Rattle.drt_model.specs.Digraph.{IsSoundGraph};
ghost use Rattle.drt_table.specs.Cover.{IsFront};
ghost use Rattle.drt_table.specs.Facts.{Facts, Order};
ghost use Rattle.drt_table.specs.Machine.{Setting, IsRun, replay, is_finished};
ghost use Rattle.drt_table.specs.Work.{IsBounded, IsDegree, IsShort, AreSlots, kept_count};

use drt_label::Label;

/// What holds after any run of the table machine, whoever made its steps and in whatever order.
///
/// - The nodes keep the facts as to labels, drops and offers, and as to the order in which they are taken.
/// - Where no node is pending and none is taken, the kept labels are exactly the non-dominated labels of in-range walks.
/// - Each label is added at most once, each node has at most g + 2 entries, where no vertex has more than g out-edges,
///   and the log has no others. A run that isn't finished has fewer than g + 2 entries for each kept node.
/// - No more nodes are kept than there are slots, where of two labels in one slot one dominates the other.
///
/// The function does nothing: its contract is a theorem.
pub fn over_every_interleaving<L: Label>()
    ensures facts { (t : Setting) (log : _) → IsSoundGraph t.graph → IsRun L.algebra t log → Facts L.algebra t (replay L.algebra t log).nodes }
    ensures order { (t : Setting) (log : _) → IsSoundGraph t.graph → IsRun L.algebra t log → Order L.algebra t (replay L.algebra t log).nodes }
    ensures front { (t : Setting) (log : _) → IsSoundGraph t.graph → IsTrue (L.algebra.takes_bound t.bound) → IsRun L.algebra t log → IsTrue (is_finished L.algebra t (replay L.algebra t log))
        → IsFront L.algebra t (replay L.algebra t log).nodes }
    ensures bounded { (t : Setting) (log : _) → IsSoundGraph t.graph → IsTrue (L.algebra.takes_bound t.bound) → IsRun L.algebra t log → IsBounded (replay L.algebra t log) }
    ensures short { (t : Setting) (log : _) (g : ℕ) → IsSoundGraph t.graph → IsTrue (L.algebra.takes_bound t.bound) → IsRun L.algebra t log → IsDegree L.algebra t g
        → IsShort L.algebra t g (replay L.algebra t log) }
    ensures slots { (t : Setting) (log : _) (slot : L → ℕ) (many : ℕ) → IsSoundGraph t.graph → IsTrue (L.algebra.takes_bound t.bound) → IsRun L.algebra t log
        → AreSlots L.algebra t slot many → kept_count (replay L.algebra t log).nodes ≤ many }
{}
