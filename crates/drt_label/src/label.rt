//! The trait that the two kinds of label share.

ghost use Rattle.std.specs.Prelude.{◌≡◌, ℕ, IfOk, IsTrue};
ghost use Rattle.drt_label.specs.Algebra.{Algebra, Laws};
ghost use Rattle.drt_model.specs.Limits.{IsTime};

use std::alloc::{AllocError as Memory, Global};

/// How many samples a label has.
pub const SAMPLES: usize = 16;

/// The label of a walk: its last vertex, the sum of its separations (the offset, in ticks) and the work that its
/// jobs ask for, as one kind of analysis sees that work.
///
/// `algebra` says what the functions give, as functions on values. `laws` says what is relied on: dominance is an
/// order, and a walk goes on from a label that dominates another one at least as well.
///
/// Dominance of walks by their labels is that of Stigge, Ekberg, Guan and Yi, "The Digraph Real-Time Task Model"
/// (RTAS 2011).
pub trait Label: Sized + Send + Sync + Drop {
    /// What a second handle of a label takes beside the label: nothing for a kind that is copied.
    type Spare: Send + Sync + Drop;

    /// How labels are made, read and compared, as functions on values.
    ghost algebra: { Algebra Self };

    /// The spare is one of the label.
    ghost is_spare: { Self → Self.Spare → Type 0 };

    /// The label of the walk of one vertex: its number, its execution time in ticks, and the bound of the table.
    /// Its offset is 0.
    fn opening(alloc: Global, number: u32, wcet: u32, bound: u64) -> Result<Self, Memory>
        requires wcet { IsTime wcet }
        requires bound { IsTrue (algebra.takes_bound bound) }
        ensures { IfOk result (λ label. label ≡ algebra.opening number wcet bound) };

    /// The label of the walk that goes on by one edge, with the edge's separation, its target and the target's
    /// execution time.
    fn extend(&self, alloc: Global, sep: u32, target: u32, wcet: u32) -> Result<Self, Memory>
        requires extendable { IsTrue (algebra.is_extendable self.now) }
        requires sep { IsTime sep }
        requires wcet { IsTime wcet }
        ensures { IfOk result (λ label. label ≡ algebra.extend self.now sep target wcet) };

    /// A spare of the label. It is made where memory may be taken, before the label is offered.
    fn make_spare(&self, alloc: Global) -> Result<Self::Spare, Memory>
        ensures { IfOk result (λ spare. is_spare self.now spare) };

    /// The label once more, made of a spare of it. It takes no memory.
    fn hand_out(&self, spare: Self::Spare) -> Self
        requires { is_spare self.now spare }
        ensures { result ≡ self.now };

    /// The last vertex of the walk.
    fn vertex(&self) -> u32
        ensures { result ≡ algebra.vertex self.now };

    /// The sum of the walk's separations, in ticks.
    fn offset(&self) -> u64
        ensures { result ≡ algebra.offset self.now };

    /// Whether a table of that bound looks at the label, whose last vertex has that deadline.
    fn in_range(&self, deadline: u32, bound: u64) -> bool
        requires deadline { IsTime deadline }
        requires of { IsTrue (algebra.is_of self.now bound) }
        ensures { result ≡ algebra.in_range self.now deadline bound };

    /// Whether each demand that the other walk can make is one that this walk makes as soon and as large. Both
    /// labels are of one bound.
    fn dominates(&self, other: &Self) -> bool
        requires { (bound : ℕ) × IsTrue (algebra.is_of self.now bound) × IsTrue (algebra.is_of other.now bound) }
        ensures { result ≡ algebra.dominates self.now other.now };

    /// Samples of what the walk asks for. Of two labels of one bound, one dominates the other only where none of its samples is
    /// less, so most labels that don't dominate one are told by a look at a few small numbers.
    fn samples(&self) -> [u16; SAMPLES]
        ensures { result ≡ algebra.samples self.now };

    /// Whether dominance is a chain: of three labels of one vertex in ascending order of offset, the first dominates the
    /// last only where it dominates the middle one, or the middle one dominates the last.
    fn is_chain() -> bool
        ensures { result ≡ algebra.is_chain };

    /// What each kind of label keeps.
    ghost laws: { Laws algebra };
}
