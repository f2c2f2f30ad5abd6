//! A function that never falls.
ghost use Rattle.std.specs.Prelude.{◌≡◌, ℕ, ◌+◌, ◌≤◌, ◌<◌, true, false, length, replicate, reverse, IfOk};
ghost use Rattle.std.specs.Ordering.{nat_cmp};
ghost use Rattle.std.specs.Cmp.Lexicographic.{slice_cmp};
ghost use Rattle.drt_model.specs.Numbers.{most_time, most_work};
ghost use Rattle.drt_steps.specs.Values.{raise, value_at, covers, max_of};
ghost use Rattle.drt_steps.specs.Jumps.{values, AreKept, IsFunctionKept, AreMarks};
ghost use Rattle.drt_steps.specs.Samples.{samples_of};

use crate::jump::{Jump, is_reached, level_since, place_from, place_of, placed};
use crate::level::{level_after, levels};
use crate::marks::{MARKS, marks, raised_marks, samples};
use crate::merge::{merged, stays_above};
use crate::rises::{Rises, jumps_of, levels_of, one_more};
use std::alloc::{AllocError, Global};
use std::cmp::Ordering;
use std::marker::Model;
use std::sync::Arc;

/// A function on the times 1 to its bound that never falls: the work, in ticks, that is asked for before a time.
/// It takes memory for each of its rises, and none for a tick. Its copies share that memory.
#[derive(Drop)]
pub struct Steps {
    bound: u64,
    base: u64,
    rises: Arc<Rises>,
    marks: [u64; MARKS],
}

impl Model for Steps {
    ghost use Rattle.std.specs.Prelude.{List, ℕ};
    ghost use Rattle.drt_steps.specs.Jumps.{values, IsFunctionKept, AreMarks};

    ghost Value = { List ℕ };

    ghost view = { λ s. values s.bound s.base s.rises.value.jumps.items };

    ghost invariant = { λ s. IsFunctionKept s.bound s.base s.rises.value.jumps.items s.rises.value.levels.items × AreMarks s.bound (values s.bound s.base s.rises.value.jumps.items) s.marks };
}

impl Steps {
    // The function with this base and these jumps.
    fn from_jumps(
        alloc: Global,
        bound: u64,
        base: u64,
        jumps: Vec<Jump>,
    ) -> Result<Steps, AllocError>
        requires { AreKept bound base jumps.items }
        ensures { IfOk result (λ s. s ≡ values bound base jumps.items) }
    {
        let levels = levels(alloc, base, &jumps)?;
        let marks = marks(bound, base, &jumps, &levels);
        Steps::from_rises(alloc, bound, base, Rises { jumps, levels }, marks)
    }

    // The function with this base, these jumps and these marks.
    fn from_marked(
        alloc: Global,
        bound: u64,
        base: u64,
        jumps: Vec<Jump>,
        marks: [u64; MARKS],
    ) -> Result<Steps, AllocError>
        requires kept { AreKept bound base jumps.items }
        requires marks { AreMarks bound (values bound base jumps.items) marks }
        ensures { IfOk result (λ s. s ≡ values bound base jumps.items) }
    {
        let levels = levels(alloc, base, &jumps)?;
        Steps::from_rises(alloc, bound, base, Rises { jumps, levels }, marks)
    }

    // The function with this base, these rises and these marks.
    fn from_rises(
        alloc: Global,
        bound: u64,
        base: u64,
        rises: Rises,
        marks: [u64; MARKS],
    ) -> Result<Steps, AllocError>
        requires kept { IsFunctionKept bound base rises.jumps.items rises.levels.items }
        requires marks { AreMarks bound (values bound base rises.jumps.items) marks }
        ensures { IfOk result (λ s. s ≡ values bound base rises.jumps.items) }
    {
        Ok(Steps {
            bound,
            base,
            rises: Arc::new(alloc, rises)?,
            marks,
        })
    }

    /// The function that has one value at each of 1 to `bound`.
    pub fn flat(alloc: Global, bound: u64, value: u64) -> Result<Steps, AllocError>
        requires from { 1 ≤ bound }
        requires to { bound ≤ most_time }
        requires value { value ≤ most_work }
        ensures { IfOk result (λ s. s ≡ replicate bound value) }
    {
        Steps::from_jumps(alloc, bound, value, Vec::new(alloc))
    }

    /// An equal function, which shares the memory of this one's rises.
    pub fn copy(&self, _alloc: Global) -> Result<Steps, AllocError>
        ensures { IfOk result (λ s. s ≡ self.now) }
    {
        Ok(Steps {
            bound: self.bound,
            base: self.base,
            rises: Arc::try_clone(&self.rises)?,
            marks: self.marks,
        })
    }

    /// The greatest time that the function has a value at.
    pub fn bound(&self) -> u64
        ensures value { result ≡ length self.now }
        ensures from { 1 ≤ result }
        ensures to { result ≤ most_time }
    {
        self.bound
    }

    /// The value at the time `t`.
    pub fn at(&self, t: u64) -> u64
        requires from { 1 ≤ t }
        requires to { t ≤ length self.now }
        ensures value { result ≡ value_at self.now t }
        ensures small { result ≤ most_work }
        ensures rises { (s : ℕ) → t ≤ s → s ≤ length self.now → result ≤ value_at self.now s }
    {
        level_after(
            self.base,
            levels_of(&self.rises),
            place_of(jumps_of(&self.rises), t),
        )
    }

    /// The value at the time `t`, by steps from where an earlier call left `place`. Over calls at times that grow, all
    /// steps together are no more than there are rises. The value is the same at any `place`.
    pub(crate) fn at_from(&self, place: &mut usize, t: u64) -> u64
        requires from { 1 ≤ t }
        requires to { t ≤ length self.now }
        ensures value { result ≡ value_at self.now t }
        ensures small { result ≤ most_work }
        ensures rises { (s : ℕ) → t ≤ s → s ≤ length self.now → result ≤ value_at self.now s }
    {
        let jumps = jumps_of(&self.rises);
        let levels = levels_of(&self.rises);
        *place = place_from(jumps, *place, t);
        level_after(self.base, levels, *place)
    }

    /// The function with `work` more at each time later than `offset`.
    pub fn raise_after(&self, alloc: Global, offset: u64, work: u64) -> Result<Steps, AllocError>
        requires { (t : ℕ) → offset < t → t ≤ length self.now → value_at self.now t + work ≤ most_work }
        ensures { IfOk result (λ s. s ≡ raise offset work self.now) }
    {
        if offset >= self.bound {
            return self.copy(alloc);
        }
        let own = jumps_of(&self.rises);
        let marks = raised_marks(self.bound, &self.marks, offset, work);
        if offset == 0 {
            let jumps = Vec::from_slice(alloc, own)?;
            return Steps::from_marked(alloc, self.bound, self.base + work, jumps, marks);
        }
        let new = Jump {
            after: offset,
            rise: work,
        };
        // A walk goes on in time, so the new jump is mostly the last one.
        if is_reached(own, own.len(), offset + 1) {
            let rises = one_more(alloc, self.base, &self.rises, new)?;
            return Steps::from_rises(alloc, self.bound, self.base, rises, marks);
        }
        let jumps = placed(alloc, own, new)?;
        Steps::from_marked(alloc, self.bound, self.base, jumps, marks)
    }

    /// Samples of the function, of 16 bits each: its values at its bound and at fifteen times before it, each a sixteenth
    /// of the bound before the last, as multiples of a unit that the bound gives, the greatest number where they are
    /// greater. Of two functions of one bound, where one covers the other none of its samples is less.
    pub fn samples(&self) -> [u16; 16]
        ensures { result ≡ samples_of self.now }
    {
        samples(self.bound, &self.marks)
    }

    /// Whether this function is at each time at least the other one. A few values settle most pairs; only where they don't
    /// is each rise looked at.
    pub fn covers(&self, other: &Steps) -> bool
        requires { length self.now ≡ length other.now }
        ensures { result ≡ covers self.now other.now }
    {
        if self.is_seen_below(other) {
            return false;
        }
        stays_above(
            self.base,
            jumps_of(&self.rises),
            other.base,
            jumps_of(&other.rises),
        )
    }

    // Whether the function's value is less at one of the times whose values are ready.
    fn is_seen_below(&self, other: &Steps) -> bool
        requires { length self.now ≡ length other.now }
        ensures { result ≡ true → covers self.now other.now ≡ false }
    {
        'marks: for k in 0..MARKS {
            if self.marks[k] < other.marks[k] {
                return true;
            }
        }
        false
    }

    /// The function whose value at each time is the greater one of two. Where one of them covers the other, it shares the
    /// memory of that one's rises.
    pub fn max_of(alloc: Global, a: &Steps, b: &Steps) -> Result<Steps, AllocError>
        requires { length a.now ≡ length b.now }
        ensures { IfOk result (λ s. s ≡ max_of a.now b.now) }
    {
        if a.covers(b) {
            return a.copy(alloc);
        }
        if b.covers(a) {
            return b.copy(alloc);
        }
        let own = jumps_of(&a.rises);
        let other = jumps_of(&b.rises);
        let jumps = merged(alloc, a.base, own, b.base, other)?;
        Steps::from_jumps(alloc, a.bound, a.base.max(b.base), jumps)
    }

    /// The order of two functions by their values at the bound, and where those are equal by the values at the time
    /// before, and so on down to 1. It looks only at times where one of them rises.
    pub fn compare_from_end(&self, other: &Steps) -> Ordering
        requires { length self.now ≡ length other.now }
        ensures { result ≡ slice_cmp nat_cmp (reverse self.now) (reverse other.now) }
    {
        let mut t = self.bound();
        while t > 0 {
            let own = self.at(t);
            let others = other.at(t);
            if own != others {
                return own.cmp(&others);
            }
            t = self.level_since(t).max(other.level_since(t));
        }
        Ordering::Equal
    }

    // A time before `t`, or 0, since when the value is that at `t`.
    fn level_since(&self, t: u64) -> u64
        requires from { 1 ≤ t }
        requires to { t ≤ length self.now }
        ensures before { result < t }
        ensures level { (s : ℕ) → result < s → s ≤ t → value_at self.now s ≡ value_at self.now t }
    {
        level_since(jumps_of(&self.rises), t)
    }
}
