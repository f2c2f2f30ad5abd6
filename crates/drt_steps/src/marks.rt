//! Values of a function that are ready, so that most pairs of functions are told apart by them.
ghost use Rattle.std.specs.Prelude.{◌≡◌, ℕ, List, ◌+◌, ◌/◌, ◌<◌, ◌≤◌, cond, nat_lt, min, length, slice_index};
ghost use Rattle.drt_model.specs.Numbers.{most_work};
ghost use Rattle.drt_steps.specs.Jumps.{values, IsFunctionKept, AreMarks};
ghost use Rattle.drt_steps.specs.Samples.{coarse};
ghost use Rattle.drt_steps.specs.Values.{raise};

use crate::jump::{Jump, place_of};
use crate::level::level_after;

/// How many there are.
pub(crate) const MARKS: usize = 16;

/// The values of a function at its bound and at fifteen times before it, each a sixteenth of the bound before the last.
pub(crate) fn marks(bound: u64, base: u64, jumps: &[Jump], levels: &[u64]) -> [u64; MARKS]
    requires { IsFunctionKept bound base jumps.now levels.now }
    ensures { AreMarks bound (values bound base jumps.now) result }
{
    let mut marks = [0; MARKS];
    for k in 0..MARKS {
        let t = bound - k as u64 * (bound / MARKS as u64);
        marks[k] = level_after(base, levels, place_of(jumps, t));
    }
    marks
}

// The value at the time `t`, of a function that had `value` there and has `work` more at each time later than `offset`.
fn raised_value(t: u64, value: u64, offset: u64, work: u64) -> u64
    requires value { value ≤ most_work }
    requires work { work ≤ most_work }
    ensures { result ≡ value + cond (nat_lt offset t) work 0 }
{
    if offset < t { value + work } else { value }
}

/// The marks of a function with `work` more at each time later than `offset`, out of those of the function before.
pub(crate) fn raised_marks(bound: u64, marks: &[u64; MARKS], offset: u64, work: u64) -> [u64; MARKS]
    requires bound { 1 ≤ bound }
    requires marks { (k : ℕ) → k < 16 → slice_index marks.now k ≤ most_work }
    requires work { work ≤ most_work }
    ensures { (xs : List ℕ) → bound ≡ length xs → AreMarks bound xs marks.now → AreMarks bound (raise offset work xs) result }
{
    let mut raised = [0; MARKS];
    for k in 0..MARKS {
        let t = bound - k as u64 * (bound / MARKS as u64);
        raised[k] = raised_value(t, marks[k], offset, work);
    }
    raised
}

// A value in units, or the greatest number of 16 bits where it is greater.
fn in_units(value: u64, unit: u64) -> u16
    requires { 1 ≤ unit }
    ensures { result ≡ min 65535 (value / unit) }
{
    (value / unit).min(65535) as u16
}

/// The marks of a function with that bound as samples.
pub(crate) fn samples(bound: u64, marks: &[u64; MARKS]) -> [u16; MARKS]
    ensures long { length result ≡ 16 }
    ensures are { (k : ℕ) → k < 16 → slice_index result k ≡ coarse bound (slice_index marks.now k) }
{
    let unit = bound / 32768 + 1;
    let mut samples = [0; MARKS];
    for k in 0..MARKS {
        samples[k] = in_units(marks[k], unit);
    }
    samples
}
