//! One walk over the jumps of two functions, in order of time.
ghost use Rattle.std.specs.Prelude.{◌≡◌, ℕ, ◌+◌, ◌-◌, ◌<◌, ◌≤◌, ◌++◌, ◌∷◌, [], max, true, false, length, IfOk};
ghost use Rattle.drt_model.specs.Numbers.{most_work};
ghost use Rattle.drt_steps.specs.Jumps.{risen, total_rise, AreFrom, AreJumpsBefore, AreMost, IsBelowAt, IsNextJump, grown_jumps};

use crate::jump::Jump;
use std::alloc::{AllocError, Global};

// Whether the next of a function's own jumps comes no later than the next of the other's.
fn is_own_next(own: &[Jump], i: usize, other: &[Jump], j: usize) -> bool
    requires { length own.now ≤ i → j < length other.now }
    ensures own { result ≡ true → IsNextJump 0 own.now i other.now j }
    ensures other { result ≡ false → IsNextJump 1 other.now j own.now i }
{
    if i >= own.len() {
        return false;
    }
    if j >= other.len() {
        return true;
    }
    own[i].after <= other[j].after
}

/// Whether a function is at each time at least another one. A rise of the other counts at once, and a rise of its own
/// at the same time counts with it.
pub fn stays_above(own_base: u64, own: &[Jump], other_base: u64, other: &[Jump]) -> bool
    requires own_order { AreFrom 1 own.now }
    requires other_order { AreFrom 1 other.now }
    requires own_small { own_base + total_rise own.now ≤ most_work }
    requires other_small { other_base + total_rise other.now ≤ most_work }
    ensures above { result ≡ true → (t : ℕ) → other_base + risen other.now t ≤ own_base + risen own.now t }
    ensures below { result ≡ false → (s : ℕ) × IsBelowAt own_base own.now other_base other.now s }
{
    let mut high = own_base;
    let mut low = other_base;
    if high < low {
        return false;
    }
    let mut i = 0;
    let mut j = 0;
    while j < other.len() {
        if is_own_next(own, i, other, j) {
            high += own[i].rise;
            i += 1;
        } else {
            low += other[j].rise;
            if high < low {
                return false;
            }
            j += 1;
        }
    }
    true
}

// A jump at the end for a value that has grown, and none for one that hasn't.
fn grow(jumps: &mut Vec<Jump>, after: u64, before: u64, now: u64) -> Result<(), AllocError>
    ensures { IfOk result (λ _. jumps.new.items ≡ grown_jumps after before now jumps.old.items) }
{
    if before < now {
        jumps.push(Jump {
            after,
            rise: now - before,
        })?;
    }
    Ok(())
}

/// The jumps of the greater of two functions, above the greater base.
pub fn merged(
    alloc: Global,
    own_base: u64,
    own: &[Jump],
    other_base: u64,
    other: &[Jump],
) -> Result<Vec<Jump>, AllocError>
    requires own_order { AreFrom 1 own.now }
    requires other_order { AreFrom 1 other.now }
    requires own_small { own_base + total_rise own.now ≤ most_work }
    requires other_small { other_base + total_rise other.now ≤ most_work }
    ensures { IfOk result (λ v. AreMost own_base own.now other_base other.now v.items) }
{
    let mut jumps = Vec::new(alloc);
    let mut first = own_base;
    let mut second = other_base;
    let mut i = 0;
    let mut j = 0;
    while i < own.len() || j < other.len() {
        let before = first.max(second);
        if is_own_next(own, i, other, j) {
            first += own[i].rise;
            grow(&mut jumps, own[i].after, before, first.max(second))?;
            i += 1;
        } else {
            second += other[j].rise;
            grow(&mut jumps, other[j].after, before, first.max(second))?;
            j += 1;
        }
    }
    Ok(jumps)
}
