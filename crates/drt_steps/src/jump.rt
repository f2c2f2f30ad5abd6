//! The places where a function rises, in order of time.
ghost use Rattle.std.specs.Prelude.{◌≡◌, ℕ, ◌≤◌, ◌<◌, ◌++◌, ◌∷◌, true, IfOk};
ghost use Rattle.drt_steps.specs.Jumps.{risen, up_to, past, AreFrom, IsPlaceReached, IsJumpPlace};

use std::alloc::{AllocError, Global};

/// A rise of the value at all times later than `after`.
#[derive(Clone, Copy)]
pub struct Jump {
    pub after: u64,
    pub rise: u64,
}

/// The place of the time `t` among the jumps, which is the number of those before it, by halving.
pub fn place_of(jumps: &[Jump], t: u64) -> usize
    requires { AreFrom 1 jumps.now }
    ensures { IsJumpPlace jumps.now t result }
{
    jumps.partition_point(|jump| jump.after < t)
}

/// Whether the place is one of the jumps or their end, and the jump in front of it comes before the time `t`.
pub fn is_reached(jumps: &[Jump], place: usize, t: u64) -> bool
    ensures { result ≡ true → IsPlaceReached jumps.now t place }
{
    if place == 0 {
        return true;
    }
    if place > jumps.len() {
        return false;
    }
    jumps[place - 1].after < t
}

/// The place of the time `t`, by steps from the place of a time that is no later. From any other number it starts at
/// the first jump.
pub fn place_from(jumps: &[Jump], start: usize, t: u64) -> usize
    ensures { IsJumpPlace jumps.now t result }
{
    let mut place = 0;
    if is_reached(jumps, start, t) {
        place = start;
    }
    while place < jumps.len() {
        if jumps[place].after >= t {
            return place;
        }
        place += 1;
    }
    place
}

/// A time before `t`, or 0, since when the rises are those before `t`.
pub fn level_since(jumps: &[Jump], t: u64) -> u64
    requires from { 1 ≤ t }
    requires order { AreFrom 1 jumps.now }
    ensures before { result < t }
    ensures level { (s : ℕ) → result < s → s ≤ t → risen jumps.now s ≡ risen jumps.now t }
{
    let place = place_of(jumps, t);
    if place == 0 {
        return 0;
    }
    jumps[place - 1].after
}

/// The jumps with one more in its place, behind those of its time.
pub fn placed(alloc: Global, jumps: &[Jump], new: Jump) -> Result<Vec<Jump>, AllocError>
    ensures { IfOk result (λ v. v.items ≡ up_to new.after jumps.now ++ new ∷ past new.after jumps.now) }
{
    let mut all = Vec::with_capacity(alloc, jumps.len() + 1)?;
    for jump in jumps {
        if jump.after <= new.after {
            all.push(*jump)?;
        }
    }
    all.push(new)?;
    for jump in jumps {
        if jump.after > new.after {
            all.push(*jump)?;
        }
    }
    Ok(all)
}
