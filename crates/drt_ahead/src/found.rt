//! Answers at their places.
ghost use Rattle.std.specs.Prelude.{◌≡◌, ◌≢◌, ℕ, All, IfOk, None, Some, length, slice_index_or};
ghost use Rattle.drt_ahead.specs.Found.{AreThere, AreWith};

use drt_model::Memory;
use std::alloc::Global;

/// The answer of a job, by the job's place.
#[derive(Drop)]
pub(crate) struct Answer<X> {
    pub(crate) place: u32,
    pub(crate) value: X,
}

/// So many places with nothing in them.
pub(crate) fn empty_places<X: Drop>(alloc: Global, count: usize) -> Result<Vec<Option<X>>, Memory>
    ensures count { IfOk result (λ found. length found.items ≡ count) }
    ensures none { IfOk result (λ found. All (λ slot. slot ≡ None) found.items) }
{
    let mut found = Vec::with_capacity(alloc, count)?;
    for _ in 0..count {
        found.push(None)?;
    }
    Ok(found)
}

/// Puts an answer to its place.
pub(crate) fn put_answer<X: Drop>(found: &mut Vec<Option<X>>, answer: Answer<X>)
    ensures count { length found.new.items ≡ length found.old.items }
    ensures put { AreWith answer.place answer.value found.old.items found.new.items }
{
    let Answer { place, value } = answer;
    if let Some(slot) = found.get_mut(place as usize) {
        *slot = Some(value);
    }
}

/// Takes what was found at a place, where something was: it isn't there afterwards. The other places keep what they have.
pub fn take_found<X: Drop>(found: &mut Vec<Option<X>>, place: u32) -> Option<X>
    ensures taken { result ≡ slice_index_or found.old.items place None }
    ensures count { length found.new.items ≡ length found.old.items }
    ensures gone { slice_index_or found.new.items place None ≡ None }
    ensures others { (i : ℕ) → i ≢ place → slice_index_or found.new.items i None ≡ slice_index_or found.old.items i None }
{
    match found.get_mut(place as usize) {
        Some(slot) => slot.take(),
        None => None,
    }
}
