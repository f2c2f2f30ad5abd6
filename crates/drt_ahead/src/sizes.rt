//! How large jobs are reckoned to be.
ghost use Rattle.std.specs.Prelude.{◌<◌, ◌≤◌, All, IfOk, length};

use drt_model::Memory;
use std::alloc::Global;

/// The places of sizes, those of the largest ones first. None where there are too many.
pub fn largest_first(alloc: Global, sizes: &[u64]) -> Result<Vec<u32>, Memory>
    ensures places { IfOk result (λ places. All (λ i. i < length places.items) places.items) }
    ensures most { IfOk result (λ places. length places.items ≤ length sizes.now) }
{
    let mut places = Vec::new(alloc);
    if sizes.len() > u32::MAX as usize {
        return Ok(places);
    }
    for place in 0..sizes.len() {
        places.push(place as u32)?;
    }
    places.sort_by_key(|place: &u32| u64::MAX - size_at(sizes, *place))?;
    Ok(places)
}

// The size at a place, and 0 past the last one.
fn size_at(sizes: &[u64], place: u32) -> u64 {
    match sizes.get(place as usize) {
        Some(size) => *size,
        None => 0,
    }
}

/// The size of all jobs but the largest one: what others can do meanwhile.
pub fn shared_size(sizes: &[u64]) -> u64 {
    let mut all: u64 = 0;
    let mut largest: u64 = 0;
    for size in sizes {
        all = all.saturating_add(*size);
        largest = largest.max(*size);
    }
    all.saturating_sub(largest)
}
