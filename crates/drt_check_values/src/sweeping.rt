//! The sweep over the times of queries, in order.
ghost use Rattle.std.specs.Prelude.{◌≡◌, ◌+◌, ◌<◌, ◌≤◌, ◌↔◌, All, IfOk, IsTrue, length, map, slice_index_or, slice_range};
ghost use Rattle.drt_model.specs.Numbers.{most_number};
ghost use Rattle.drt_check_values.specs.Greatest.{greatest};
ghost use Rattle.drt_check_values.specs.Sweeps.{AreReady, HasRunOfPlaces, IsInOrder, IsTaken, answer, heights, no_rise, query_time};
ghost use Rattle.drt_check_values.specs.Values.{AreLeft, AreValuesWithin};

use crate::greatest_values::GreatestValues;
use crate::places::Places;
use crate::query::Query;
use crate::rises::Rise;
use drt_model::Memory;
use std::alloc::{AllocError, Global};

/// Takes for each query, from the room at its place, the greatest of what the releases add before its time to the places of its
/// node, and ends at the first that doesn't fit. The queries are answered in the given order, which is one of their times, and each
/// release is taken in once.
pub(crate) fn sweep(
    alloc: Global,
    queries: &[Query],
    order: &[u32],
    places: &Places,
    rises: &[Rise],
    count: usize,
    rooms: &mut [u32],
) -> Result<bool, Memory>
    requires count { count ≤ most_number }
    requires order { IsInOrder queries.now order.now }
    requires runs { All (HasRunOfPlaces places.now.firsts.items places.now.sizes.items count) queries.now }
    requires rises { AreReady count rises.now }
    requires rooms { length rooms.old ≡ length queries.now }
    ensures fits { IfOk result (λ fit. IsTrue fit ↔ AreValuesWithin (map (answer places.now.firsts.items places.now.sizes.items count rises.now) queries.now) rooms.old) }
    ensures left { IfOk result (λ fit. IsTrue fit → AreLeft (map (answer places.now.firsts.items places.now.sizes.items count rises.now) queries.now) rooms.old rooms.new) }
    ensures count { length rooms.new ≡ length rooms.old }
{
    let mut reached = GreatestValues::zeros(alloc, count)?;
    let mut taken = 0;
    'turns: for k in 0..order.len() {
        let index = order[k] as usize;
        let query = queries[index];
        taken = take_in(&mut reached, rises, taken, query.time);
        let value = greatest_below(&reached, places, query.node);
        if !take_value(&mut rooms[index], value) {
            return Ok(false);
        }
    }
    Ok(true)
}

// Takes a value from a room, if it fits.
fn take_value(room: &mut u32, value: u64) -> bool
    ensures fits { IsTrue result ↔ value ≤ room.old }
    ensures left { IsTrue result → room.new + value ≡ room.old }
{
    if value > u64::from(*room) {
        return false;
    }
    *room -= value as u32;
    true
}

// Takes in the releases that come before a time, from the first that isn't taken in yet on, and says how many are then.
fn take_in(reached: &mut GreatestValues, rises: &[Rise], before: usize, time: u32) -> usize
    requires rises { AreReady (length reached.old) rises.now }
    requires taken { IsTaken rises.now before time reached.old }
    ensures taken { IsTaken rises.now result time reached.new }
    ensures late { result < length rises.now → time ≤ (slice_index_or rises.now result no_rise).offset }
    ensures count { length reached.new ≡ length reached.old }
{
    let mut taken = before;
    'rises: while taken < rises.len() && rises[taken].offset < time {
        let rise = rises[taken];
        reached.raise(rise.place as usize, u64::from(rise.work));
        taken += 1;
    }
    taken
}

// The greatest value of the places of a node.
fn greatest_below(reached: &GreatestValues, places: &Places, node: u32) -> u64
    requires firsts { node < length places.now.firsts.items }
    requires sizes { node < length places.now.sizes.items }
    requires within { slice_index_or places.now.firsts.items node 0 + slice_index_or places.now.sizes.items node 0 ≤ length reached.now }
    ensures { let first = slice_index_or places.now.firsts.items node 0 in result ≡ greatest (slice_range reached.now first (first + slice_index_or places.now.sizes.items node 0)) }
{
    let first = places.firsts[node as usize] as usize;
    let size = places.sizes[node as usize] as usize;
    reached.greatest_in(first, first + size)
}

/// The numbers of the queries in order of their times. More queries than numbers of 32 bits are want of memory.
pub(crate) fn in_order(alloc: Global, queries: &[Query]) -> Result<Vec<u32>, Memory>
    ensures { IfOk result (λ order. IsInOrder queries.now order.items) }
{
    let Ok(count) = u32::try_from(queries.len()) else {
        return Err(AllocError);
    };
    let mut order = Vec::with_capacity(alloc, queries.len())?;
    for k in 0..count {
        order.push(k)?;
    }
    order.sort_unstable_by_key(
        |k: &u32| -> u32
            ensures { result ≡ query_time queries.entry.now k.now }
        { time_at(queries, *k as usize) },
    );
    Ok(order)
}

// The time of a query, and 0 past the last one.
fn time_at(queries: &[Query], k: usize) -> u32
    ensures { result ≡ query_time queries.now k }
{
    match queries.get(k) {
        Some(query) => query.time,
        None => 0,
    }
}
