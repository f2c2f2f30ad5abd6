//! Whether the times at which states pass pass.
ghost use Rattle.std.specs.Prelude.{◌≡◌, ◌<◌, ◌≤◌, ◌↔◌, IsTrue, length, slice_index_or};
ghost use Rattle.std.specs.List.{All};
ghost use Rattle.drt_states.specs.States.{HasRoomAt, HavePassingTimes, IsPassing, asked_from, asked_of, entry_at};
ghost use Rattle.drt_states.specs.Tails.{curve_of, value_before};
ghost use Rattle.drt_states.specs.declared.claims.TailClaim.{TailClaim};
ghost use Rattle.drt_check_states.specs.Crests.{AreCrests, IsCrest};
ghost use Rattle.drt_check_states.specs.Curves.{HasRisingCurves};

use crate::curves::value_before;
use drt_model::Row;
use drt_states::{Jump, StateClaim, StateEnd, StateEntry, TailClaim};

/// Whether each time at which a state passes passes: it is 1 or later, not past the bound, and the execution time and what the state
/// asks for before it fit into it. It takes no memory, and looks into one list of jumps for each tail.
pub fn have_passing_times(
    tails: &[TailClaim],
    crests: &[Row<Jump>],
    bound: u32,
    wcet: u32,
    states: &[StateClaim],
) -> bool
    requires rising { All HasRisingCurves tails.now }
    requires crests { AreCrests tails.now crests.now }
    ensures { IsTrue result ↔ HavePassingTimes bound wcet tails.now states.now }
{
    for i in 0..states.len() {
        if !is_passing(tails, crests, bound, wcet, &states[i]) {
            return false;
        }
    }
    true
}

fn is_passing(
    tails: &[TailClaim],
    crests: &[Row<Jump>],
    bound: u32,
    wcet: u32,
    state: &StateClaim,
) -> bool
    requires rising { All HasRisingCurves tails.now }
    requires crests { AreCrests tails.now crests.now }
    ensures { IsTrue result ↔ IsPassing bound wcet tails.now state.now state.now.end }
{
    match &state.end {
        StateEnd::Passes(time) => has_room_at(tails, crests, bound, wcet, state, *time),
        StateEnd::Splits { .. } => true,
    }
}

fn has_room_at(
    tails: &[TailClaim],
    crests: &[Row<Jump>],
    bound: u32,
    wcet: u32,
    state: &StateClaim,
    t: u64,
) -> bool
    requires rising { All HasRisingCurves tails.now }
    requires crests { AreCrests tails.now crests.now }
    ensures { IsTrue result ↔ HasRoomAt bound wcet tails.now state.now t }
{
    if t == 0 {
        return false;
    }
    if t > bound as u64 {
        return false;
    }
    if t < wcet as u64 {
        return false;
    }
    let room = t - wcet as u64;
    if room < state.work {
        return false;
    }
    fits(
        tails,
        crests,
        state.entries.as_slice(),
        t,
        room - state.work,
    )
}

// Whether what the places ask for before the time adds up to at most the room.
fn fits(
    tails: &[TailClaim],
    crests: &[Row<Jump>],
    entries: &[StateEntry],
    t: u64,
    room: u64,
) -> bool
    requires rising { All HasRisingCurves tails.now }
    requires crests { AreCrests tails.now crests.now }
    ensures { IsTrue result ↔ (asked_from 0 tails.now entries.now t ≤ room) }
{
    let mut left = room;
    for i in 0..tails.len() {
        let crest = crest_at(tails, crests, i);
        let asked = asked_at(&tails[i], crest, entries, i, t);
        if left < asked {
            return false;
        }
        left -= asked;
    }
    true
}

// The greatest value of the tail at a place.
fn crest_at<'a>(tails: &[TailClaim], crests: &'a [Row<Jump>], place: usize) -> &'a [Jump]
    requires crests { AreCrests tails.now crests.now }
    requires place { place < length tails.now }
    ensures { (d : TailClaim) → IsCrest (slice_index_or tails.now place d) result.now }
{
    crests[place].as_slice()
}

// The most that the walk at the place asks for before the time.
fn asked_at(tail: &TailClaim, crest: &[Jump], entries: &[StateEntry], place: usize, t: u64) -> u64
    requires rising { HasRisingCurves tail.now }
    requires crest { IsCrest tail.now crest.now }
    ensures { result ≡ asked_of tail.now (entry_at entries.now place) t }
{
    match entry_at(entries, place) {
        Some(entry) => value_of(tail, entry.vertex, t.saturating_sub(entry.offset)),
        None => value_before(crest, t),
    }
}

// The first of the entries at the place, if there is one.
fn entry_at(entries: &[StateEntry], place: usize) -> Option<StateEntry>
    ensures { result ≡ entry_at entries.now place }
{
    for entry in entries {
        if entry.place as usize == place {
            return Some(*entry);
        }
    }
    None
}

// The value of the function of the vertex before the time.
fn value_of(tail: &TailClaim, vertex: u32, t: u64) -> u64
    requires { HasRisingCurves tail.now }
    ensures { result ≡ value_before (curve_of tail.now vertex) t }
{
    let curves = tail.curves.as_slice();
    if vertex as usize >= curves.len() {
        return 0;
    }
    value_before(curves[vertex as usize].as_slice(), t)
}
