//! What the places ask for at which no walk stands, and the room that they leave.
use crate::curves::value_before;
use crate::places::{Subject, crest_at, place_count};
use drt_model::Memory;
use drt_states::Jump;
use std::alloc::Global;

/// Times at which the job and the places that aren't active leave more room than at all times before. They ask for the same
/// throughout.
#[derive(Drop, Clone, Copy)]
pub(crate) struct Room {
    pub from: u64,
    pub to: u64,
    pub asked: u64,
}

/// Which places are active, in order, and the room that the others leave.
#[derive(Drop)]
pub(crate) struct Idle {
    pub active: Vec<u32>,
    /// Made where a place becomes active. Nearly every vertex is decided before, at its first state.
    pub rooms: Option<Vec<Room>>,
}

/// No place is active.
pub(crate) fn open_idle(alloc: Global) -> Idle {
    Idle {
        active: Vec::new(alloc),
        rooms: None,
    }
}

/// Makes a place active.
pub(crate) fn activate(
    alloc: Global,
    subject: Subject<'_>,
    idle: &mut Idle,
    place: u32,
) -> Result<(), Memory> {
    idle.active.push(place)?;
    idle.active.sort()?;
    let rooms = find_rooms(alloc, subject, &idle.active)?;
    idle.rooms = Some(rooms);
    Ok(())
}

/// Whether the place is active.
pub(crate) fn is_active(active: &[u32], place: u32) -> bool {
    for other in active {
        if *other == place {
            return true;
        }
    }
    false
}

/// What all places ask for before `t` at most.
pub(crate) fn crests_before(subject: Subject<'_>, t: u64) -> u64 {
    let mut sum: u64 = 0;
    for crest in subject.crests {
        sum = sum.saturating_add(value_before(crest.as_slice(), t));
    }
    sum
}

// The room that the places that aren't active leave up to the deadline, in order of time.
fn find_rooms(alloc: Global, subject: Subject<'_>, active: &[u32]) -> Result<Vec<Room>, Memory> {
    let rises = find_rises(alloc, subject, active)?;
    rooms_between(alloc, subject, &rises)
}

// The offsets and the rises of the greatest values of the places that aren't active, up to the deadline.
fn find_rises(
    alloc: Global,
    subject: Subject<'_>,
    active: &[u32],
) -> Result<Vec<(u64, u64)>, Memory> {
    let mut rises = Vec::new(alloc);
    for place in 0..place_count(subject) {
        if !is_active(active, place) {
            add_rises(
                crest_at(subject, place),
                subject.deadline as u64,
                &mut rises,
            )?;
        }
    }
    rises.sort()?;
    Ok(rises)
}

// Adds the offsets and the rises of the jumps of a function that come before the deadline.
fn add_rises(jumps: &[Jump], deadline: u64, rises: &mut Vec<(u64, u64)>) -> Result<(), Memory> {
    let mut before: u64 = 0;
    for jump in jumps {
        if jump.offset >= deadline {
            break;
        }
        rises.push((jump.offset, jump.work.saturating_sub(before)))?;
        before = jump.work;
    }
    Ok(())
}

// The room between rises. A state asks for something at each time, so that it takes room of 1 at least.
fn rooms_between(
    alloc: Global,
    subject: Subject<'_>,
    rises: &[(u64, u64)],
) -> Result<Vec<Room>, Memory> {
    let mut rooms = Vec::new(alloc);
    let mut asked = subject.wcet as u64;
    let mut more: u64 = 1;
    for (offset, rise) in rises {
        more = add_room(asked, more, *offset, &mut rooms)?;
        asked = asked.saturating_add(*rise);
    }
    let _more = add_room(asked, more, subject.deadline as u64, &mut rooms)?;
    Ok(rooms)
}

// Adds the times up to `to` that leave room of `more`, where this much is asked for before them. The least room above theirs.
fn add_room(asked: u64, more: u64, to: u64, rooms: &mut Vec<Room>) -> Result<u64, Memory> {
    let from = asked.saturating_add(more);
    if from > to {
        return Ok(more);
    }
    rooms.push(Room { from, to, asked })?;
    Ok(to.saturating_sub(asked).saturating_add(1))
}
