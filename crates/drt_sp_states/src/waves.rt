//! Waves: the states that are taken together.
use crate::idle::{Idle, activate, open_idle};
use crate::looking::{Aim, Found, Step, View};
use crate::places::{Gaps, Subject, find_gaps, least_gap};
use crate::tables::{End, State, Table, offer, open_table, place_state};
use crate::trying::place_to_activate;
use crate::workers::look_at_all;
use drt_crew::Crew;
use drt_model::Memory;
use drt_pool::Gate;
use drt_steps::Steps;
use std::alloc::Global;
use std::sync::Wait;
use std::thread::Threads;

// The most states of a wave.
const MOST_STATES: u64 = 4_096;

/// A search: the separations, which places are active, and the table.
#[derive(Drop)]
pub(crate) struct Search {
    pub gaps: Vec<Gaps>,
    pub idle: Idle,
    pub table: Table,
}

/// A search with no active place.
pub(crate) fn open_search(alloc: Global, subject: Subject<'_>) -> Result<Search, Memory> {
    Ok(Search {
        gaps: find_gaps(alloc, subject)?,
        idle: open_idle(alloc),
        table: open_table(alloc)?,
    })
}

/// States that are taken together: how many, and what is found of those that aren't dropped, in order.
#[derive(Drop)]
pub(crate) struct Wave {
    pub taken: u64,
    pub found: Vec<Found>,
}

/// Takes a wave of at most so many states, and finds something of each. None where no state waits.
pub(crate) fn take_wave<G: Gate, R: Threads + Wait + Sync>(
    crew: &Crew<'_, G, R>,
    subject: Subject<'_>,
    aim: Aim,
    search: &mut Search,
    most: u64,
) -> Result<Wave, Memory> {
    let (taken, numbers) = take_states(crew.alloc, search, most)?;
    let view = View {
        subject,
        gaps: search.gaps.as_slice(),
        idle: &search.idle,
        states: search.table.states.as_slice(),
        aim,
    };
    let found = look_at_all(crew, view, &numbers)?;
    Ok(Wave { taken, found })
}

// Takes the states of a wave: how many, and the numbers of those that aren't dropped. Their ranks are less than one least separation of an
// active place apart, so that no child of one comes before another one.
fn take_states(alloc: Global, search: &mut Search, most: u64) -> Result<(u64, Vec<u32>), Memory> {
    let mut taken: u64 = 0;
    let mut numbers = Vec::new(alloc);
    let Some(rank) = search.table.next_rank() else {
        return Ok((taken, numbers));
    };
    let end = rank.saturating_add(least_rise(&search.gaps, &search.idle));
    for _state in 0..most.min(MOST_STATES) {
        let Some(number) = search.table.take_below(end) else {
            break;
        };
        taken = taken.saturating_add(1);
        if place_state(alloc, &mut search.table, number)? {
            numbers.push(number)?;
        }
    }
    Ok((taken, numbers))
}

// By how much the rank of a child is above that of its state at least.
fn least_rise(gaps: &[Gaps], idle: &Idle) -> u64 {
    let mut least: u64 = u64::MAX;
    for place in &idle.active {
        least = least.min(least_gap(gaps, *place));
    }
    least.max(1)
}

/// Puts what is found of the states of a wave into the table.
pub(crate) fn put_wave(
    alloc: Global,
    aim: Aim,
    search: &mut Search,
    wave: Wave,
) -> Result<(), Memory> {
    for found in wave.found {
        put_found(alloc, aim, search, found)?;
    }
    Ok(())
}

// A state passes where its least passing time meets the aim by now.
fn put_found(alloc: Global, aim: Aim, search: &mut Search, found: Found) -> Result<(), Memory> {
    let Found { number, time, step } = found;
    match time {
        Some(time) if aim.is_met(time) => search.table.set_end(number, End::Passes(time)),
        _ => put_step(alloc, search, number, step)?,
    }
    Ok(())
}

fn put_step(alloc: Global, search: &mut Search, number: u32, step: Step) -> Result<(), Memory> {
    if let Step::Splits { place, children } = step {
        if let Some(children) = offer_all(alloc, search, children)? {
            search
                .table
                .set_end(number, End::Splits { place, children });
        }
    }
    Ok(())
}

// The numbers of children in the table. None where there are too many states.
fn offer_all(
    alloc: Global,
    search: &mut Search,
    children: Vec<State>,
) -> Result<Option<Vec<u32>>, Memory> {
    let mut numbers = Vec::with_capacity(alloc, children.len())?;
    for child in children {
        match offer(alloc, &mut search.table, &search.gaps, child)? {
            Some(number) => numbers.push(number)?,
            None => return Ok(None),
        }
    }
    Ok(Some(numbers))
}

/// Makes the place active whose tail asks before the time for the most more than its walk of the trial, whose functions these are, and begins
/// the table anew. Whether there is such a place.
pub(crate) fn widen(
    alloc: Global,
    subject: Subject<'_>,
    search: &mut Search,
    functions: &[Steps],
    time: u64,
) -> Result<bool, Memory> {
    let Some(place) = place_to_activate(subject, &search.idle.active, functions, time) else {
        return Ok(false);
    };
    activate(alloc, subject, &mut search.idle, place)?;
    search.table = open_table(alloc)?;
    Ok(true)
}
