//! The trial of a state, and what is done where its walks leave the job time.
ghost use Rattle.std.specs.Prelude.{IfOk};
ghost use Rattle.drt_sp_states.specs.Subjects.{IsStateSubject, IsTrialOf};

use crate::curves::value_before;
use crate::idle::is_active;
use crate::places::{Subject, crest_at, place_count};
use crate::tables::{Table, entry_at};
use crate::tails::{add_attaining, greatest_walk};
use crate::trials::{Trial, try_walks};
use drt_model::{Memory, Row};
use drt_steps::Steps;
use std::alloc::Global;

/// The trial of a state: its walks, which ask for as much before a time as the state, beside the job.
pub(crate) fn find_trial(
    alloc: Global,
    subject: Subject<'_>,
    table: &Table,
    number: u32,
    time: u64,
) -> Result<Trial, Memory>
    requires { IsStateSubject subject }
    ensures { IfOk result (IsTrialOf subject.entry) }
{
    match walks_of(alloc, subject, table, number, time)? {
        Some(walks) => try_walks(alloc, subject, &walks),
        None => Ok(Trial::Broken),
    }
}

// The walks of a state's trial, one of each place: those of its entries, going on by walks that attain the tails at the time, and a walk that
// attains the greatest value of its tail there where a place has no entry. None where one isn't found.
fn walks_of(
    alloc: Global,
    subject: Subject<'_>,
    table: &Table,
    number: u32,
    time: u64,
) -> Result<Option<Vec<Row<u32>>>, Memory> {
    let mut walks = Vec::new(alloc);
    for place in 0..place_count(subject) {
        let Some(walk) = walk_of(alloc, subject, table, number, place, time)? else {
            return Ok(None);
        };
        walks.push(Row::from_vec(walk))?;
    }
    Ok(Some(walks))
}

// The walk of one place.
fn walk_of(
    alloc: Global,
    subject: Subject<'_>,
    table: &Table,
    number: u32,
    place: u32,
    time: u64,
) -> Result<Option<Vec<u32>>, Memory> {
    let Some(state) = table.states.get(number as usize) else {
        return Ok(None);
    };
    let Some(entry) = entry_at(state.entries.as_slice(), place) else {
        return greatest_walk(alloc, subject, place, time);
    };
    let left = time.saturating_sub(entry.offset);
    let mut walk = walk_to(alloc, table, number, place)?;
    if left == 0 || add_attaining(subject, place, entry.vertex, left, &mut walk)? {
        Ok(Some(walk))
    } else {
        Ok(None)
    }
}

// The vertices of the walk of a place up to where it stands, from the states that the state comes from.
fn walk_to(alloc: Global, table: &Table, number: u32, place: u32) -> Result<Vec<u32>, Memory> {
    let mut walk = Vec::new(alloc);
    let mut at = number;
    for _step in 0..table.states.len() {
        let Some(state) = table.states.get(at as usize) else {
            break;
        };
        let Some(origin) = state.origin else {
            break;
        };
        if origin.place == place {
            if let Some(entry) = entry_at(state.entries.as_slice(), place) {
                walk.push(entry.vertex)?;
            }
        }
        at = origin.parent;
    }
    walk.reverse();
    Ok(walk)
}

/// The place that isn't active whose tail asks before the time for the most more than its walk of the trial, if one asks for more.
pub(crate) fn place_to_activate(
    subject: Subject<'_>,
    active: &[u32],
    functions: &[Steps],
    time: u64,
) -> Option<u32> {
    let mut most = 0;
    let mut place: Option<u32> = None;
    for other in 0..place_count(subject) {
        let gap = gap_at(subject, functions, other, time);
        if !is_active(active, other) && gap > most {
            most = gap;
            place = Some(other);
        }
    }
    place
}

// How much more the tail of a place asks for before the time than its walk of the trial.
fn gap_at(subject: Subject<'_>, functions: &[Steps], place: u32, time: u64) -> u64 {
    let Some(function) = functions.get(place as usize) else {
        return 0;
    };
    if time == 0 || time > function.bound() {
        return 0;
    }
    value_before(crest_at(subject, place), time).saturating_sub(function.at(time))
}
