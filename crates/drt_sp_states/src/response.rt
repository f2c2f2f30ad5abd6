//! The search for the greatest response of one vertex.
ghost use Rattle.std.specs.Prelude.{◌≡◌, ◌≤◌, ◌⊎◌, Some, IfOk, IfSome};
ghost use Rattle.drt_sp_states.specs.Reaching.{IsReachedBy};
ghost use Rattle.drt_sp_states.specs.Subjects.{IsResponseTo, IsStateSubject};

use crate::ends::{are_accepted, make_claims};
use crate::looking::{Aim, Found};
use crate::places::Subject;
use crate::stepping::first_passing;
use crate::tables::Table;
use crate::trials::{Pool, Trial};
use crate::trying::find_trial;
use crate::waves::{Search, Wave, open_search, put_wave, take_wave, widen};
use drt_crew::Crew;
use drt_model::{Memory, Row};
use drt_pool::Gate;
use std::alloc::Global;
use std::sync::Wait;
use std::thread::Threads;

/// What a search for a greatest response finds.
#[derive(Drop)]
pub enum Responded {
    /// The number of ticks, and walks of the tasks of higher priority, one of each, that reach it: it is the least time that passes for
    /// them, and for all other walks one up to it passes.
    Reached { ticks: u64, walks: Row<Row<u32>> },
    /// The budget of states is spent, or nothing was found.
    Spent,
}

// Walks, one of each place, and the least time that passes for them, in ticks.
#[derive(Drop)]
pub(crate) struct Reached {
    pub ticks: u64,
    pub walks: Row<Row<u32>>,
}

// How a search goes on after trials.
#[derive(Drop, Clone, Copy, PartialEq, Eq)]
enum Outlook {
    // What is found of the wave stands.
    Stands,
    // A further place is active, and the table begins anew.
    Begins,
    // It can't go on.
    Fails,
}

/// Searches the states of a vertex for the greatest of the least times that pass for walks, by waves, which workers look at side by side. It
/// takes as many states as the crew has steps, over all its tables. The answer doesn't depend on the workers.
pub fn search_response<G: Gate, R: Threads + Wait + Sync>(
    crew: &Crew<'_, G, R>,
    subject: Subject<'_>,
) -> Result<Responded, Memory>
    requires subject { IsStateSubject subject }
    ensures { IfOk result (IsResponseTo subject.entry) }
{
    let near = Subject {
        deadline: latest_response(subject),
        ..subject
    };
    search_near(crew, near)
}

// A time up to the deadline that no response is above: the least one that passes by the greatest values of the tails alone, or the deadline
// where none does.
fn latest_response(subject: Subject<'_>) -> u32
    requires { 1 ≤ subject.deadline }
    ensures some { 1 ≤ result }
    ensures most { result ≤ subject.entry.deadline }
{
    match first_passing(subject) {
        Some(time) if 1 <= time && time <= subject.deadline as u64 => time as u32,
        _ => subject.deadline,
    }
}

// The search up to the deadline.
fn search_near<G: Gate, R: Threads + Wait + Sync>(
    crew: &Crew<'_, G, R>,
    subject: Subject<'_>,
) -> Result<Responded, Memory>
    requires { IsStateSubject subject }
    ensures { IfOk result (IsResponseTo subject.entry) }
{
    let mut search = open_search(crew.alloc, subject)?;
    let mut reached: Option<Reached> = None;
    if take_waves(crew, subject, &mut search, &mut reached)? {
        end_of(crew.alloc, subject, &search.table, reached)
    } else {
        Ok(Responded::Spent)
    }
}

// Takes waves until no state waits. Whether it comes to that.
fn take_waves<G: Gate, R: Threads + Wait + Sync>(
    crew: &Crew<'_, G, R>,
    subject: Subject<'_>,
    search: &mut Search,
    reached: &mut Option<Reached>,
) -> Result<bool, Memory>
    requires subject { IsStateSubject subject }
    requires reached { IfSome reached.old (IsReachedBy subject) }
    ensures { IfSome reached.new (IsReachedBy subject.entry) }
{
    let budget = crew.effort.budget();
    let mut left = budget;
    for _wave in 0..budget {
        let wave = take_wave(crew, subject, aim_of(reached), search, left)?;
        left = left.saturating_sub(wave.taken);
        if !go_on(crew.alloc, subject, search, reached, wave)? {
            return Ok(false);
        }
        if search.table.is_done() {
            return Ok(true);
        }
        if left == 0 {
            return Ok(false);
        }
    }
    Ok(false)
}

// Goes on by what is found of a wave. Whether the search can go on.
fn go_on(
    alloc: Global,
    subject: Subject<'_>,
    search: &mut Search,
    reached: &mut Option<Reached>,
    wave: Wave,
) -> Result<bool, Memory>
    requires subject { IsStateSubject subject }
    requires reached { IfSome reached.old (IsReachedBy subject) }
    ensures { IfSome reached.new (IsReachedBy subject.entry) }
{
    match try_wave(alloc, subject, search, reached, &wave)? {
        Outlook::Stands => put_wave(alloc, aim_of(reached), search, wave)?,
        Outlook::Begins => {}
        Outlook::Fails => return Ok(false),
    }
    Ok(true)
}

// What is to be found where walks reach this.
fn aim_of(reached: &Option<Reached>) -> Aim {
    let reached = match reached {
        Some(reached) => reached.ticks,
        None => 0,
    };
    Aim::Response { reached }
}

// Tries the walks of each state of a wave that can't be split, until a further place becomes active.
fn try_wave(
    alloc: Global,
    subject: Subject<'_>,
    search: &mut Search,
    reached: &mut Option<Reached>,
    wave: &Wave,
) -> Result<Outlook, Memory>
    requires subject { IsStateSubject subject }
    requires reached { IfSome reached.old (IsReachedBy subject) }
    ensures { IfSome reached.new (IsReachedBy subject.entry) }
{
    for found in &wave.found {
        if found.is_stopped() {
            let outlook = try_state(alloc, subject, search, reached, found)?;
            if outlook != Outlook::Stands {
                return Ok(outlook);
            }
        }
    }
    Ok(Outlook::Stands)
}

// Tries the walks of a state that can't be split. Where the state doesn't pass by what is reached then, a further place becomes active.
fn try_state(
    alloc: Global,
    subject: Subject<'_>,
    search: &mut Search,
    reached: &mut Option<Reached>,
    found: &Found,
) -> Result<Outlook, Memory>
    requires subject { IsStateSubject subject }
    requires reached { IfSome reached.old (IsReachedBy subject) }
    ensures { IfSome reached.new (IsReachedBy subject.entry) }
{
    if found.is_met(aim_of(reached)) {
        return Ok(Outlook::Stands);
    }
    let until = found.time.unwrap_or(subject.deadline as u64);
    let trial = find_trial(alloc, subject, &search.table, found.number, until)?;
    let Trial::Passes { time, pool } = trial else {
        return Ok(Outlook::Fails);
    };
    let Pool {
        walks,
        functions,
        ..
    } = pool;
    let walks = Row::from_vec(walks);
    *reached = Some(later_of(reached.take(), Reached { ticks: time, walks }));
    if found.is_met(aim_of(reached)) {
        return Ok(Outlook::Stands);
    }
    if widen(alloc, subject, search, &functions, time)? {
        Ok(Outlook::Begins)
    } else {
        Ok(Outlook::Fails)
    }
}

// The walks that reach more.
fn later_of(known: Option<Reached>, new: Reached) -> Reached
    ensures { (result ≡ new) ⊎ (Some result ≡ known) }
{
    match known {
        Some(known) if known.ticks >= new.ticks => known,
        _ => new,
    }
}

// What the search answers where no state waits: what is reached, where the states are accepted as showing that no walks reach more.
fn end_of(
    alloc: Global,
    subject: Subject<'_>,
    table: &Table,
    reached: Option<Reached>,
) -> Result<Responded, Memory>
    requires subject { IsStateSubject subject }
    requires reached { IfSome reached (IsReachedBy subject) }
    ensures { IfOk result (IsResponseTo subject.entry) }
{
    let Some(Reached { ticks, walks }) = reached else {
        return Ok(Responded::Spent);
    };
    let Ok(bound) = u32::try_from(ticks) else {
        return Ok(Responded::Spent);
    };
    match make_claims(alloc, table)? {
        Some(states) if are_accepted(subject, bound, &states) => {
            Ok(Responded::Reached { ticks, walks })
        }
        _ => Ok(Responded::Spent),
    }
}
