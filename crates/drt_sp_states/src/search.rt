//! The search of the states of one vertex.
ghost use Rattle.std.specs.Prelude.{IfOk, IfSome};
ghost use Rattle.drt_sp_states.specs.Subjects.{IsAnswerTo, IsStateSubject};

use crate::ends::{are_accepted, make_claims};
use crate::looking::{Aim, Found};
use crate::places::Subject;
use crate::tables::Table;
use crate::trials::Trial;
use crate::trying::find_trial;
use crate::waves::{Search, Wave, open_search, put_wave, take_wave, widen};
use drt_crew::Crew;
use drt_model::{Memory, Row};
use drt_pool::Gate;
use drt_states::StateClaim;
use std::alloc::Global;
use std::sync::Wait;
use std::thread::Threads;

/// What a search finds.
#[derive(Drop)]
pub enum Searched {
    /// Each state passes or is split into dominated states.
    Passes(Row<StateClaim>),
    /// Walks of the tasks of higher priority, one of each, for which the vertex has no time up to its deadline.
    Misses(Row<Row<u32>>),
    /// The budget of states is spent, or nothing was found.
    Spent,
}

/// Searches the states of a vertex by waves, which workers look at side by side. It takes as many states as the crew has steps, over all its
/// tables. The answer doesn't depend on the workers.
pub fn search_states<G: Gate, R: Threads + Wait + Sync>(
    crew: &Crew<'_, G, R>,
    subject: Subject<'_>,
) -> Result<Searched, Memory>
    requires subject { IsStateSubject subject }
    ensures { IfOk result (IsAnswerTo subject.entry) }
{
    let mut search = open_search(crew.alloc, subject)?;
    take_waves(crew, subject, &mut search)
}

// Takes waves until there is an answer or the budget is spent.
fn take_waves<G: Gate, R: Threads + Wait + Sync>(
    crew: &Crew<'_, G, R>,
    subject: Subject<'_>,
    search: &mut Search,
) -> Result<Searched, Memory>
    requires { IsStateSubject subject }
    ensures { IfOk result (IsAnswerTo subject.entry) }
{
    let budget = crew.effort.budget();
    let mut left = budget;
    for _wave in 0..budget {
        let wave = take_wave(crew, subject, Aim::Deadline, search, left)?;
        left = left.saturating_sub(wave.taken);
        if let Some(answer) = go_on(crew.alloc, subject, search, wave)? {
            return Ok(answer);
        }
        if left == 0 {
            break;
        }
    }
    Ok(Searched::Spent)
}

// Goes on by what is found of a wave: by the trial of the first state at which the search stops, if there is one. An answer where the search
// ends with it.
fn go_on(
    alloc: Global,
    subject: Subject<'_>,
    search: &mut Search,
    wave: Wave,
) -> Result<Option<Searched>, Memory>
    requires { IsStateSubject subject }
    ensures { IfOk result (λ r. IfSome r (IsAnswerTo subject.entry)) }
{
    match first_stop(&wave.found) {
        Some(number) => try_state(alloc, subject, search, number),
        None => {
            put_wave(alloc, Aim::Deadline, search, wave)?;
            end_of(alloc, subject, &search.table)
        }
    }
}

// The number of the first state at which the search stops.
fn first_stop(all: &[Found]) -> Option<u32> {
    for found in all {
        if found.is_stopped() {
            return Some(found.number);
        }
    }
    None
}

// What the search answers where no state waits.
fn end_of(alloc: Global, subject: Subject<'_>, table: &Table) -> Result<Option<Searched>, Memory>
    requires { IsStateSubject subject }
    ensures { IfOk result (λ r. IfSome r (IsAnswerTo subject.entry)) }
{
    if !table.is_done() {
        return Ok(None);
    }
    match make_claims(alloc, table)? {
        Some(states) => Ok(Some(certify(subject, states))),
        None => Ok(Some(Searched::Spent)),
    }
}

// A yes by these states, where they are accepted.
fn certify(subject: Subject<'_>, states: Vec<StateClaim>) -> Searched
    requires { IsStateSubject subject }
    ensures { IsAnswerTo subject.entry result }
{
    if are_accepted(subject, subject.deadline, &states) {
        Searched::Passes(Row::from_vec(states))
    } else {
        Searched::Spent
    }
}

// Tries the walks of a state that neither passes nor can be split. An answer where they miss; else a further place becomes active.
fn try_state(
    alloc: Global,
    subject: Subject<'_>,
    search: &mut Search,
    number: u32,
) -> Result<Option<Searched>, Memory>
    requires { IsStateSubject subject }
    ensures { IfOk result (λ r. IfSome r (IsAnswerTo subject.entry)) }
{
    match find_trial(
        alloc,
        subject,
        &search.table,
        number,
        subject.deadline as u64,
    )? {
        Trial::Misses(walks) => Ok(Some(Searched::Misses(walks))),
        Trial::Broken => Ok(Some(Searched::Spent)),
        Trial::Passes { time, pool } => {
            if widen(alloc, subject, search, &pool.functions, time)? {
                Ok(None)
            } else {
                Ok(Some(Searched::Spent))
            }
        }
    }
}
