//! The states of a table as claims, and whether these are accepted.
ghost use Rattle.std.specs.Prelude.{IsTrue};
ghost use Rattle.drt_check_states.specs.Places.{graphs_at};
ghost use Rattle.drt_states.specs.States.{AreStates, HaveDominatedChildren, HavePassingTimes};
ghost use Rattle.drt_sp_states.specs.Subjects.{IsStateSubject};

use crate::places::Subject;
use crate::tables::{End, Standing, State, Table};
use drt_check_states::{are_states, have_dominated_children, have_passing_times};
use drt_model::{Memory, Row};
use drt_states::{StateClaim, StateEnd, StateEntry};
use std::alloc::Global;

/// Whether the deciders accept the states, with times up to a bound.
pub(crate) fn are_accepted(subject: Subject<'_>, bound: u32, states: &[StateClaim]) -> bool
    requires { IsStateSubject subject }
    ensures states { IsTrue result → AreStates (graphs_at subject.entry.graphs.now subject.entry.order.now) states.now }
    ensures times { IsTrue result → HavePassingTimes bound subject.entry.wcet subject.entry.tails.now states.now }
    ensures children { IsTrue result → HaveDominatedChildren (graphs_at subject.entry.graphs.now subject.entry.order.now) subject.entry.deadline states.now }
{
    are_states(subject.graphs, subject.order, states)
        && have_passing_times(subject.tails, subject.crests, bound, subject.wcet, states)
        && have_dominated_children(subject.graphs, subject.order, subject.deadline, states)
}

/// The states that aren't dropped, in order. Where a child is dropped, the state that dominates it stands for it. None where nothing is
/// done at some state.
pub(crate) fn make_claims(alloc: Global, table: &Table) -> Result<Option<Vec<StateClaim>>, Memory> {
    let numbers = kept_numbers(alloc, table)?;
    let mut claims = Vec::new(alloc);
    for state in &table.states {
        if is_kept(state) {
            let Some(claim) = claim_of(alloc, table, numbers.as_slice(), state)? else {
                return Ok(None);
            };
            claims.push(claim)?;
        }
    }
    Ok(Some(claims))
}

fn is_kept(state: &State) -> bool {
    match state.end {
        End::Dropped(_) => false,
        _ => true,
    }
}

// For each state how many states before it are kept.
fn kept_numbers(alloc: Global, table: &Table) -> Result<Vec<u32>, Memory> {
    let mut numbers = Vec::with_capacity(alloc, table.states.len())?;
    let mut next: u32 = 0;
    for state in &table.states {
        numbers.push(next)?;
        if is_kept(state) {
            next = next.saturating_add(1);
        }
    }
    Ok(numbers)
}

fn claim_of(
    alloc: Global,
    table: &Table,
    numbers: &[u32],
    state: &State,
) -> Result<Option<StateClaim>, Memory> {
    let end = match &state.end {
        End::Passes(time) => StateEnd::Passes(*time),
        End::Splits { place, children } => {
            let Some(children) = renumber(alloc, table, numbers, children.as_slice())? else {
                return Ok(None);
            };
            StateEnd::Splits {
                place: *place,
                children: Row::from_vec(children),
            }
        }
        _ => return Ok(None),
    };
    Ok(Some(StateClaim {
        entries: Row::from_vec(make_entries(alloc, state.entries.as_slice())?),
        work: state.work,
        end,
    }))
}

fn make_entries(alloc: Global, standings: &[Standing]) -> Result<Vec<StateEntry>, Memory> {
    let mut entries = Vec::with_capacity(alloc, standings.len())?;
    for standing in standings {
        entries.push(StateEntry {
            place: standing.place,
            vertex: standing.vertex,
            offset: standing.offset,
        })?;
    }
    Ok(entries)
}

// The numbers that the children have among the kept states.
fn renumber(
    alloc: Global,
    table: &Table,
    numbers: &[u32],
    children: &[u32],
) -> Result<Option<Vec<u32>>, Memory> {
    let mut all = Vec::with_capacity(alloc, children.len())?;
    for child in children {
        match numbers.get(standing_for(table, *child) as usize) {
            Some(number) => all.push(*number)?,
            None => return Ok(None),
        }
    }
    Ok(Some(all))
}

// The state that stands for one: the one that dominates it where it is dropped, else itself.
fn standing_for(table: &Table, number: u32) -> u32 {
    match table.states.get(number as usize) {
        Some(
            State {
                end: End::Dropped(above),
                ..
            },
        ) => *above,
        _ => number,
    }
}
