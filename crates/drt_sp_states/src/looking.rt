//! What is found of a state.
use crate::idle::Idle;
use crate::places::{Gaps, Subject};
use crate::stepping::{least_passing, make_children, place_to_split};
use crate::tables::{Origin, State};
use drt_model::Memory;
use std::alloc::Global;

/// What a search is to find.
#[derive(Drop, Clone, Copy)]
pub(crate) enum Aim {
    /// For each state a time up to the deadline that passes.
    Deadline,
    /// The greatest of the least times that pass for walks. Some walks reach this one.
    Response { reached: u64 },
}

impl Aim {
    /// Whether nothing further is to be found of a state whose least passing time is this.
    pub(crate) fn is_met(self, time: u64) -> bool {
        match self {
            Aim::Deadline => true,
            Aim::Response { reached } => time <= reached,
        }
    }
}

/// What is read to find something of a state.
#[derive(Clone, Copy)]
pub(crate) struct View<'a> {
    pub subject: Subject<'a>,
    pub gaps: &'a [Gaps],
    pub idle: &'a Idle,
    pub states: &'a [State],
    pub aim: Aim,
}

/// What is found of the state of this number.
#[derive(Drop)]
pub(crate) struct Found {
    pub number: u32,
    /// Its least passing time, if one is up to the deadline.
    pub time: Option<u64>,
    pub step: Step,
}

/// What is to be done at a state.
#[derive(Drop)]
pub(crate) enum Step {
    /// Nothing: its least passing time meets the aim.
    Passes,
    /// It is split at this place into these children.
    Splits { place: u32, children: Vec<State> },
    /// It can't be split, so that its trial says how the search goes on.
    Stops,
}

impl Found {
    /// Whether the state can't be split.
    pub(crate) fn is_stopped(&self) -> bool {
        match self.step {
            Step::Stops => true,
            _ => false,
        }
    }

    /// Whether the least passing time meets the aim.
    pub(crate) fn is_met(&self, aim: Aim) -> bool {
        match self.time {
            Some(time) => aim.is_met(time),
            None => false,
        }
    }
}

/// What is found of the state of this number.
pub(crate) fn look_at(alloc: Global, view: View<'_>, number: u32) -> Result<Found, Memory> {
    let Some(state) = view.states.get(number as usize) else {
        return Ok(Found {
            number,
            time: None,
            step: Step::Stops,
        });
    };
    let time = least_passing(view.subject, view.idle, state);
    let step = step_at(alloc, view, number, state, time)?;
    Ok(Found { number, time, step })
}

// What is to be done at a state of this least passing time.
fn step_at(
    alloc: Global,
    view: View<'_>,
    number: u32,
    state: &State,
    time: Option<u64>,
) -> Result<Step, Memory> {
    let until = match time {
        Some(time) if view.aim.is_met(time) => return Ok(Step::Passes),
        Some(time) => time,
        None => view.subject.deadline as u64,
    };
    let Some(place) = place_to_split(view.gaps, &view.idle.active, &state.entries, until) else {
        return Ok(Step::Stops);
    };
    let origin = Origin {
        parent: number,
        place,
    };
    let children = make_children(alloc, view.subject, view.gaps, state, origin)?;
    Ok(Step::Splits { place, children })
}
