//! What workers find of the states of a wave, side by side.
ghost use Rattle.std.specs.Prelude.{◌≡◌, ◌<◌, ◌≤◌, IfOk, length};

use crate::looking::{Found, View, look_at};
use drt_crew::Crew;
use drt_model::Memory;
use drt_pool::{Gate, Turn, Work, run_all};
use std::alloc::Global;
use std::sync::Wait;
use std::thread::Threads;

// How many states there are for each worker at least.
const LEAST_PART: usize = 64;
// How many states the caller looks at alone before other workers begin.
const ALONE: u64 = 16;

// What the workers share: a wave, and what they read of its states.
#[derive(Drop)]
struct Looking<'a> {
    alloc: Global,
    view: View<'a>,
    numbers: &'a [u32],
}

// A part of a wave: the place of the next state, the end, and what is found so far.
#[derive(Drop)]
struct Part {
    next: usize,
    end: usize,
    found: Vec<Found>,
    // Memory ran out.
    is_short: bool,
}

impl Looking<'_> {
    // Finds something of the next state of a part.
    fn add_next(&self, part: &mut Part) -> Result<(), Memory> {
        if let Some(number) = self.numbers.get(part.next) {
            part.found.push(look_at(self.alloc, self.view, *number)?)?;
        }
        part.next = part.next.saturating_add(1);
        Ok(())
    }
}

impl Work for Looking<'_> {
    type Pass = Part;

    ghost fits = { λ looking place part. Unit {0} };

    ghost ended = { λ looking place part. Unit {0} };

    // A turn looks at one state.
    fn turn<R: Wait>(&self, _rt: &R, part: &mut Part) -> Turn {
        if part.next >= part.end {
            return Turn::Stop;
        }
        match self.add_next(part) {
            Ok(()) => Turn::More,
            Err(_) => {
                part.is_short = true;
                Turn::Stop
            }
        }
    }
}

// It leaves the caller few turns alone, for a turn is some microseconds.
#[derive(Drop)]
struct Soon<'a, G: Gate> {
    gate: &'a G,
}

impl<G: Gate> Gate for Soon<'_, G> {
    fn before(&self, worker: u32, turn: u64) {
        self.gate.before(worker, turn);
    }

    fn alone(&self) -> u64 {
        self.gate.alone().min(ALONE)
    }
}

/// What is found of the states of a wave, in order.
pub(crate) fn look_at_all<G: Gate, R: Threads + Wait + Sync>(
    crew: &Crew<'_, G, R>,
    view: View<'_>,
    numbers: &[u32],
) -> Result<Vec<Found>, Memory> {
    let looking = Looking {
        alloc: crew.alloc,
        view,
        numbers,
    };
    let workers = crew.effort.workers();
    let count = (numbers.len() / LEAST_PART).min(workers as usize);
    if count < 2 {
        look_alone(looking)
    } else {
        look_together(crew, looking, count)
    }
}

fn look_alone(looking: Looking<'_>) -> Result<Vec<Found>, Memory> {
    let mut found = Vec::with_capacity(looking.alloc, looking.numbers.len())?;
    for number in looking.numbers {
        found.push(look_at(looking.alloc, looking.view, *number)?)?;
    }
    Ok(found)
}

// So many workers look, each at a part.
fn look_together<G: Gate, R: Threads + Wait + Sync>(
    crew: &Crew<'_, G, R>,
    looking: Looking<'_>,
    count: usize,
) -> Result<Vec<Found>, Memory>
    requires some { 0 < count }
    requires few { count ≤ 16 }
{
    let mut parts = deal(looking.alloc, looking.numbers.len(), count)?;
    let gate = Soon { gate: crew.gate };
    run_all(crew.rt, &looking, parts.as_mut_slice(), &gate);
    let mut all = Vec::with_capacity(looking.alloc, looking.numbers.len())?;
    for mut part in parts {
        if part.is_short {
            return Err(Memory);
        }
        all.append(&mut part.found)?;
    }
    Ok(all)
}

// Parts of a wave of so many states, one behind the other.
fn deal(alloc: Global, states: usize, count: usize) -> Result<Vec<Part>, Memory>
    requires { 0 < count }
    ensures { IfOk result (λ parts. length parts.items ≡ count) }
{
    let size = states.div_ceil(count);
    let mut parts = Vec::with_capacity(alloc, count)?;
    for part in 0..count {
        let next = size.saturating_mul(part);
        parts.push(Part {
            next,
            end: next.saturating_add(size).min(states),
            found: Vec::new(alloc),
            is_short: false,
        })?;
    }
    Ok(parts)
}
