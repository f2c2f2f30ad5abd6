//! The room between a number that is within and one that isn't, halved.
ghost use Rattle.std.specs.Prelude.{◌≡◌, ◌-◌, ◌≤◌, ◌<◌, ◌⊎◌, IfOk};
ghost use Rattle.drt_margin.specs.Margin.{Halves, plus_set};
ghost use Rattle.drt_margin.specs.Answers.{IsMarginAnswer, IsYesFor};
ghost use Rattle.drt_margin.specs.Steps.{AreNumbersAhead, IsAsked, IsHalf, IsLastShown, IsLeast, IsHalvingRoom, answer_of};

use crate::ahead::{Ahead, look_further, nothing_ahead, take_or_ask};
use crate::answer::{MarginAnswer, Next};
use crate::asking::{Finding, ask};
use crate::question::Question;
use crate::times::{deadline_of, wcet_of};
use drt_claims::Evidence;
use drt_crew::Crew;
use drt_model::{Memory, TaskSet};
use drt_pool::Gate;
use std::sync::Wait;
use std::thread::Threads;

/// The longest execution time, in ticks.
const LONGEST: u32 = 1_000_000;

/// A number that is within, with the evidence of the set with it, and a greater one that isn't, with the evidence where it was tried.
#[derive(Drop)]
pub struct Room {
    pub low: u32,
    pub high: u32,
    pub within: Evidence,
    pub past: Option<Evidence>,
}

/// What one analysis makes of a room.
#[derive(Drop)]
pub enum Half {
    /// A smaller one.
    Open(Room),
    /// The answer.
    Ended(MarginAnswer),
}

/// What is shown of the least number that isn't within.
#[derive(Drop)]
pub enum Last {
    /// This.
    Next(Next),
    /// Nothing: the answer.
    Ended(MarginAnswer),
}

/// The answer for a set that is a yes as it is, and the set.
///
/// With three workers or more the numbers that the next two halvings may ask about are asked about side by side, one by each worker; with seven those of
/// three halvings, and with fifteen those of four. The halvings then take what was found, so they go the way that they go by one worker.
pub fn halve<G: Gate, R: Threads + Wait + Sync>(
    crew: &Crew<'_, G, R>,
    set: TaskSet,
    question: Question,
    evidence: Evidence,
) -> Result<(TaskSet, MarginAnswer), Memory>
    requires asked { IsAsked set question }
    requires yes { IsYesFor question.policy (plus_set set question.task question.vertex 0) evidence }
    ensures same { IfOk result (λ r. r.0 ≡ set) }
    ensures answer { IfOk result (λ r. IsMarginAnswer set question.policy question.task question.vertex crew.now.effort.budget r.1) }
{
    let mut room = open(&set, question, evidence);
    let mut current = set;
    let mut ahead = nothing_ahead(crew.alloc);
    'halving: while room.high - room.low > 1 {
        ahead = look_further(crew, &current, question, &room, ahead)?;
        let (same, half) = narrow(crew, current, question, room, &mut ahead)?;
        current = same;
        match half {
            Half::Open(smaller) => room = smaller,
            Half::Ended(answer) => return Ok((current, answer)),
        }
    }
    close(crew, current, question, room)
}

// The room at first: up to the least number that the deadline doesn't hold.
fn open(set: &TaskSet, question: Question, evidence: Evidence) -> Room
    requires asked { IsAsked set.now question }
    requires yes { IsYesFor question.policy (plus_set set.now question.task question.vertex 0) evidence }
    ensures { IsHalvingRoom set.now question.policy question.task question.vertex result }
{
    let wcet = wcet_of(set, question.task, question.vertex);
    let deadline = deadline_of(set, question.task, question.vertex);
    Room {
        low: 0,
        high: deadline - wcet + 1,
        within: evidence,
        past: None,
    }
}

// What the analysis of the set with the number in the middle makes of a room, and the set.
fn narrow<G: Gate, R: Threads + Wait + Sync>(
    crew: &Crew<'_, G, R>,
    set: TaskSet,
    question: Question,
    room: Room,
    ahead: &mut Ahead,
) -> Result<(TaskSet, Half), Memory>
    requires asked { IsAsked set question }
    requires room { IsHalvingRoom set question.policy question.task question.vertex room }
    requires ahead { AreNumbersAhead set question crew.now.effort.budget ahead.old }
    requires wide { 1 < room.high - room.low }
    ensures same { IfOk result (λ r. r.0 ≡ set) }
    ensures half { IfOk result (λ r. IsHalf set question.policy question.task question.vertex crew.now.effort.budget (room.high - room.low) r.1) }
    ensures ahead { AreNumbersAhead set question crew.now.effort.budget ahead.new }
{
    let add = (room.low + room.high) / 2;
    let (set, finding) = take_or_ask(crew, set, question, add, ahead)?;
    match finding {
        Finding::Yes(evidence) => Ok((set, Half::Open(raise(room, add, evidence)))),
        Finding::Other(evidence) => Ok((set, Half::Open(lower(room, add, evidence)))),
        Finding::Beyond(beyond) => {
            let answer = MarginAnswer::Beyond { add, beyond };
            Ok((set, leave(room, answer)))
        }
        Finding::Undecided(trail) => {
            let answer = MarginAnswer::Undecided { add, trail };
            Ok((set, leave(room, answer)))
        }
    }
}

// The room with a greater lower number.
fn raise(room: Room, add: u32, evidence: Evidence) -> Room
    ensures { result ≡ record { low = add; high = room.high; within = evidence; past = room.past } }
{
    Room {
        low: add,
        high: room.high,
        within: evidence,
        past: room.past,
    }
}

// The room with a lesser higher number.
fn lower(room: Room, add: u32, evidence: Evidence) -> Room
    ensures { result ≡ record { low = room.low; high = add; within = room.within; past = Some evidence } }
{
    Room {
        low: room.low,
        high: add,
        within: room.within,
        past: Some(evidence),
    }
}

// The answer, without the room.
fn leave(_room: Room, answer: MarginAnswer) -> Half
    ensures { result ≡ Half.Ended answer }
{
    Half::Ended(answer)
}

// The answer for two numbers that are next to each other, and the set.
fn close<G: Gate, R: Threads + Wait + Sync>(
    crew: &Crew<'_, G, R>,
    set: TaskSet,
    question: Question,
    room: Room,
) -> Result<(TaskSet, MarginAnswer), Memory>
    requires asked { IsAsked set question }
    requires room { IsHalvingRoom set question.policy question.task question.vertex room }
    requires narrow { room.high - room.low ≤ 1 }
    ensures same { IfOk result (λ r. r.0 ≡ set) }
    ensures answer { IfOk result (λ r. IsMarginAnswer set question.policy question.task question.vertex crew.now.effort.budget r.1) }
{
    let Room {
        low,
        high,
        within,
        past,
    } = room;
    match past {
        Some(evidence) => {
            let last = Last::Next(Next::Shown(evidence));
            Ok((set, answer_with(low, within, last)))
        }
        None => {
            let (set, last) = try_last(crew, set, question, high)?;
            Ok((set, answer_with(low, within, last)))
        }
    }
}

// The margin with what is shown of the number after it, or the answer.
fn answer_with(low: u32, within: Evidence, last: Last) -> MarginAnswer
    ensures { result ≡ answer_of low within last }
{
    match last {
        Last::Next(next) => MarginAnswer::Found {
            add: low,
            within,
            next,
        },
        Last::Ended(answer) => answer,
    }
}

// What is shown of the set with the least number that isn't within, and the set.
fn try_last<G: Gate, R: Threads + Wait + Sync>(
    crew: &Crew<'_, G, R>,
    set: TaskSet,
    question: Question,
    high: u32,
) -> Result<(TaskSet, Last), Memory>
    requires asked { IsAsked set question }
    requires least { IsLeast set question.policy question.task question.vertex high }
    ensures same { IfOk result (λ r. r.0 ≡ set) }
    ensures last { IfOk result (λ r. IsLastShown set question.policy question.task question.vertex crew.now.effort.budget high r.1) }
{
    if wcet_of(&set, question.task, question.vertex) + high > LONGEST {
        return Ok((set, Last::Next(Next::Limit)));
    }
    let (set, finding) = ask(crew, set, question, high)?;
    match finding {
        Finding::Yes(_) => unreachable!(),
        Finding::Other(evidence) => Ok((set, Last::Next(Next::Shown(evidence)))),
        Finding::Beyond(beyond) => {
            let answer = MarginAnswer::Beyond { add: high, beyond };
            Ok((set, Last::Ended(answer)))
        }
        Finding::Undecided(trail) => {
            let answer = MarginAnswer::Undecided { add: high, trail };
            Ok((set, Last::Ended(answer)))
        }
    }
}
