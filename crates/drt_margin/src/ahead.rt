//! Numbers that workers ask about ahead, side by side.
ghost use Rattle.std.specs.Prelude.{◌≡◌, ℕ, ◌+◌, ◌<◌, ◌≤◌, All, IfOk, IfSome, None, Some, length, slice_index, slice_index_or};
ghost use Rattle.drt_model.specs.Numbers.{most_time};
ghost use denote.Param.Send.{IsSync};
ghost use Rattle.drt_model.specs.Contents.{Contents};
ghost use Rattle.drt_margin.specs.Margin.{plus_set, wcet_at};
ghost use Rattle.drt_margin.specs.Steps.{AreNumbersAhead, AreAskable, IsAsked, IsFinding, IsHalvingRoom};
ghost use Rattle.drt_margin.specs.declared.asking.Finding.{Finding as Found};
ghost use Rattle.drt_margin.specs.declared.question.Question.{Question as Asked};

use crate::asking::{Finding, ask};
use crate::halving::Room;
use crate::middles::next_middles;
use crate::question::Question;
use crate::size::is_large;
use drt_ahead::{look_ahead, take_found};
use drt_crew::Crew;
use drt_model::{Memory, TaskSet};
use drt_pool::{Gate, OpenGate};
use drt_priorities::copy_of;
use std::alloc::Global;
use std::sync::Wait;
use std::thread::{Threads, available_parallelism};

/// Numbers, and what workers found of the sets with so many ticks more.
#[derive(Drop)]
pub struct Ahead {
    pub numbers: Vec<u32>,
    pub found: Vec<Option<Finding>>,
}

/// Nothing was asked ahead.
pub(crate) fn nothing_ahead(alloc: Global) -> Ahead
    ensures { (set : Contents) (question : Asked) (budget : ℕ) → AreNumbersAhead set question budget result }
{
    Ahead {
        numbers: Vec::new(alloc),
        found: Vec::new(alloc),
    }
}

/// Asks ahead about the numbers that the next halvings of a room may ask about, unless the next one was among the last. A small set isn't worth
/// other workers.
pub(crate) fn look_further<G: Gate, R: Threads + Wait + Sync>(
    crew: &Crew<'_, G, R>,
    set: &TaskSet,
    question: Question,
    room: &Room,
    ahead: Ahead,
) -> Result<Ahead, Memory>
    requires asked { IsAsked set.now question }
    requires room { IsHalvingRoom set.now question.policy question.task question.vertex room.now }
    requires ahead { AreNumbersAhead set.now question crew.now.effort.budget ahead }
    ensures { IfOk result (AreNumbersAhead set.now question crew.now.effort.budget) }
{
    let next = (room.low + room.high) / 2;
    if place_of(&ahead.numbers, next).is_some() {
        return Ok(ahead);
    }
    if crew.gate.alone() > 0 && !is_large(&room.within) {
        return Ok(ahead);
    }
    let count = number_count(worker_count(crew));
    let numbers = next_middles(crew.alloc, room.low, room.high, count)?;
    let found = ask_apart(crew, set, question, &numbers)?;
    Ok(Ahead { numbers, found })
}

/// What was found ahead of the set with so many ticks more, or else what is found of it now; and the set as it was.
pub(crate) fn take_or_ask<G: Gate, R: Threads + Wait + Sync>(
    crew: &Crew<'_, G, R>,
    set: TaskSet,
    question: Question,
    add: u32,
    ahead: &mut Ahead,
) -> Result<(TaskSet, Finding), Memory>
    requires asked { IsAsked set question }
    requires limit { wcet_at set.tasks question.task question.vertex + add ≤ most_time }
    requires ahead { AreNumbersAhead set question crew.now.effort.budget ahead.old }
    ensures same { IfOk result (λ r. r.0 ≡ set) }
    ensures finding { IfOk result (λ r. IsFinding question.policy (plus_set set question.task question.vertex add) crew.now.effort.budget r.1) }
    ensures ahead { AreNumbersAhead set question crew.now.effort.budget ahead.new }
{
    if let Some(place) = place_of(&ahead.numbers, add) {
        if let Some(finding) = take_found(&mut ahead.found, place) {
            return Ok((set, finding));
        }
    }
    ask(crew, set, question, add)
}

// The place of a number among these.
fn place_of(numbers: &[u32], number: u32) -> Option<u32>
    ensures { IfSome result (λ i. slice_index numbers.now i ≡ number) }
{
    for (i, other) in numbers.iter().enumerate() {
        if *other == number {
            return u32::try_from(i).ok();
        }
    }
    None
}

// How many workers ask side by side: no more than there are processors, unless the gate may wait for another worker.
fn worker_count<G: Gate, R: Threads>(crew: &Crew<'_, G, R>) -> usize {
    let most = crew.effort.workers() as usize;
    if crew.gate.alone() == 0 {
        return most;
    }
    match available_parallelism(crew.rt) {
        Ok(processors) => most.min(processors.get()),
        Err(_) => 1,
    }
}

// How many numbers are asked about side by side: all that some halvings may ask about, and one by each worker at most.
fn number_count(workers: usize) -> usize
    ensures { result ≤ 15 }
{
    match workers {
        0..=2 => 0,
        3..=6 => 3,
        7..=14 => 7,
        _ => 15,
    }
}

// What workers find of the sets with so many ticks more, side by side, each at its place.
fn ask_apart<G: Gate, R: Threads + Wait + Sync>(
    crew: &Crew<'_, G, R>,
    set: &TaskSet,
    question: Question,
    numbers: &[u32],
) -> Result<Vec<Option<Finding>>, Memory>
    requires asked { IsAsked set.now question }
    requires numbers { AreAskable set.now question numbers.now }
    requires few { length numbers.now ≤ 15 }
    ensures { IfOk result (λ found. (i : ℕ) (finding : Found) → slice_index_or found.items i None ≡ Some finding
        → IsFinding question.policy (plus_set set.now question.task question.vertex (slice_index numbers.now i)) crew.now.effort.budget finding) }
{
    let alone = Crew {
        rt: crew.rt,
        alloc: crew.alloc,
        effort: crew.effort.alone(),
        gate: &OpenGate,
    };
    let order = all_places(crew.alloc, numbers)?;
    let ask_place = |place: u32| -> Result<Finding, Memory>
        requires { IsSync R.row × IsAsked set.now question × AreAskable set.now question numbers.now × (place < length numbers.now) }
        ensures { IfOk result (IsFinding question.policy (plus_set set.entry.now question.task question.vertex (slice_index numbers.entry.now place)) alone.entry.effort.budget) }
    { ask_copy(&alone, set, question, numbers[place as usize]) };
    look_ahead(crew, &order, ask_place, ends_nothing)
}

// The places of all numbers.
fn all_places(alloc: Global, numbers: &[u32]) -> Result<Vec<u32>, Memory>
    requires { length numbers.now ≤ 15 }
    ensures count { IfOk result (λ places. length places.items ≡ length numbers.now) }
    ensures each { IfOk result (λ places. All (λ i. i < length numbers.now) places.items) }
{
    (0..numbers.len() as u32).collect(alloc)
}

// What one worker finds of a copy of the set with so many ticks more.
fn ask_copy<G: Gate, R: Threads + Wait + Sync>(
    crew: &Crew<'_, G, R>,
    set: &TaskSet,
    question: Question,
    add: u32,
) -> Result<Finding, Memory>
    requires asked { IsAsked set.now question }
    requires limit { wcet_at set.now.tasks question.task question.vertex + add ≤ most_time }
    ensures { IfOk result (IsFinding question.policy (plus_set set.now question.task question.vertex add) crew.now.effort.budget) }
{
    let (_, finding) = ask(crew, copy_of(crew.alloc, set)?, question, add)?;
    Ok(finding)
}

// Each number may still be asked about, whatever was found of another.
fn ends_nothing(_finding: &Finding) -> bool {
    false
}
