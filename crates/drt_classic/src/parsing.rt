//! What a line says, or its fault, given what the lines above leave.
ghost use Rattle.std.specs.Prelude.{◌≡◌, ◌∷◌, [], IsTrue, None, map, nat_le, IfOk};
ghost use Rattle.std.specs.List.{list_all, list_any};
ghost use Rattle.drt_file.specs.trusted.Line.{is_in_range};
ghost use Rattle.drt_file.specs.trusted.Words.{is_number, value};
ghost use Rattle.drt_classic.specs.declared.fault.ClassicError.TheVariants.{Fault};
ghost use Rattle.drt_classic.specs.declared.state.Kind.TheVariants as kinds;
ghost use Rattle.drt_classic.specs.Gives.{GivesClassic, second_word};
ghost use Rattle.drt_classic.specs.ClassicFaults.{
  fault_of_line,
  classic_end_fault,
  first_field,
  frame_fault,
  has_classic_task,
  is_full,
  is_named,
  is_open,
  is_past,
  classic_kind,
  classic_kind_fault,
  multiframe_fault,
  open_fault,
  classic_said_by,
  sporadic_fault,
  classic_task_count,
  unless,
};

use crate::classic::{Classic, Frame, name_of};
use crate::codes::*;
use crate::fault::{ClassicError, ClassicFault};
use crate::line::{all_in_range, all_numbers, all_text, kind_of, past, time};
use crate::state::{Draft, Kind, Line, State};
use drt_file::words::a_name;
use drt_model::{Memory, Name, Row};
use std::alloc::Global;

fn fault(line: u32, code: u8) -> ClassicError
    ensures { result ≡ Fault (record { line = line; code = code }) }
{
    ClassicError::Fault(ClassicFault { line, code })
}

#[tactic(auto, unfolding(crate::specs::ClassicFaults::is_named))]
fn named(name: &[u8], draft: &Draft) -> bool
    ensures { result ≡ is_named name.now draft.now }
{
    name_of(&draft.task) == name
}

fn any_named(name: &[u8], drafts: &[Draft]) -> bool
    ensures { result ≡ list_any (is_named name.now) drafts.now }
{
    for draft in drafts {
        if named(name, draft) {
            return true;
        }
    }
    false
}

// Whether a task of that name stands above.
#[tactic(auto, unfolding(crate::specs::ClassicFaults::has_classic_task, crate::specs::ClassicFaults::in_last))]
fn has_task(name: &[u8], s: &State) -> bool
    ensures { result ≡ has_classic_task name.now s.now }
{
    if any_named(name, s.closed.as_slice()) {
        return true;
    }
    match &s.last {
        Some(draft) => named(name, draft),
        None => false,
    }
}

// Whether 16 tasks stand above.
#[tactic(auto, unfolding(crate::specs::ClassicFaults::classic_task_count))]
fn full(s: &State) -> bool
    ensures { result ≡ nat_le 16 (classic_task_count s.now) }
{
    match &s.last {
        Some(_) => 15 <= s.closed.as_slice().len(),
        None => 16 <= s.closed.as_slice().len(),
    }
}

fn name_from(alloc: Global, word: &[u8]) -> Result<Name, Memory>
    ensures { IfOk result (λ n. n ≡ word.now) }
{
    Ok(Name::from_vec(Vec::from_slice(alloc, word)?))
}

// The frame of three fields in range.
fn frame_from(wcet: &[u8], deadline: &[u8], sep: &[u8]) -> Frame
    requires { IsTrue (list_all is_in_range (wcet.now ∷ deadline.now ∷ sep.now ∷ [])) }
    ensures { result ≡ record { wcet = value wcet.now; deadline = value deadline.now; sep = value sep.now } }
{
    Frame {
        wcet: time(wcet),
        deadline: time(deadline),
        sep: time(sep),
    }
}

// Whether the deadline of a frame, whose fields are in range, is greater than its separation.
fn frame_past(wcet: &[u8], deadline: &[u8], sep: &[u8]) -> bool
    requires { IsTrue (list_all is_in_range (wcet.now ∷ deadline.now ∷ sep.now ∷ [])) }
    ensures { result ≡ is_past deadline.now sep.now }
{
    past(deadline, sep)
}

// The code of the fault of a `sporadic` line of these fields.
#[tactic(auto, unfolding(crate::specs::ClassicFaults::sporadic_fault, crate::specs::ClassicFaults::first_that_holds))]
fn sporadic_fault(s: &State, name: &[u8], wcet: &[u8], deadline: &[u8], period: &[u8]) -> Option<u8>
    ensures code { result ≡ sporadic_fault s.now ([] ∷ name.now ∷ wcet.now ∷ deadline.now ∷ period.now ∷ []) }
    ensures in_range { result ≡ None → IsTrue (list_all is_in_range (wcet.now ∷ deadline.now ∷ period.now ∷ [])) }
{
    if !all_numbers(&[wcet, deadline, period]) {
        return Some(NO_NUMBER);
    }
    if !all_in_range(&[wcet, deadline, period]) {
        return Some(OUT_OF_RANGE);
    }
    if !a_name(name) {
        return Some(NO_NAME);
    }
    if has_task(name, s) {
        return Some(SAME_TASK);
    }
    if frame_past(wcet, deadline, period) {
        return Some(PAST_SEPARATION);
    }
    if full(s) {
        return Some(TOO_MANY_TASKS);
    }
    None
}

// A `sporadic` line.
#[tactic(auto, unfolding(crate::specs::ClassicFaults::sporadic_fault, crate::specs::ClassicFaults::unless, crate::specs::ClassicFaults::classic_said_by))]
fn sporadic_line(alloc: Global, n: u32, s: &State, words: &[&[u8]]) -> Result<Line, ClassicError>
    ensures { GivesClassic result (unless n (sporadic_fault s.now (map (λ w. w.now) words.now)) (classic_said_by kinds.Sporadic (map (λ w. w.now) words.now))) }
{
    match words {
        [_, name, wcet, deadline, period] => match sporadic_fault(s, name, wcet, deadline, period) {
            Some(code) => Err(fault(n, code)),
            None => {
                let name = name_from(alloc, name)?;
                let frame = frame_from(wcet, deadline, period);
                Ok(Line::Task(Classic::Sporadic { name, frame }))
            }
        },
        _ => Err(fault(n, NO_FORM)),
    }
}

// Whether all times of a `multiframe` line are numbers.
fn numbers_from(deadline: &[u8], period: &[u8], wcets: &[&[u8]]) -> bool
    ensures { result ≡ list_all is_number (deadline.now ∷ period.now ∷ map (λ w. w.now) wcets.now) }
{
    all_numbers(&[deadline, period]) && all_numbers(wcets)
}

// Whether all times of a `multiframe` line are in range.
fn in_range_from(deadline: &[u8], period: &[u8], wcets: &[&[u8]]) -> bool
    ensures { result ≡ list_all is_in_range (deadline.now ∷ period.now ∷ map (λ w. w.now) wcets.now) }
{
    all_in_range(&[deadline, period]) && all_in_range(wcets)
}

// The times of fields in range.
fn times_from(alloc: Global, words: &[&[u8]]) -> Result<Row<u32>, Memory>
    requires { IsTrue (list_all is_in_range (map (λ w. w.now) words.now)) }
    ensures { IfOk result (λ times. times ≡ map value (map (λ w. w.now) words.now)) }
{
    let mut times = Vec::new(alloc);
    for word in words {
        times.push(time(word))?;
    }
    Ok(Row::from_vec(times))
}

// The task of a `multiframe` line whose fields are in range.
#[tactic(auto, unfolding(crate::specs::ClassicFaults::classic_said_by))]
fn multiframe_from(
    alloc: Global,
    name: &[u8],
    deadline: &[u8],
    period: &[u8],
    wcets: &[&[u8]],
) -> Result<Line, Memory>
    requires { IsTrue (list_all is_in_range (deadline.now ∷ period.now ∷ map (λ w. w.now) wcets.now)) }
    ensures { IfOk result (λ line. line ≡ classic_said_by kinds.Multiframe ([] ∷ name.now ∷ deadline.now ∷ period.now ∷ map (λ w. w.now) wcets.now)) }
{
    let name = name_from(alloc, name)?;
    let wcets = times_from(alloc, wcets)?;
    Ok(Line::Task(Classic::Multiframe {
        name,
        deadline: time(deadline),
        period: time(period),
        wcets,
    }))
}

// Whether the deadline of a `multiframe` line, whose fields are in range, is greater than the period.
fn multiframe_past(deadline: &[u8], period: &[u8], wcets: &[&[u8]]) -> bool
    requires { IsTrue (list_all is_in_range (deadline.now ∷ period.now ∷ map (λ w. w.now) wcets.now)) }
    ensures { result ≡ is_past deadline.now period.now }
{
    past(deadline, period)
}

// The code of the fault of a `multiframe` line of at least four fields.
#[tactic(auto, unfolding(crate::specs::ClassicFaults::multiframe_fault, crate::specs::ClassicFaults::first_that_holds))]
fn multiframe_fault(
    s: &State,
    name: &[u8],
    deadline: &[u8],
    period: &[u8],
    wcets: &[&[u8]],
) -> Option<u8>
    ensures code { result ≡ multiframe_fault s.now ([] ∷ name.now ∷ deadline.now ∷ period.now ∷ map (λ w. w.now) wcets.now) }
    ensures in_range { result ≡ None → IsTrue (list_all is_in_range (deadline.now ∷ period.now ∷ map (λ w. w.now) wcets.now)) }
{
    if wcets.is_empty() {
        return Some(NO_FORM);
    }
    if !numbers_from(deadline, period, wcets) {
        return Some(NO_NUMBER);
    }
    if !in_range_from(deadline, period, wcets) {
        return Some(OUT_OF_RANGE);
    }
    if !a_name(name) {
        return Some(NO_NAME);
    }
    if has_task(name, s) {
        return Some(SAME_TASK);
    }
    if multiframe_past(deadline, period, wcets) {
        return Some(PAST_SEPARATION);
    }
    if full(s) {
        return Some(TOO_MANY_TASKS);
    }
    if 48 < wcets.len() {
        return Some(TOO_MANY_FRAMES);
    }
    None
}

// A `multiframe` line.
#[tactic(auto, unfolding(crate::specs::ClassicFaults::multiframe_fault, crate::specs::ClassicFaults::unless, crate::specs::ClassicFaults::classic_said_by))]
fn multiframe_line(alloc: Global, n: u32, s: &State, words: &[&[u8]]) -> Result<Line, ClassicError>
    ensures { GivesClassic result (unless n (multiframe_fault s.now (map (λ w. w.now) words.now)) (classic_said_by kinds.Multiframe (map (λ w. w.now) words.now))) }
{
    match words {
        [_, name, deadline, period, wcets @ ..] => {
            match multiframe_fault(s, name, deadline, period, wcets) {
                Some(code) => Err(fault(n, code)),
                None => Ok(multiframe_from(alloc, name, deadline, period, wcets)?),
            }
        }
        _ => Err(fault(n, NO_FORM)),
    }
}

// The code of the fault of a `gmf` or `noncyclic` line of this name.
#[tactic(auto, unfolding(crate::specs::ClassicFaults::open_fault, crate::specs::ClassicFaults::first_that_holds))]
fn open_fault(s: &State, name: &[u8]) -> Option<u8>
    ensures { result ≡ open_fault s.now ([] ∷ name.now ∷ []) }
{
    if !a_name(name) {
        return Some(NO_NAME);
    }
    if has_task(name, s) {
        return Some(SAME_TASK);
    }
    if full(s) {
        return Some(TOO_MANY_TASKS);
    }
    None
}

// The name of a `gmf` or `noncyclic` line, or the fault of the line.
#[tactic(auto, unfolding(crate::specs::ClassicFaults::open_fault, crate::specs::ClassicFaults::unless))]
fn open_name(alloc: Global, n: u32, s: &State, words: &[&[u8]]) -> Result<Name, ClassicError>
    ensures { GivesClassic result (unless n (open_fault s.now (map (λ w. w.now) words.now)) (second_word (map (λ w. w.now) words.now))) }
{
    match words {
        [_, name] => match open_fault(s, name) {
            Some(code) => Err(fault(n, code)),
            None => Ok(name_from(alloc, name)?),
        },
        _ => Err(fault(n, NO_FORM)),
    }
}

// A `gmf` line.
#[tactic(auto, unfolding(crate::specs::ClassicFaults::open_fault, crate::specs::ClassicFaults::unless, crate::specs::ClassicFaults::classic_said_by))]
fn gmf_line(alloc: Global, n: u32, s: &State, words: &[&[u8]]) -> Result<Line, ClassicError>
    ensures { GivesClassic result (unless n (open_fault s.now (map (λ w. w.now) words.now)) (classic_said_by kinds.Gmf (map (λ w. w.now) words.now))) }
{
    let name = open_name(alloc, n, s, words)?;
    Ok(Line::Task(Classic::Cyclic {
        name,
        frames: Row::from_vec(Vec::new(alloc)),
    }))
}

// A `noncyclic` line.
#[tactic(auto, unfolding(crate::specs::ClassicFaults::open_fault, crate::specs::ClassicFaults::unless, crate::specs::ClassicFaults::classic_said_by))]
fn noncyclic_line(alloc: Global, n: u32, s: &State, words: &[&[u8]]) -> Result<Line, ClassicError>
    ensures { GivesClassic result (unless n (open_fault s.now (map (λ w. w.now) words.now)) (classic_said_by kinds.Noncyclic (map (λ w. w.now) words.now))) }
{
    let name = open_name(alloc, n, s, words)?;
    Ok(Line::Task(Classic::Free {
        name,
        frames: Row::from_vec(Vec::new(alloc)),
    }))
}

// Whether lines `frame` may follow the task's line.
#[tactic(auto, unfolding(crate::specs::ClassicFaults::is_open))]
fn open(draft: &Draft) -> bool
    ensures { result ≡ is_open draft.now }
{
    match &draft.task {
        Classic::Sporadic { .. } | Classic::Multiframe { .. } => false,
        Classic::Cyclic { .. } | Classic::Free { .. } => true,
    }
}

// Whether the task has the most frames of its kind.
#[tactic(auto, unfolding(crate::specs::ClassicFaults::is_full))]
fn full_of_frames(draft: &Draft) -> bool
    ensures { result ≡ is_full draft.now }
{
    match &draft.task {
        Classic::Sporadic { .. } => false,
        Classic::Multiframe { wcets, .. } => 48 <= wcets.as_slice().len(),
        Classic::Cyclic { frames, .. } => 48 <= frames.as_slice().len(),
        Classic::Free { frames, .. } => 16 <= frames.as_slice().len(),
    }
}

// The code of the fault of a `frame` line of these fields.
#[tactic(auto, unfolding(crate::specs::ClassicFaults::frame_fault, crate::specs::ClassicFaults::in_last, crate::specs::ClassicFaults::first_that_holds))]
fn frame_fault(s: &State, wcet: &[u8], deadline: &[u8], sep: &[u8]) -> Option<u8>
    ensures code { result ≡ frame_fault s.now ([] ∷ wcet.now ∷ deadline.now ∷ sep.now ∷ []) }
    ensures in_range { result ≡ None → IsTrue (list_all is_in_range (wcet.now ∷ deadline.now ∷ sep.now ∷ [])) }
{
    if !all_numbers(&[wcet, deadline, sep]) {
        return Some(NO_NUMBER);
    }
    if !all_in_range(&[wcet, deadline, sep]) {
        return Some(OUT_OF_RANGE);
    }
    if frame_past(wcet, deadline, sep) {
        return Some(PAST_SEPARATION);
    }
    match &s.last {
        None => Some(NO_OPEN_TASK),
        Some(draft) if !open(draft) => Some(NO_OPEN_TASK),
        Some(draft) if full_of_frames(draft) => Some(TOO_MANY_FRAMES),
        Some(_) => None,
    }
}

// A `frame` line.
#[tactic(auto, unfolding(crate::specs::ClassicFaults::frame_fault, crate::specs::ClassicFaults::unless, crate::specs::ClassicFaults::classic_said_by))]
fn frame_line(n: u32, s: &State, words: &[&[u8]]) -> Result<Line, ClassicError>
    ensures { GivesClassic result (unless n (frame_fault s.now (map (λ w. w.now) words.now)) (classic_said_by kinds.Frame (map (λ w. w.now) words.now))) }
{
    match words {
        [_, wcet, deadline, sep] => match frame_fault(s, wcet, deadline, sep) {
            Some(code) => Err(fault(n, code)),
            None => Ok(Line::Frame(frame_from(wcet, deadline, sep))),
        },
        _ => Err(fault(n, NO_FORM)),
    }
}

// An `end` line.
#[tactic(auto, unfolding(crate::specs::ClassicFaults::classic_end_fault, crate::specs::ClassicFaults::unless, crate::specs::ClassicFaults::classic_said_by))]
fn end_line(n: u32, words: &[&[u8]]) -> Result<Line, ClassicError>
    ensures { GivesClassic result (unless n (classic_end_fault (map (λ w. w.now) words.now)) (classic_said_by kinds.End (map (λ w. w.now) words.now))) }
{
    match words {
        [_] => Ok(Line::End),
        _ => Err(fault(n, NO_FORM)),
    }
}

#[tactic(auto, unfolding(crate::specs::ClassicFaults::classic_kind_fault, crate::specs::ClassicFaults::unless))]
fn line_of_kind(
    alloc: Global,
    n: u32,
    kind: Kind,
    s: &State,
    words: &[&[u8]],
) -> Result<Line, ClassicError>
    ensures { GivesClassic result (unless n (classic_kind_fault kind s.now (map (λ w. w.now) words.now)) (classic_said_by kind (map (λ w. w.now) words.now))) }
{
    match kind {
        Kind::Sporadic => sporadic_line(alloc, n, s, words),
        Kind::Multiframe => multiframe_line(alloc, n, s, words),
        Kind::Gmf => gmf_line(alloc, n, s, words),
        Kind::Noncyclic => noncyclic_line(alloc, n, s, words),
        Kind::Frame => frame_line(n, s, words),
        Kind::End => end_line(n, words),
        Kind::Other => Err(fault(n, NO_KIND)),
    }
}

/// What a line says that isn't skipped and isn't the first such, or its fault.
#[tactic(auto, unfolding(crate::specs::ClassicFaults::fault_of_line, crate::specs::ClassicFaults::unless))]
pub fn parse_line(
    alloc: Global,
    n: u32,
    s: &State,
    line: &[u8],
    words: &[&[u8]],
) -> Result<Line, ClassicError>
    ensures { GivesClassic result (unless n (fault_of_line s.now line.now (map (λ w. w.now) words.now))
        (classic_said_by (classic_kind (first_field (map (λ w. w.now) words.now))) (map (λ w. w.now) words.now))) }
{
    if !all_text(line) {
        return Err(fault(n, NO_TEXT));
    }
    if s.ended {
        return Err(fault(n, AFTER_END));
    }
    line_of_kind(alloc, n, kind_of(words), s, words)
}
