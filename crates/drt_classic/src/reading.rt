//! Reading a classic file: once over its bytes, line by line, down to the first fault.
ghost use Rattle.std.specs.Prelude.{◌≡◌, ◌≤◌, if◌then◌else◌, None, Some, Ok, length, map, IfOk, IfErr};
ghost use Rattle.drt_model.specs.Numbers.{most_text};
ghost use Rattle.drt_file.specs.trusted.Cutting.{lines};
ghost use Rattle.drt_file.specs.trusted.Line.{is_skipped};
ghost use Rattle.drt_classic.specs.ClassicFaults.{
  after_classic_line,
  fault_of_line,
  first_field,
  is_head,
  classic_kind,
  classic_line_step,
  classic_opening,
  read_classic_text,
  classic_said_by,
  classic_step,
  classic_steps,
  unless,
};
ghost use Rattle.drt_classic.specs.ClassicReading.{ReadsClassic, IsClassicCauseOf};
ghost use Rattle.drt_classic.specs.Gives.{GivesClassic};

use crate::classic::{Classic, ClassicSet};
use crate::codes::NO_HEAD;
use crate::effects::{after, open};
use crate::fault::{ClassicError, ClassicFault};
use crate::finishing::finish;
use crate::line::{head, skipped};
use crate::parsing::parse_line;
use crate::state::State;
use drt_file::cutting::{cut_line, fields_of};
use drt_model::Row;
use std::alloc::Global;

// What the first line that isn't skipped leaves, or its fault.
#[tactic(auto, unfolding(crate::specs::ClassicFaults::unless))]
fn first(alloc: Global, n: u32, words: &[&[u8]]) -> Result<Option<State>, ClassicError>
    ensures { GivesClassic result (unless n (if is_head (map (λ w. w.now) words.now) then None else Some 31) (Some classic_opening)) }
{
    if head(words) {
        Ok(Some(open(alloc)))
    } else {
        Err(ClassicError::Fault(ClassicFault {
            line: n,
            code: NO_HEAD,
        }))
    }
}

// What a line below the first leaves, or its fault.
#[tactic(auto, unfolding(crate::specs::ClassicFaults::unless))]
fn below(
    alloc: Global,
    n: u32,
    s: State,
    line: &[u8],
    words: &[&[u8]],
) -> Result<Option<State>, ClassicError>
    ensures { GivesClassic result (unless n (fault_of_line s line.now (map (λ w. w.now) words.now))
        (Some (after_classic_line n s (classic_said_by (classic_kind (first_field (map (λ w. w.now) words.now))) (map (λ w. w.now) words.now))))) }
{
    match parse_line(alloc, n, &s, line, words) {
        Ok(said) => Ok(Some(after(n, s, said)?)),
        Err(e) => {
            // One call, where the end of the scope would take the state apart here.
            drop(s);
            Err(e)
        }
    }
}

// What a line that isn't skipped leaves, or its fault.
#[tactic(auto, unfolding(crate::specs::ClassicFaults::classic_line_step))]
fn line_step(
    alloc: Global,
    n: u32,
    above: Option<State>,
    line: &[u8],
    words: &[&[u8]],
) -> Result<Option<State>, ClassicError>
    ensures { GivesClassic result (classic_line_step n above line.now (map (λ w. w.now) words.now)) }
{
    match above {
        None => first(alloc, n, words),
        Some(s) => below(alloc, n, s, line, words),
    }
}

// What a line of these fields leaves, or its fault.
fn words_step(
    alloc: Global,
    n: u32,
    above: Option<State>,
    line: &[u8],
    words: &[&[u8]],
) -> Result<Option<State>, ClassicError>
    ensures { GivesClassic result (if is_skipped (map (λ w. w.now) words.now) then Ok above else classic_line_step n above line.now (map (λ w. w.now) words.now)) }
{
    if skipped(words) {
        Ok(above)
    } else {
        line_step(alloc, n, above, line, words)
    }
}

#[tactic(auto, unfolding(crate::specs::ClassicFaults::classic_step))]
fn step(
    alloc: Global,
    n: u32,
    above: Option<State>,
    line: &[u8],
) -> Result<Option<State>, ClassicError>
    ensures { GivesClassic result (classic_step n above line.now) }
{
    match fields_of(alloc, line) {
        Ok(words) => words_step(alloc, n, above, line, words.as_slice()),
        Err(_) => {
            drop(above);
            Err(ClassicError::Memory)
        }
    }
}

fn all_lines(alloc: Global, text: &[u8]) -> Result<(u32, Option<State>), ClassicError>
    requires { length text.now ≤ most_text }
    ensures { GivesClassic result (classic_steps 1 None (lines text.now)) }
{
    let mut n: u32 = 1;
    let mut above = None;
    let mut rest = text;
    'lines: while !rest.is_empty() {
        let (line, others) = cut_line(rest);
        above = step(alloc, n, above, line)?;
        n += 1;
        rest = others;
    }
    Ok((n, above))
}

// The tasks that a text says, or its fault.
#[tactic(auto, unfolding(crate::specs::ClassicFaults::read_classic_text))]
fn tasks_of(alloc: Global, bytes: &[u8]) -> Result<Row<Classic>, ClassicError>
    requires { length bytes.now ≤ most_text }
    ensures { GivesClassic result (read_classic_text bytes.now) }
{
    let (n, above) = all_lines(alloc, bytes)?;
    finish(alloc, n, above)
}

/// The classic set that a file says, or the line and the code of its first fault.
///
/// It goes once over the bytes. A name is compared with those of the tasks above, of which there are at
/// most 16.
pub fn read(alloc: Global, bytes: &[u8]) -> Result<ClassicSet, ClassicError>
    requires { length bytes.now ≤ most_text }
    ensures read { IfOk result (λ set. ReadsClassic bytes.now set) }
    ensures fault { IfErr result (IsClassicCauseOf bytes.now) }
{
    let tasks = tasks_of(alloc, bytes)?;
    Ok(ClassicSet { tasks })
}
