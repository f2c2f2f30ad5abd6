//! Reading a task file: once over its bytes, line by line, down to the first fault.
ghost use Rattle.std.specs.Prelude.{◌≡◌, ◌≤◌, if◌then◌else◌, None, Ok, length, map, IfOk, IfErr};
ghost use Rattle.drt_model.specs.Numbers.{most_text};
ghost use Rattle.drt_file.specs.trusted.Cutting.{lines};
ghost use Rattle.drt_file.specs.trusted.Reading.{Reads, IsCauseOf};
ghost use Rattle.drt_file.specs.trusted.Line.{is_skipped};
ghost use Rattle.drt_file.specs.internal.Steps.{Gives, GivesSet, line_step, read_text, step, steps};

use crate::cutting::{cut_line, fields_of};
use crate::fault::FileError;
use crate::finishing::finish;
use crate::line::skipped;
use crate::reader::Reader;
use crate::steps::line_step;
use drt_model::{Row, Task, TaskSet};
use std::alloc::Global;

// What a line of these fields leaves, or its fault.
fn words_step(
    alloc: Global,
    n: u32,
    above: Option<Reader>,
    line: &[u8],
    words: &[&[u8]],
) -> Result<Option<Reader>, FileError>
    ensures { Gives result (if is_skipped (map (λ w. w.now) words.now) then Ok above else line_step n above line.now (map (λ w. w.now) words.now)) }
{
    if skipped(words) {
        Ok(above)
    } else {
        line_step(alloc, n, above, line, words)
    }
}

#[tactic(auto, unfolding(crate::specs::internal::Steps::step))]
fn step(
    alloc: Global,
    n: u32,
    above: Option<Reader>,
    line: &[u8],
) -> Result<Option<Reader>, FileError>
    ensures { Gives result (step n above line.now) }
{
    match fields_of(alloc, line) {
        Ok(words) => words_step(alloc, n, above, line, words.as_slice()),
        Err(_) => {
            // One call, where the end of the scope would take the state apart here.
            drop(above);
            Err(FileError::Memory)
        }
    }
}

fn all_lines(alloc: Global, text: &[u8]) -> Result<(u32, Option<Reader>), FileError>
    requires { length text.now ≤ most_text }
    ensures { Gives result (steps 1 None (lines text.now)) }
{
    let mut n: u32 = 1;
    let mut above = None;
    let mut rest = text;
    'lines: while !rest.is_empty() {
        let (line, others) = cut_line(rest);
        above = step(alloc, n, above, line)?;
        n += 1;
        rest = others;
    }
    Ok((n, above))
}

// The version and the tasks of the set that a text says, or its fault.
#[tactic(auto, unfolding(crate::specs::internal::Steps::read_text))]
fn parts_of(alloc: Global, bytes: &[u8]) -> Result<(u8, Row<Task>), FileError>
    requires { length bytes.now ≤ most_text }
    ensures { GivesSet result (read_text bytes.now) }
{
    let (n, above) = all_lines(alloc, bytes)?;
    finish(alloc, n, above)
}

/// The set that a task file says, or the line and the code of its first fault.
///
/// It goes once over the bytes. Names are numbered in the order of the file and found by hash, those
/// of tasks among the tasks above, those of vertices among the vertices above in the task.
pub fn read(alloc: Global, bytes: &[u8]) -> Result<TaskSet, FileError>
    requires { length bytes.now ≤ most_text }
    ensures read { IfOk result (λ set. Reads bytes.now set) }
    ensures fault { IfErr result (IsCauseOf bytes.now) }
{
    let (version, tasks) = parts_of(alloc, bytes)?;
    Ok(TaskSet { version, tasks })
}
