//! One line of a task file, below what the lines above leave.
ghost use Rattle.std.specs.Prelude.{◌≡◌, map};
ghost use Rattle.drt_file.specs.internal.StateFaults.{line_fault};
ghost use Rattle.drt_file.specs.internal.Kinds.{kind, first_word};
ghost use Rattle.drt_file.specs.internal.Steps.{Gives, after_kind, judged, headed, head, line_step};

use crate::codes::NO_HEAD;
use crate::effects::{after, head};
use crate::fault::{FileError, FileFault};
use crate::parsing::parse_line;
use crate::reader::Reader;
use std::alloc::Global;

#[tactic(auto, unfolding(crate::specs::internal::Steps::judged))]
fn below(
    alloc: Global,
    n: u32,
    r: Reader,
    line: &[u8],
    words: &[&[u8]],
) -> Result<Option<Reader>, FileError>
    ensures { Gives result (judged n (line_fault r line.now (map (λ w. w.now) words.now))
        (after_kind (kind r.version (first_word (map (λ w. w.now) words.now))) n r (map (λ w. w.now) words.now))) }
{
    match parse_line(alloc, n, &r, line, words) {
        Ok(said) => Ok(Some(after(alloc, n, r, said)?)),
        Err(e) => {
            // One call, where the end of the scope would take the state apart here.
            drop(r);
            Err(e)
        }
    }
}

#[tactic(auto, unfolding(crate::specs::internal::Steps::headed))]
fn first(alloc: Global, n: u32, words: &[&[u8]]) -> Result<Option<Reader>, FileError>
    ensures { Gives result (headed n (head (map (λ w. w.now) words.now))) }
{
    match head(alloc, words) {
        Some(r) => Ok(Some(r)),
        None => Err(FileError::Fault(FileFault {
            line: n,
            code: NO_HEAD,
        })),
    }
}

/// What a line that isn't skipped leaves, or its fault.
#[tactic(auto, unfolding(crate::specs::internal::Steps::line_step))]
pub fn line_step(
    alloc: Global,
    n: u32,
    above: Option<Reader>,
    line: &[u8],
    words: &[&[u8]],
) -> Result<Option<Reader>, FileError>
    ensures { Gives result (line_step n above line.now (map (λ w. w.now) words.now)) }
{
    match above {
        None => first(alloc, n, words),
        Some(r) => below(alloc, n, r, line, words),
    }
}
