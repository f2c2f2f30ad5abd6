//! The set in the middle of a dossier.
ghost use Rattle.std.specs.Prelude.{◌≡◌, ◌≤◌, ◌<◌, ◌+◌, ℕ, List, length, IfOk, IfErr};
ghost use Rattle.drt_model.specs.Numbers.{most_text};
ghost use Rattle.drt_file.specs.trusted.Canonical.{canonical};
ghost use Rattle.drt_file.specs.trusted.CanonicalPrefix.{line_count};
ghost use Rattle.drt_evidence.specs.Blocks.{IsBehind, IsSet, IsStop, ReadsBlock};

use crate::reading::text::{Stop, Text};
use drt_file::{CanonicalError, cut_fed_line, read_canonical};
use drt_model::TaskSet;
use std::alloc::Global;

// How many bytes a text has from a line on, which is counted from 1.
fn bytes_from(text: &[u8], line: u32) -> usize
    requires some { 0 < line }
    requires there { line ≤ line_count text.now + 1 }
    ensures { IsBehind text.now line result }
{
    let mut rest = text;
    for _ in 1..line {
        match cut_fed_line(rest) {
            Some((_, others)) => rest = others,
            None => return rest.len(),
        }
    }
    rest.len()
}

// The set whose canonical text stands at the front of a text.
pub(crate) fn read_set(alloc: Global, text: &mut Text) -> Result<TaskSet, Stop>
    requires { length text.old.rest.now ≤ most_text }
    ensures read { IfOk result (λ x. ReadsBlock canonical IsSet text.old.rest.now x text.new.rest.now) }
    ensures stops { IfErr result (IsStop canonical IsSet text.old.rest.now) }
{
    match read_canonical(alloc, text.rest) {
        Ok(front) => {
            text.rest = &text.rest[front.length as usize..];
            Ok(front.set)
        }
        Err(CanonicalError::Fault { line, missing }) => Err(Stop::Fault {
            left: bytes_from(text.rest, line),
            missing,
        }),
        Err(CanonicalError::Memory) => Err(Stop::Memory),
    }
}
