//! One line of a canonical text: as it is printed, and in the order of print.
ghost use Rattle.std.specs.Prelude.{◌≡◌, ◌||◌, map, bytes_eq, IfOk};
ghost use Rattle.std.specs.List.{join_with_byte};
ghost use Rattle.drt_file.specs.internal.StateFaults.{in_task, is_outside};
ghost use Rattle.drt_file.specs.internal.Steps.{line_step};
ghost use Rattle.drt_file.specs.internal.Strict.{
  is_printed,
  is_whole,
  takes_vertex,
  takes_priority,
  fits,
  fits_below,
  left_by,
  stands,
  strict_words,
  strict_step,
};

use crate::cutting::fields_of;
use crate::fault::FileError;
use crate::line::kind_of;
use crate::printing::push_words;
use crate::reader::Reader;
use crate::state::{Draft, Kind, State};
use crate::steps::line_step;
use crate::words::value_of;
use drt_model::Memory;
use itoa::Buffer;
use std::alloc::Global;

#[tactic(auto, unfolding(crate::specs::internal::Strict::is_printed))]
fn printed(word: &[u8]) -> bool
    ensures { result ≡ is_printed word.now }
{
    let mut number = Buffer::new();
    number.format(value_of(word)).as_bytes() == word
}

#[tactic(auto, unfolding(crate::specs::internal::Strict::is_whole, crate::specs::internal::StateFaults::has_priority))]
fn whole(d: &Draft) -> bool
    ensures { result ≡ is_whole d.now }
{
    d.priority.is_some() && !d.vertices.as_slice().is_empty()
}

#[tactic(auto, unfolding(crate::specs::internal::Strict::takes_vertex, crate::specs::internal::StateFaults::has_priority))]
fn takes_vertex(d: &Draft) -> bool
    ensures { result ≡ takes_vertex d.now }
{
    d.priority.is_some() && d.edges.as_slice().is_empty()
}

#[tactic(auto, unfolding(crate::specs::internal::Strict::takes_priority))]
fn takes_priority(d: &Draft) -> bool
    ensures { result ≡ takes_priority d.now }
{
    d.vertices.as_slice().is_empty() && d.edges.as_slice().is_empty()
}

#[tactic(auto, unfolding(crate::specs::internal::StateFaults::in_task))]
fn in_whole(s: &State) -> bool
    ensures { result ≡ in_task is_whole s.now }
{
    match &s.current {
        Some(d) => whole(d),
        None => false,
    }
}

#[tactic(auto, unfolding(crate::specs::internal::StateFaults::in_task, crate::specs::internal::StateFaults::is_outside))]
fn takes_task(s: &State) -> bool
    ensures { result ≡ (is_outside s.now || in_task is_whole s.now) }
{
    match &s.current {
        Some(d) => whole(d),
        None => true,
    }
}

#[tactic(auto, unfolding(crate::specs::internal::StateFaults::in_task))]
fn before_edges(s: &State) -> bool
    ensures { result ≡ in_task takes_vertex s.now }
{
    match &s.current {
        Some(d) => takes_vertex(d),
        None => false,
    }
}

#[tactic(auto, unfolding(crate::specs::internal::StateFaults::in_task))]
fn before_vertices(s: &State) -> bool
    ensures { result ≡ in_task takes_priority s.now }
{
    match &s.current {
        Some(d) => takes_priority(d),
        None => false,
    }
}

// Whether a line of this kind may stand here in print.
#[tactic(auto, unfolding(crate::specs::internal::Strict::fits))]
fn fits(kind: Kind, s: &State, words: &[&[u8]]) -> bool
    ensures { result ≡ fits kind s.now (map (λ w. w.now) words.now) }
{
    match kind {
        Kind::Task => takes_task(s),
        Kind::Vertex => match words {
            [_, _, wcet, deadline, ..] => before_edges(s) && printed(wcet) && printed(deadline),
            _ => false,
        },
        Kind::Edge => match words {
            [_, _, _, sep, ..] => printed(sep),
            _ => false,
        },
        Kind::Priority => match words {
            [_, number, ..] => before_vertices(s) && printed(number),
            _ => false,
        },
        Kind::End => in_whole(s),
        Kind::Other => false,
    }
}

#[tactic(auto, unfolding(crate::specs::internal::Strict::fits_below))]
fn fits_below(above: &Option<Reader>, words: &[&[u8]]) -> bool
    ensures { result ≡ fits_below above.now (map (λ w. w.now) words.now) }
{
    match above {
        None => true,
        Some(r) => {
            let s = r.state();
            fits(kind_of(s.version, words), s, words)
        }
    }
}

// Whether the line is the fields, parted by one space.
fn joined(alloc: Global, line: &[u8], words: &[&[u8]]) -> Result<bool, Memory>
    ensures { IfOk result (λ b. b ≡ bytes_eq (join_with_byte 32 (map (λ w. w.now) words.now)) line.now) }
{
    let mut text = Vec::new(alloc);
    push_words(&mut text, words)?;
    Ok(text.as_slice() == line)
}

// Whether the line is printed as these fields, and may stand here in print.
#[tactic(auto, unfolding(crate::specs::internal::Strict::stands))]
fn stands(
    alloc: Global,
    above: &Option<Reader>,
    line: &[u8],
    words: &[&[u8]],
) -> Result<bool, Memory>
    ensures { IfOk result (λ b. b ≡ stands above.now line.now (map (λ w. w.now) words.now)) }
{
    Ok(joined(alloc, line, words)? && fits_below(above, words))
}

// What a line of these fields leaves, and none where it has a fault.
#[tactic(auto, unfolding(crate::specs::internal::Strict::left_by))]
fn left_by(
    alloc: Global,
    n: u32,
    above: Option<Reader>,
    line: &[u8],
    words: &[&[u8]],
) -> Result<Option<Reader>, Memory>
    ensures { IfOk result (λ below. below ≡ left_by (line_step n above line.now (map (λ w. w.now) words.now))) }
{
    match line_step(alloc, n, above, line, words) {
        Ok(below) => Ok(below),
        Err(FileError::Fault(_)) => Ok(None),
        Err(FileError::Memory) => Err(Memory),
    }
}

// What a line of these fields leaves, where it stands as in a canonical text.
#[tactic(auto, unfolding(crate::specs::internal::Strict::strict_words))]
fn strict_words(
    alloc: Global,
    n: u32,
    above: Option<Reader>,
    line: &[u8],
    words: &[&[u8]],
) -> Result<Option<Reader>, Memory>
    ensures { IfOk result (λ below. below ≡ strict_words n above line.now (map (λ w. w.now) words.now)) }
{
    match stands(alloc, &above, line, words) {
        Ok(true) => left_by(alloc, n, above, line, words),
        Ok(false) => {
            // One call, where the end of the scope would take the state apart here.
            drop(above);
            Ok(None)
        }
        Err(e) => {
            drop(above);
            Err(e)
        }
    }
}

/// What a line leaves, where it stands as in a canonical text.
#[tactic(auto, unfolding(crate::specs::internal::Strict::strict_step, crate::specs::internal::Strict::strict_words, crate::specs::internal::Strict::stands))]
pub fn strict_step(
    alloc: Global,
    n: u32,
    above: Option<Reader>,
    line: &[u8],
) -> Result<Option<Reader>, Memory>
    ensures { IfOk result (λ below. below ≡ strict_step n above line.now) }
{
    match fields_of(alloc, line) {
        Ok(words) => strict_words(alloc, n, above, line, words.as_slice()),
        Err(e) => {
            drop(above);
            Err(e)
        }
    }
}
