//! What a line says, or its fault, given what the lines above leave.
ghost use Rattle.std.specs.Prelude.{◌≡◌, ◌<◌, ◌+◌, ◌==◌, ◌&&◌, ◌∷◌, [], nat_le, map, length, IfOk};
ghost use Rattle.std.specs.List.{list_any};
ghost use Rattle.drt_model.specs.Limits.{most_tasks, most_vertices};
ghost use Rattle.drt_file.specs.declared.fault.FileError.TheVariants.{Fault};
ghost use Rattle.drt_file.specs.declared.state.Kind.TheVariants as kinds;
ghost use Rattle.drt_file.specs.internal.Parsed.{read_as, said_by, parsed};
ghost use Rattle.drt_file.specs.internal.Reader.{own_vertices};
ghost use Rattle.drt_file.specs.internal.StateFaults.{
  has_vertex,
  place_of_name,
  has_edge,
  has_that_priority,
  has_priority,
  is_outside,
  task_count,
  task_fault,
  vertex_fault,
  edge_fault,
  priority_fault,
  end_fault,
  kind_fault,
};
ghost use Rattle.drt_file.specs.internal.Steps.{Gives, narrow};
ghost use Rattle.drt_file.specs.trusted.Words.{is_name};

use crate::codes::*;
use crate::fault::{FileError, FileFault};
use crate::line::{all_text, in_range, kind_of};
use crate::reader::Reader;
use crate::state::{Draft, Kind, Line, State};
use crate::words::{a_name, a_number, value_of};
use drt_model::limits::{most_tasks, most_vertices};
use drt_model::{Edge, Memory, Name, Vertex};
use std::alloc::Global;

#[tactic(auto, unfolding(crate::specs::internal::StateFaults::has_edge))]
fn any_edge(from: usize, to: usize, edges: &[Edge]) -> bool
    ensures { result ≡ has_edge from to edges.now }
{
    for e in edges {
        if e.from as usize == from && e.to as usize == to {
            return true;
        }
    }
    false
}

#[tactic(auto, unfolding(crate::specs::internal::StateFaults::has_that_priority))]
fn that_priority(n: u32, d: &Draft) -> bool
    ensures { result ≡ has_that_priority n d.now }
{
    match d.priority {
        Some(m) => m == n,
        None => false,
    }
}

fn any_priority(n: u32, tasks: &[Draft]) -> bool
    ensures { result ≡ list_any (has_that_priority n) tasks.now }
{
    for d in tasks {
        if that_priority(n, d) {
            return true;
        }
    }
    false
}

fn name_of(alloc: Global, word: &[u8]) -> Result<Name, Memory>
    ensures { IfOk result (λ n. n ≡ word.now) }
{
    Ok(Name::from_vec(Vec::from_slice(alloc, word)?))
}

fn place_in(r: &Reader, name: &[u8]) -> u32
    ensures { result ≡ narrow (place_of_name name.now (own_vertices r.now)) }
{
    r.place(name).min(4294967295) as u32
}

fn fault(line: u32, code: u8) -> FileError
    ensures { result ≡ Fault (record { line = line; code = code }) }
{
    FileError::Fault(FileFault { line, code })
}

// An `end` line.
#[tactic(auto, unfolding(crate::specs::internal::StateFaults::end_fault, crate::specs::internal::Parsed::read_as, crate::specs::internal::Parsed::said_by, crate::specs::internal::StateFaults::first_of))]
fn end_line(n: u32, r: &Reader, words: &[&[u8]]) -> Result<Line, FileError>
    ensures { Gives result (read_as n (end_fault (map (λ w. w.now) words.now)) (said_by kinds.End r.now (map (λ w. w.now) words.now))) }
{
    match words {
        [_] => Ok(Line::End),
        _ => Err(fault(n, NO_FORM)),
    }
}

// The code of the fault of a `vertex` line of these fields.
#[tactic(auto, unfolding(crate::specs::internal::Reader::own_vertices, crate::specs::internal::StateFaults::vertex_fault, crate::specs::internal::StateFaults::in_task, crate::specs::internal::StateFaults::is_outside, crate::specs::internal::StateFaults::first_of))]
fn vertex_fault(r: &Reader, name: &[u8], wcet: &[u8], deadline: &[u8]) -> Option<u8>
    ensures { result ≡ vertex_fault r.now ([] ∷ name.now ∷ wcet.now ∷ deadline.now ∷ []) }
{
    if !(a_number(wcet) && a_number(deadline)) {
        return Some(NO_NUMBER);
    }
    if !(in_range(wcet) && in_range(deadline)) {
        return Some(OUT_OF_RANGE);
    }
    if !a_name(name) {
        return Some(NO_NAME);
    }
    let s = r.state();
    match &s.current {
        None => Some(OUTSIDE),
        Some(_) if r.has_vertex(name) => Some(SAME_VERTEX),
        Some(d) if most_vertices(s.version) <= d.vertices.as_slice().len() => {
            Some(TOO_MANY_VERTICES)
        }
        Some(_) => None,
    }
}

// A `vertex` line.
#[tactic(auto, unfolding(crate::specs::internal::StateFaults::vertex_fault, crate::specs::internal::Parsed::read_as, crate::specs::internal::Parsed::said_by))]
fn vertex_line(alloc: Global, n: u32, r: &Reader, words: &[&[u8]]) -> Result<Line, FileError>
    ensures { Gives result (read_as n (vertex_fault r.now (map (λ w. w.now) words.now)) (said_by kinds.Vertex r.now (map (λ w. w.now) words.now))) }
{
    match words {
        [_, name, wcet, deadline] => match vertex_fault(r, name, wcet, deadline) {
            Some(code) => Err(fault(n, code)),
            None => Ok(Line::Vertex(Vertex {
                name: name_of(alloc, name)?,
                wcet: value_of(wcet),
                deadline: value_of(deadline),
            })),
        },
        _ => Err(fault(n, NO_FORM)),
    }
}

fn both_names(from: &[u8], to: &[u8]) -> bool
    ensures { result ≡ (is_name from.now && is_name to.now) }
{
    a_name(from) && a_name(to)
}

fn both_stand(r: &Reader, from: &[u8], to: &[u8]) -> bool
    ensures { result ≡ (has_vertex from.now (own_vertices r.now) && has_vertex to.now (own_vertices r.now)) }
{
    r.has_vertex(from) && r.has_vertex(to)
}

fn joins(r: &Reader, d: &Draft, from: &[u8], to: &[u8]) -> bool
    ensures { result ≡ has_edge (place_of_name from.now (own_vertices r.now)) (place_of_name to.now (own_vertices r.now)) d.now.edges }
{
    any_edge(r.place(from), r.place(to), d.edges.as_slice())
}

// The code of the fault of an `edge` line of these fields.
#[tactic(auto, unfolding(crate::specs::internal::Reader::own_vertices, crate::specs::internal::StateFaults::edge_fault, crate::specs::internal::StateFaults::in_task, crate::specs::internal::StateFaults::is_outside, crate::specs::internal::StateFaults::first_of))]
fn edge_fault(r: &Reader, from: &[u8], to: &[u8], sep: &[u8]) -> Option<u8>
    ensures { result ≡ edge_fault r.now ([] ∷ from.now ∷ to.now ∷ sep.now ∷ []) }
{
    if !a_number(sep) {
        return Some(NO_NUMBER);
    }
    if !in_range(sep) {
        return Some(OUT_OF_RANGE);
    }
    if !both_names(from, to) {
        return Some(NO_NAME);
    }
    match &r.state().current {
        None => Some(OUTSIDE),
        Some(_) if !both_stand(r, from, to) => Some(NO_VERTEX_OF_NAME),
        Some(d) if joins(r, d, from, to) => Some(SAME_EDGE),
        Some(d) if 256 <= d.edges.as_slice().len() => Some(TOO_MANY_EDGES),
        Some(_) => None,
    }
}

// An `edge` line.
#[tactic(auto, unfolding(crate::specs::internal::StateFaults::edge_fault, crate::specs::internal::Parsed::read_as, crate::specs::internal::Parsed::said_by))]
fn edge_line(n: u32, r: &Reader, words: &[&[u8]]) -> Result<Line, FileError>
    ensures { Gives result (read_as n (edge_fault r.now (map (λ w. w.now) words.now)) (said_by kinds.Edge r.now (map (λ w. w.now) words.now))) }
{
    match words {
        [_, from, to, sep] => match edge_fault(r, from, to, sep) {
            Some(code) => Err(fault(n, code)),
            None => Ok(Line::Edge(Edge {
                from: place_in(r, from),
                to: place_in(r, to),
                sep: value_of(sep),
            })),
        },
        _ => Err(fault(n, NO_FORM)),
    }
}

// The code of the fault of a `priority` line of this field.
#[tactic(auto, unfolding(crate::specs::internal::StateFaults::priority_fault, crate::specs::internal::StateFaults::in_task, crate::specs::internal::StateFaults::is_outside, crate::specs::internal::StateFaults::has_priority, crate::specs::internal::StateFaults::first_of))]
fn priority_fault(s: &State, number: &[u8]) -> Option<u8>
    ensures { result ≡ priority_fault s.now ([] ∷ number.now ∷ []) }
{
    if !a_number(number) {
        return Some(NO_NUMBER);
    }
    if !in_range(number) {
        return Some(OUT_OF_RANGE);
    }
    match &s.current {
        None => Some(OUTSIDE),
        Some(d) if d.priority.is_some() => Some(SECOND_PRIORITY),
        Some(_) if any_priority(value_of(number), s.closed.as_slice()) => Some(SAME_PRIORITY),
        Some(_) => None,
    }
}

// A `priority` line.
#[tactic(auto, unfolding(crate::specs::internal::StateFaults::priority_fault, crate::specs::internal::Parsed::read_as, crate::specs::internal::Parsed::said_by))]
fn priority_line(n: u32, r: &Reader, words: &[&[u8]]) -> Result<Line, FileError>
    ensures { Gives result (read_as n (priority_fault r.now (map (λ w. w.now) words.now)) (said_by kinds.Priority r.now (map (λ w. w.now) words.now))) }
{
    match words {
        [_, number] => match priority_fault(r.state(), number) {
            Some(code) => Err(fault(n, code)),
            None => Ok(Line::Priority(value_of(number))),
        },
        _ => Err(fault(n, NO_FORM)),
    }
}

/// How many `task` lines stand above.
#[tactic(auto, unfolding(crate::specs::internal::StateFaults::task_count, crate::specs::internal::StateFaults::is_outside))]
pub fn count_tasks(s: &State) -> usize
    ensures { result ≡ task_count s.now }
{
    match &s.current {
        Some(_) => s.closed.as_slice().len() + 1,
        None => s.closed.as_slice().len(),
    }
}

fn are_full(s: &State) -> bool
    ensures { result ≡ nat_le (most_tasks s.now.version) (task_count s.now) }
{
    most_tasks(s.version) <= count_tasks(s)
}

// The code of the fault of a `task` line of this field.
#[tactic(auto, unfolding(crate::specs::internal::StateFaults::task_fault, crate::specs::internal::StateFaults::first_of))]
fn task_fault(r: &Reader, name: &[u8]) -> Option<u8>
    ensures { result ≡ task_fault r.now ([] ∷ name.now ∷ []) }
{
    if !a_name(name) {
        return Some(NO_NAME);
    }
    if r.has_task(name) {
        return Some(SAME_TASK);
    }
    if are_full(r.state()) {
        return Some(TOO_MANY_TASKS);
    }
    None
}

// A `task` line.
#[tactic(auto, unfolding(crate::specs::internal::StateFaults::task_fault, crate::specs::internal::Parsed::read_as, crate::specs::internal::Parsed::said_by))]
fn task_line(alloc: Global, n: u32, r: &Reader, words: &[&[u8]]) -> Result<Line, FileError>
    ensures { Gives result (read_as n (task_fault r.now (map (λ w. w.now) words.now)) (said_by kinds.Task r.now (map (λ w. w.now) words.now))) }
{
    match words {
        [_, name] => match task_fault(r, name) {
            Some(code) => Err(fault(n, code)),
            None => Ok(Line::Task(name_of(alloc, name)?)),
        },
        _ => Err(fault(n, NO_FORM)),
    }
}

#[tactic(auto, unfolding(crate::specs::internal::StateFaults::kind_fault, crate::specs::internal::Parsed::read_as))]
fn line_of_kind(
    alloc: Global,
    n: u32,
    kind: Kind,
    r: &Reader,
    words: &[&[u8]],
) -> Result<Line, FileError>
    ensures { Gives result (read_as n (kind_fault kind r.now (map (λ w. w.now) words.now)) (said_by kind r.now (map (λ w. w.now) words.now))) }
{
    match kind {
        Kind::Task => task_line(alloc, n, r, words),
        Kind::Vertex => vertex_line(alloc, n, r, words),
        Kind::Edge => edge_line(n, r, words),
        Kind::Priority => priority_line(n, r, words),
        Kind::End => end_line(n, r, words),
        Kind::Other => Err(fault(n, NO_KIND)),
    }
}

/// What a line says that isn't skipped and isn't the first such, or its fault.
#[tactic(auto, unfolding(crate::specs::internal::StateFaults::line_fault, crate::specs::internal::Parsed::parsed, crate::specs::internal::Parsed::read_as))]
pub fn parse_line(
    alloc: Global,
    n: u32,
    r: &Reader,
    line: &[u8],
    words: &[&[u8]],
) -> Result<Line, FileError>
    ensures { Gives result (parsed n r.now line.now (map (λ w. w.now) words.now)) }
{
    if !all_text(line) {
        return Err(fault(n, NO_TEXT));
    }
    let s = r.state();
    if s.ended {
        return Err(fault(n, AFTER_END));
    }
    line_of_kind(alloc, n, kind_of(s.version, words), r, words)
}
