//! Searches that workers make ahead of the one that is next.
ghost use Rattle.std.specs.Prelude.{◌≡◌, ◌<◌, ◌≤◌, All, IfOk, IfSome, List, length, slice_index_or};
ghost use denote.Param.Send.{IsSync};
ghost use Rattle.drt_ahead.specs.Found.{AreThere};
ghost use Rattle.drt_fixed.specs.Searching.{AreFoundFrom, IsFoundVertex, IsSearchGiven, IsVertexPlaced, no_placed_vertex};
ghost use Rattle.drt_fixed.specs.declared.vertices.Given.{Given};
ghost use Rattle.drt_fixed.specs.declared.vertices.PlacedVertex.{PlacedVertex};

use crate::vertices::{Given, PlacedVertex, search_vertex};
use drt_ahead::{largest_first, look_ahead, take_found};
use drt_crew::Crew;
use drt_model::Memory;
use drt_pool::Gate;
use drt_sp_states::Searched;
use std::alloc::Global;
use std::sync::Wait;
use std::thread::Threads;

/// How many states it is worth threads to share.
pub const ENOUGH_STATES: u64 = 500;

/// How many states a search ahead takes at most, for it may be made for nothing. What takes more is searched by all workers together.
pub const MOST_AHEAD: u64 = 16_384;

/// What is found of the vertices that are left, once the states that the others took tell that it is worth it to look.
#[derive(Drop)]
pub(crate) struct Ahead {
    states: u64,
    is_looked: bool,
    found: Vec<Option<Searched>>,
    // The number of the first of those vertices.
    first: usize,
}

impl Ahead {
    /// Nothing so far.
    pub(crate) fn none(alloc: Global) -> Ahead
        ensures { (given : Given) (vertices : List PlacedVertex) → AreFoundFrom given vertices result.first result.found.items }
    {
        Ahead {
            states: 0,
            is_looked: false,
            found: Vec::new(alloc),
            first: 0,
        }
    }

    // What is found of the vertex of this number.
    fn take(&mut self, number: usize) -> Option<Searched>
        ensures ahead { (given : Given) (vertices : List PlacedVertex) → AreFoundFrom given vertices self.old.first self.old.found.items → AreFoundFrom given vertices self.new.first self.new.found.items }
        ensures found { (given : Given) (vertices : List PlacedVertex) → AreFoundFrom given vertices self.old.first self.old.found.items → IfSome result (IsFoundVertex given (slice_index_or vertices number no_placed_vertex)) }
    {
        if number < self.first {
            return None;
        }
        match u32::try_from(number - self.first) {
            Ok(place) => take_found(&mut self.found, place),
            Err(_) => None,
        }
    }

    // Counts the states of a search.
    fn count(&mut self, searched: &Searched)
        ensures first { self.new.first ≡ self.old.first }
        ensures found { self.new.found.items ≡ self.old.found.items }
    {
        if let Searched::Passes(states) = searched {
            self.states = self.states.saturating_add(states.as_slice().len() as u64);
        }
    }
}

/// The search of the vertex of this number: what is found ahead, or else by all workers together.
pub(crate) fn search_next<G: Gate, R: Threads + Wait + Sync>(
    crew: &Crew<'_, G, R>,
    given: Given<'_>,
    vertices: &[PlacedVertex],
    number: usize,
    ahead: &mut Ahead,
) -> Result<Searched, Memory>
    requires given { IsSearchGiven given }
    requires vertices { All (IsVertexPlaced given) vertices.now }
    requires number { number < length vertices.now }
    requires ahead { AreFoundFrom given vertices.now ahead.old.first ahead.old.found.items }
    ensures ahead { IfOk result (λ searched. AreFoundFrom given.entry vertices.now ahead.new.first ahead.new.found.items) }
    ensures found { IfOk result (IsFoundVertex given.entry (slice_index_or vertices.now number no_placed_vertex)) }
{
    look_from(crew, given, vertices, number, ahead)?;
    match ahead.take(number) {
        Some(Searched::Spent) | None => {}
        Some(searched) => return Ok(searched),
    }
    let searched = search_at(crew, given, vertices, number)?;
    ahead.count(&searched);
    Ok(searched)
}

// The search of the vertex of this number.
fn search_at<G: Gate, R: Threads + Wait + Sync>(
    crew: &Crew<'_, G, R>,
    given: Given<'_>,
    vertices: &[PlacedVertex],
    number: usize,
) -> Result<Searched, Memory>
    requires given { IsSearchGiven given }
    requires vertices { All (IsVertexPlaced given) vertices.now }
    requires number { number < length vertices.now }
    ensures { IfOk result (IsFoundVertex given.entry (slice_index_or vertices.now number no_placed_vertex)) }
{
    search_vertex(crew, given, vertices[number])
}

// Looks ahead from the vertex of this number on, once it is worth it.
fn look_from<G: Gate, R: Threads + Wait + Sync>(
    crew: &Crew<'_, G, R>,
    given: Given<'_>,
    vertices: &[PlacedVertex],
    number: usize,
    ahead: &mut Ahead,
) -> Result<(), Memory>
    requires given { IsSearchGiven given }
    requires vertices { All (IsVertexPlaced given) vertices.now }
    requires number { number < length vertices.now }
    requires ahead { AreFoundFrom given vertices.now ahead.old.first ahead.old.found.items }
    ensures { IfOk result (λ none. AreFoundFrom given.entry vertices.now ahead.new.first ahead.new.found.items) }
{
    if ahead.is_looked || ahead.states < crew.gate.alone().min(ENOUGH_STATES) {
        return Ok(());
    }
    let found = search_ahead(crew, given, &vertices[number..])?;
    ahead.is_looked = true;
    ahead.first = number;
    ahead.found = found;
    Ok(())
}

// The searches of vertices that workers make side by side, each by one of them, those of the latest deadlines first. A search that doesn't
// pass is the last one.
fn search_ahead<G: Gate, R: Threads + Wait + Sync>(
    crew: &Crew<'_, G, R>,
    given: Given<'_>,
    left: &[PlacedVertex],
) -> Result<Vec<Option<Searched>>, Memory>
    requires given { IsSearchGiven given }
    requires left { All (IsVertexPlaced given) left.now }
    ensures { IfOk result (λ found. AreThere (λ i searched. IsFoundVertex given.entry (slice_index_or left.now i no_placed_vertex) searched) found.items) }
{
    let first = latest_first(crew.alloc, left)?;
    let alone = crew.with(crew.effort.alone().at_most(MOST_AHEAD));
    let alone = &alone;
    let job = move |place: u32| -> Result<Searched, Memory>
        requires { IsSync R.row × IsSync G.row × IsSearchGiven given × All (IsVertexPlaced given) left.now × (place < length left.now) }
        ensures { IfOk result (IsFoundVertex given.entry (slice_index_or left.entry.now place no_placed_vertex)) }
    { search_at(alone, given, left, place as usize) };
    look_ahead(crew, first.as_slice(), job, is_last)
}

fn is_last(searched: &Searched) -> bool {
    !matches!(searched, Searched::Passes(_))
}

// The places of vertices, those of the latest deadlines first.
fn latest_first(alloc: Global, left: &[PlacedVertex]) -> Result<Vec<u32>, Memory>
    ensures places { IfOk result (λ places. All (λ i. i < length places.items) places.items) }
    ensures most { IfOk result (λ places. length places.items ≤ length left.now) }
{
    let mut deadlines = Vec::with_capacity(alloc, left.len())?;
    for vertex in left {
        deadlines.push(u64::from(vertex.at.deadline))?;
    }
    largest_first(alloc, deadlines.as_slice())
}
