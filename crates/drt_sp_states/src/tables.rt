//! The table of states of a search.
use crate::places::{Gaps, least_gap};
use drt_model::Memory;
use std::alloc::Global;
use std::cmp::Reverse;
use std::collections::{BTreeMap, BinaryHeap};

// How many earlier states with equal vertices a state is compared with.
const LOOK_BACK: u32 = 32;

/// Where the walk of a place stands, in an order for look-ups.
#[derive(Debug, Clone, Copy, PartialEq, Eq, PartialOrd, Ord)]
pub(crate) struct Standing {
    pub place: u32,
    pub vertex: u32,
    pub offset: u64,
}

/// What is done at a state.
#[derive(Drop)]
pub(crate) enum End {
    /// Nothing so far.
    Open,
    /// It passes at this time.
    Passes(u64),
    /// It is split at this place; the numbers of its children.
    Splits { place: u32, children: Vec<u32> },
    /// An earlier state dominates it.
    Dropped(u32),
}

/// The state from which another one comes, and the place at which that was split.
#[derive(Clone, Copy)]
pub(crate) struct Origin {
    pub parent: u32,
    pub place: u32,
}

/// A combination of walks.
#[derive(Drop)]
pub(crate) struct State {
    /// Where walks stand, in order of the places.
    pub entries: Vec<Standing>,
    /// The work of the vertices before, in ticks.
    pub work: u64,
    pub origin: Option<Origin>,
    /// No time up to this one passes, since none did for the states from which it comes.
    pub failed: u64,
    /// The state of equal vertices that was taken before it.
    pub before: Option<u32>,
    pub end: End,
}

/// The states of a search, and those that wait, in order of their ranks and then of their numbers. The rank of a state is the sum of its
/// offsets and of the least separations of their places.
#[derive(Drop)]
pub(crate) struct Table {
    pub states: Vec<State>,
    numbers: BTreeMap<Vec<Standing>, u32>,
    latest: BTreeMap<Vec<(u32, u32)>, u32>,
    queue: BinaryHeap<Reverse<(u64, u32)>>,
}

/// A table of the state without entries.
pub(crate) fn open_table(alloc: Global) -> Result<Table, Memory> {
    let mut table = Table {
        states: Vec::new(alloc),
        numbers: BTreeMap::new(alloc),
        latest: BTreeMap::new(alloc),
        queue: BinaryHeap::new(alloc),
    };
    let first = State {
        entries: Vec::new(alloc),
        work: 0,
        origin: None,
        failed: 0,
        before: None,
        end: End::Open,
    };
    let _first = add_state(alloc, &mut table, first, 0)?;
    Ok(table)
}

// The number of a new state; none where there are too many.
fn add_state(
    alloc: Global,
    table: &mut Table,
    state: State,
    rank: u64,
) -> Result<Option<u32>, Memory> {
    let Ok(number) = u32::try_from(table.states.len()) else {
        return Ok(None);
    };
    let key = Vec::from_slice(alloc, state.entries.as_slice())?;
    table.states.push(state)?;
    table.numbers.insert(key, number)?;
    table.queue.push(Reverse((rank, number)))?;
    Ok(Some(number))
}

/// How a walk of a state goes on: where it stands, the work of the vertex before, and a time up to which none passes after it.
#[derive(Clone, Copy)]
pub(crate) struct Turn {
    pub entry: Standing,
    pub work: u32,
    pub failed: u64,
}

/// The child of a state where its walk goes on so. It stands in no table.
pub(crate) fn make_child(
    alloc: Global,
    state: &State,
    origin: Origin,
    turn: Turn,
) -> Result<State, Memory> {
    Ok(State {
        entries: with_entry(alloc, &state.entries, turn.entry)?,
        work: state.work.saturating_add(turn.work as u64),
        origin: Some(origin),
        failed: turn.failed,
        before: None,
        end: End::Open,
    })
}

/// The number of a child in the table. None where there are too many states.
pub(crate) fn offer(
    alloc: Global,
    table: &mut Table,
    gaps: &[Gaps],
    child: State,
) -> Result<Option<u32>, Memory> {
    match table.number_of(&child.entries) {
        Some(number) => {
            raise(table, number, &child);
            Ok(Some(number))
        }
        None => {
            let rank = rank_of(gaps, &child.entries);
            add_state(alloc, table, child, rank)
        }
    }
}

// The entries with this one at its place, in order of the places.
fn with_entry(
    alloc: Global,
    entries: &[Standing],
    entry: Standing,
) -> Result<Vec<Standing>, Memory> {
    let mut all = Vec::with_capacity(alloc, entries.len())?;
    let mut is_put = false;
    for other in entries {
        if !is_put && other.place >= entry.place {
            all.push(entry)?;
            is_put = true;
        }
        if other.place != entry.place {
            all.push(*other)?;
        }
    }
    if !is_put {
        all.push(entry)?;
    }
    Ok(all)
}

/// The entry at a place, if there is one.
pub(crate) fn entry_at(entries: &[Standing], place: u32) -> Option<Standing> {
    for entry in entries {
        if entry.place == place {
            return Some(*entry);
        }
    }
    None
}

fn rank_of(gaps: &[Gaps], entries: &[Standing]) -> u64 {
    let mut rank: u64 = 0;
    for entry in entries {
        rank = rank
            .saturating_add(entry.offset)
            .saturating_add(least_gap(gaps, entry.place));
    }
    rank
}

// Gives the state the child's work where it has less. What failed for the child fails for it.
fn raise(table: &mut Table, number: u32, child: &State) {
    if let Some(state) = table.states.get_mut(number as usize) {
        state.failed = state.failed.max(child.failed);
        if state.work < child.work {
            state.work = child.work;
            state.origin = child.origin;
        }
    }
}

impl Table {
    /// The number of the state of these entries, if there is one.
    fn number_of(&self, entries: &[Standing]) -> Option<u32> {
        self.numbers.get(entries).copied()
    }

    /// Whether no state waits.
    pub(crate) fn is_done(&self) -> bool {
        self.queue.is_empty()
    }

    /// The rank of the first one of the states that wait, if one does.
    pub(crate) fn next_rank(&self) -> Option<u64> {
        match self.queue.peek() {
            Some(Reverse((rank, _))) => Some(*rank),
            None => None,
        }
    }

    /// Takes the first one of the states that wait, where its rank is below this.
    pub(crate) fn take_below(&mut self, end: u64) -> Option<u32> {
        if self.next_rank()? >= end {
            return None;
        }
        match self.queue.pop() {
            Some(Reverse((_, number))) => Some(number),
            None => None,
        }
    }

    /// Says what is done at a state.
    pub(crate) fn set_end(&mut self, number: u32, end: End) {
        if let Some(state) = self.states.get_mut(number as usize) {
            state.end = end;
        }
    }

    // Says which state of equal vertices was taken before.
    fn set_before(&mut self, number: u32, before: Option<u32>) {
        if let Some(state) = self.states.get_mut(number as usize) {
            state.before = before;
        }
    }

    // The last state of these places and vertices that was taken.
    fn latest_of(&self, vertices: &[(u32, u32)]) -> Option<u32> {
        self.latest.get(vertices).copied()
    }

    // The places and vertices of a state.
    fn vertices_at(&self, alloc: Global, number: u32) -> Result<Vec<(u32, u32)>, Memory> {
        match self.states.get(number as usize) {
            Some(state) => vertices_of(alloc, &state.entries),
            None => Ok(Vec::new(alloc)),
        }
    }

    // The last of some states, each with the number of one before it, that dominates the state.
    fn dominating(&self, number: u32, from: Option<u32>) -> Option<u32> {
        let state = self.states.get(number as usize)?;
        let mut next = from;
        for _look in 0..LOOK_BACK {
            let number = next?;
            let other = self.states.get(number as usize)?;
            if dominates(other, state) {
                return Some(number);
            }
            next = other.before;
        }
        None
    }
}

/// Puts the state behind those of equal vertices. Where an earlier one dominates it, it is dropped. Whether it stays.
pub(crate) fn place_state(alloc: Global, table: &mut Table, number: u32) -> Result<bool, Memory> {
    let vertices = table.vertices_at(alloc, number)?;
    let before = table.latest_of(&vertices);
    match table.dominating(number, before) {
        Some(above) => {
            table.set_end(number, End::Dropped(above));
            Ok(false)
        }
        None => {
            table.set_before(number, before);
            table.latest.insert(vertices, number)?;
            Ok(true)
        }
    }
}

// The places and vertices of some entries.
fn vertices_of(alloc: Global, entries: &[Standing]) -> Result<Vec<(u32, u32)>, Memory> {
    let mut vertices = Vec::with_capacity(alloc, entries.len())?;
    for entry in entries {
        vertices.push((entry.place, entry.vertex))?;
    }
    Ok(vertices)
}

// Whether a state dominates another one of equal vertices.
fn dominates(own: &State, other: &State) -> bool {
    own.work >= other.work && are_no_later(own.entries.as_slice(), other.entries.as_slice())
}

fn are_no_later(own: &[Standing], other: &[Standing]) -> bool {
    if own.len() != other.len() {
        return false;
    }
    for i in 0..own.len() {
        if own[i].offset > other[i].offset {
            return false;
        }
    }
    true
}
