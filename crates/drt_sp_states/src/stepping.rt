//! The least time that passes for a state, and its children where it is split.
use crate::curves::value_before;
use crate::idle::{Idle, Room, crests_before};
use crate::places::{Gaps, Subject, crest_at, curve_at, gap_after, graph_at};
use crate::tables::{Origin, Standing, State, Turn, entry_at, make_child};
use drt_graph::Graph;
use drt_model::Memory;
use std::alloc::Global;

// What a state asks for before `t` at most, beside the places that aren't active. A sum past 2^64 is 2^64 - 1, which is past each deadline.
fn asked_before(subject: Subject<'_>, active: &[u32], state: &State, t: u64) -> u64 {
    state
        .work
        .saturating_add(entries_before(subject, &state.entries, t))
        .saturating_add(begun_before(subject, active, &state.entries, t))
}

// What the entries ask for before `t` at most.
fn entries_before(subject: Subject<'_>, entries: &[Standing], t: u64) -> u64 {
    let mut sum: u64 = 0;
    for entry in entries {
        if entry.offset < t {
            let curve = curve_at(subject, entry.place, entry.vertex);
            sum = sum.saturating_add(value_before(curve, t - entry.offset));
        }
    }
    sum
}

// What the active places without an entry ask for before `t` at most.
fn begun_before(subject: Subject<'_>, active: &[u32], entries: &[Standing], t: u64) -> u64 {
    let mut sum: u64 = 0;
    for place in active {
        if entry_at(entries, *place).is_none() {
            sum = sum.saturating_add(value_before(crest_at(subject, *place), t));
        }
    }
    sum
}

/// The least time up to the deadline that passes for the state, if there is one.
pub(crate) fn least_passing(subject: Subject<'_>, idle: &Idle, state: &State) -> Option<u64> {
    match &idle.rooms {
        None => first_passing(subject),
        Some(rooms) => passing_in(subject, &idle.active, rooms, state),
    }
}

/// The least time up to the deadline that passes for the state without entries and work, if there is one.
pub(crate) fn first_passing(subject: Subject<'_>) -> Option<u64> {
    let wcet = subject.wcet as u64;
    let mut t = wcet.max(1);
    'times: while t <= subject.deadline as u64 {
        let sum = wcet.saturating_add(crests_before(subject, t));
        if sum <= t {
            return Some(t);
        }
        t = sum;
    }
    None
}

// The least time that passes for a state: what the state asks for before it fits into the room there. As it never falls, a time with less
// room than is asked for before an earlier one is passed over. Each step but the last asks for more.
fn passing_in(subject: Subject<'_>, active: &[u32], rooms: &[Room], state: &State) -> Option<u64> {
    let mut t = state.failed.saturating_add(1);
    let mut asked = state.work;
    for _step in 0..subject.deadline {
        t = next_time(rooms, t, asked)?;
        let more = asked_before(subject, active, state, t);
        if more <= asked {
            return Some(t);
        }
        asked = more;
    }
    None
}

// The least time from `t` on that leaves this much room, if there is one.
fn next_time(rooms: &[Room], t: u64, need: u64) -> Option<u64> {
    let first = rooms.partition_point(|room| room.to < t
        || room.to.saturating_sub(room.asked) < need);
    let room = rooms.get(first)?;
    Some(t.max(room.from).max(room.asked.saturating_add(need)))
}

/// The place at which a state is split: the least active one without an entry, else that of the entry with the least next release,
/// where this is before a time.
pub(crate) fn place_to_split(
    gaps: &[Gaps],
    active: &[u32],
    entries: &[Standing],
    until: u64,
) -> Option<u32> {
    for place in active {
        if entry_at(entries, *place).is_none() {
            return Some(*place);
        }
    }
    next_to_move(gaps, entries, until)
}

// The place of the entry with the least next release, where this is before a time.
fn next_to_move(gaps: &[Gaps], entries: &[Standing], until: u64) -> Option<u32> {
    let mut least = until;
    let mut first: Option<u32> = None;
    for entry in entries {
        let next = next_release(gaps, *entry);
        if next < least {
            least = next;
            first = Some(entry.place);
        }
    }
    first
}

// The offset before which the walk of the entry has no further release.
fn next_release(gaps: &[Gaps], entry: Standing) -> u64 {
    match gap_after(gaps, entry.place, entry.vertex) {
        Some(gap) => entry.offset.saturating_add(gap as u64),
        None => u64::MAX,
    }
}

// A state that is split, its number and the place, and the graph of the task there.
#[derive(Clone, Copy)]
struct Fork<'a> {
    state: &'a State,
    origin: Origin,
    graph: &'a Graph,
}

/// The children of a state that is split at a place, in order.
pub(crate) fn make_children(
    alloc: Global,
    subject: Subject<'_>,
    gaps: &[Gaps],
    state: &State,
    origin: Origin,
) -> Result<Vec<State>, Memory> {
    let Some(graph) = graph_at(subject, origin.place) else {
        return Ok(Vec::new(alloc));
    };
    let fork = Fork {
        state,
        origin,
        graph,
    };
    match entry_at(&state.entries, origin.place) {
        None => begin_walks(alloc, fork),
        Some(from) => move_on(alloc, subject, fork, from, next_release(gaps, from)),
    }
}

// The children that begin at each vertex.
fn begin_walks(alloc: Global, fork: Fork<'_>) -> Result<Vec<State>, Memory> {
    let mut children = Vec::new(alloc);
    for vertex in 0..fork.graph.vertex_count() {
        let entry = Standing {
            place: fork.origin.place,
            vertex,
            offset: 0,
        };
        let turn = Turn {
            entry,
            work: 0,
            failed: 0,
        };
        children.push(make_child(alloc, fork.state, fork.origin, turn)?)?;
    }
    Ok(children)
}

// The children that move on by an edge out of the entry's vertex, with a release before the deadline. No time up to `failed` passes for
// them.
fn move_on(
    alloc: Global,
    subject: Subject<'_>,
    fork: Fork<'_>,
    from: Standing,
    failed: u64,
) -> Result<Vec<State>, Memory> {
    let graph = fork.graph;
    let mut children = Vec::new(alloc);
    if from.vertex >= graph.vertex_count() {
        return Ok(children);
    }
    let work = graph.vertex(from.vertex).wcet;
    for k in 0..graph.out_degree(from.vertex) {
        let edge = *graph.out_edge(from.vertex, k);
        let offset = from.offset.saturating_add(edge.sep as u64);
        if offset < subject.deadline as u64 {
            let entry = Standing {
                place: from.place,
                vertex: edge.to,
                offset,
            };
            let turn = Turn {
                entry,
                work,
                failed,
            };
            children.push(make_child(alloc, fork.state, fork.origin, turn)?)?;
        }
    }
    Ok(children)
}
