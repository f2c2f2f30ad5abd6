//! Whether the states after a split are dominated.
ghost use Rattle.std.specs.Prelude.{◌≡◌, ℕ, ◌+◌, ◌<◌, ◌≤◌, ◌↔◌, IsTrue, length, slice_index_or};
ghost use Rattle.std.specs.List.{All, AllZip};
ghost use Rattle.drt_model.specs.Digraph.{vertex_count};
ghost use Rattle.drt_states.specs.States.{AreStates, HaveDominatedChildren, IsEntryAbove, IsSplit, IsSplitting, IsState, NamesAbove, children_of, entry_at, with_entry};
ghost use Rattle.drt_check_states.specs.Children.{IsEntryCut, child_of};
ghost use Rattle.drt_check_states.specs.Places.{ArePlacesInOrder, AreTasks, graphs_at, no_entry};

use drt_graph::{Graph, Graphs};
use drt_states::{StateClaim, StateEnd, StateEntry};

/// Whether each state that splits has children, and names for each of them, in order, a state that dominates it. It takes no memory:
/// the entries of a child are those of its state but for one, and are compared as they stand there.
pub fn have_dominated_children(
    graphs: &Graphs,
    order: &[u32],
    deadline: u32,
    states: &[StateClaim],
) -> bool
    requires order { AreTasks graphs.now order.now }
    requires states { AreStates (graphs_at graphs.now order.now) states.now }
    ensures { IsTrue result ↔ HaveDominatedChildren (graphs_at graphs.now order.now) deadline states.now }
{
    for i in 0..states.len() {
        if !is_splitting(graphs, order, deadline, states, &states[i]) {
            return false;
        }
    }
    true
}

fn is_splitting(
    graphs: &Graphs,
    order: &[u32],
    deadline: u32,
    states: &[StateClaim],
    state: &StateClaim,
) -> bool
    requires order { AreTasks graphs.now order.now }
    requires state { IsState (graphs_at graphs.now order.now) state.now }
    ensures { IsTrue result ↔ IsSplitting (graphs_at graphs.now order.now) deadline states.now state.now state.now.end }
{
    match &state.end {
        StateEnd::Passes(_) => true,
        StateEnd::Splits { place, children } => {
            let numbers = children.as_slice();
            is_split(graphs, order, deadline, states, state, *place, numbers)
        }
    }
}

fn is_split(
    graphs: &Graphs,
    order: &[u32],
    deadline: u32,
    states: &[StateClaim],
    state: &StateClaim,
    place: u32,
    numbers: &[u32],
) -> bool
    requires order { AreTasks graphs.now order.now }
    requires state { IsState (graphs_at graphs.now order.now) state.now }
    ensures { IsTrue result ↔ IsSplit (graphs_at graphs.now order.now) deadline states.now state.now place numbers.now }
{
    if place as usize >= order.len() {
        return false;
    }
    if numbers.is_empty() {
        return false;
    }
    let graph = graphs.graph(order[place as usize]);
    are_dominated(graph, deadline, states, state, place, numbers)
}

// Whether the numbers are those of states that dominate the children at the place.
fn are_dominated(
    graph: &Graph,
    deadline: u32,
    states: &[StateClaim],
    state: &StateClaim,
    place: u32,
    numbers: &[u32],
) -> bool
    requires in_order { ArePlacesInOrder state.now.entries }
    requires vertices { All (λ e. e.place ≡ place → e.vertex < vertex_count graph.now) state.now.entries }
    ensures { IsTrue result ↔ AllZip (NamesAbove states.now) (children_of graph.now deadline state.now place (entry_at state.now.entries place)) numbers.now }
{
    let entries = state.entries.as_slice();
    let at = first_from(entries, place);
    if stands_at(entries, at, place) {
        let cut = Cut { at, rest: at + 1 };
        moves_on(graph, deadline, states, state, entries[at], cut, numbers)
    } else {
        let cut = Cut { at, rest: at };
        begins(graph, states, state, place, cut, numbers)
    }
}

// The number of the first entry of this place or a greater one.
fn first_from(entries: &[StateEntry], place: u32) -> usize
    ensures within { result ≤ length entries.now }
    ensures before { (i : ℕ) (d : StateEntry) → i < result → (slice_index_or entries.now i d).place < place }
    ensures after { (d : StateEntry) → result < length entries.now → place ≤ (slice_index_or entries.now result d).place }
{
    for i in 0..entries.len() {
        if entries[i].place >= place {
            return i;
        }
    }
    entries.len()
}

// Whether the entry of that number is there and of this place.
fn stands_at(entries: &[StateEntry], at: usize, place: u32) -> bool
    ensures { IsTrue result ↔ ((at < length entries.now) × ((slice_index_or entries.now at no_entry).place ≡ place)) }
{
    at < entries.len() && entries[at].place == place
}

// Where an entry goes into some others: after so many of them, and before those from a number on.
#[derive(Clone, Copy)]
struct Cut {
    at: usize,
    rest: usize,
}

// A child of a state: the entry that it has at the place, and the work beside that of the state.
#[derive(Clone, Copy)]
struct Turn {
    entry: StateEntry,
    work: u32,
}

// Whether the numbers are those of states that dominate the children that begin at each vertex of the graph.
fn begins(
    graph: &Graph,
    states: &[StateClaim],
    state: &StateClaim,
    place: u32,
    cut: Cut,
    numbers: &[u32],
) -> bool
    requires { IsEntryCut place state.now.entries cut }
    ensures { IsTrue result ↔ AllZip (NamesAbove states.now) (children_of graph.now 0 state.now place None) numbers.now }
{
    let count = graph.vertex_count();
    if numbers.len() != count as usize {
        return false;
    }
    for v in 0..count {
        let entry = StateEntry {
            place,
            vertex: v,
            offset: 0,
        };
        let turn = Turn { entry, work: 0 };
        if !names_above(states, state, cut, turn, numbers[v as usize]) {
            return false;
        }
    }
    true
}

// Whether the numbers are those of states that dominate the children that move on by the edges out of the entry's vertex.
fn moves_on(
    graph: &Graph,
    deadline: u32,
    states: &[StateClaim],
    state: &StateClaim,
    from: StateEntry,
    cut: Cut,
    numbers: &[u32],
) -> bool
    requires vertex { from.vertex < vertex_count graph.now }
    requires cut { IsEntryCut from.place state.now.entries cut }
    ensures { IsTrue result ↔ AllZip (NamesAbove states.now) (children_of graph.now deadline state.now from.place (Some from)) numbers.now }
{
    graph.keep_limits();
    let work = graph.vertex(from.vertex).wcet;
    let mut next = 0;
    for k in 0..graph.out_degree(from.vertex) {
        let edge = *graph.out_edge(from.vertex, k);
        if !is_near(from.offset, edge.sep, deadline) {
            continue;
        }
        if next >= numbers.len() {
            return false;
        }
        let entry = StateEntry {
            place: from.place,
            vertex: edge.to,
            offset: from.offset + edge.sep as u64,
        };
        let turn = Turn { entry, work };
        if !names_above(states, state, cut, turn, numbers[next]) {
            return false;
        }
        next += 1;
    }
    next == numbers.len()
}

// Whether the offset after the separation is below the deadline.
fn is_near(offset: u64, sep: u32, deadline: u32) -> bool
    ensures { IsTrue result ↔ offset + sep < deadline }
{
    offset < deadline as u64 && offset + (sep as u64) < deadline as u64
}

// Whether the number is that of a state that dominates the child.
fn names_above(states: &[StateClaim], state: &StateClaim, cut: Cut, turn: Turn, number: u32) -> bool
    requires { IsEntryCut turn.entry.place state.now.entries cut }
    ensures { IsTrue result ↔ NamesAbove states.now (child_of state.now turn) number }
{
    if number as usize >= states.len() {
        return false;
    }
    let named = &states[number as usize];
    is_no_less(named.work, state.work, turn.work)
        && is_above(
            named.entries.as_slice(),
            state.entries.as_slice(),
            cut,
            turn.entry,
        )
}

// Whether the first number is no less than the sum of the others.
fn is_no_less(all: u64, part: u64, more: u32) -> bool
    ensures { IsTrue result ↔ (part + more ≤ all) }
{
    more as u64 <= all && part <= all - more as u64
}

// Whether the entries are above the other ones with the entry put in.
fn is_above(own: &[StateEntry], other: &[StateEntry], cut: Cut, entry: StateEntry) -> bool
    requires { IsEntryCut entry.place other.now cut }
    ensures { IsTrue result ↔ AllZip IsEntryAbove own.now (with_entry entry other.now) }
{
    if own.len() <= cut.at {
        return false;
    }
    if !is_entry_above(own[cut.at], entry) {
        return false;
    }
    if !are_above(&own[..cut.at], &other[..cut.at]) {
        return false;
    }
    are_above(&own[cut.at + 1..], &other[cut.rest..])
}

fn are_above(own: &[StateEntry], other: &[StateEntry]) -> bool
    ensures { IsTrue result ↔ AllZip IsEntryAbove own.now other.now }
{
    if own.len() != other.len() {
        return false;
    }
    for i in 0..own.len() {
        if !is_entry_above(own[i], other[i]) {
            return false;
        }
    }
    true
}

fn is_entry_above(own: StateEntry, other: StateEntry) -> bool
    ensures { IsTrue result ↔ IsEntryAbove own other }
{
    own.place == other.place && own.vertex == other.vertex && own.offset <= other.offset
}
