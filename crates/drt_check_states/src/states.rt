//! Whether claimed states are states.
ghost use Rattle.std.specs.Prelude.{◌<◌, ◌↔◌, All, IsTrue, length};
ghost use Rattle.drt_states.specs.States.{AreStates, IsEntry, IsOpening, IsState};
ghost use Rattle.drt_check_states.specs.Places.{ArePlacesInOrder, AreTasks, graphs_at};

use drt_graph::Graphs;
use drt_states::{StateClaim, StateEntry};

/// Whether there are states, the first one is without entries and work, and each names vertices of the tasks at its places, which
/// ascend. It takes no memory.
pub fn are_states(graphs: &Graphs, order: &[u32], states: &[StateClaim]) -> bool
    requires { AreTasks graphs.now order.now }
    ensures { IsTrue result ↔ AreStates (graphs_at graphs.now order.now) states.now }
{
    if states.is_empty() || !is_opening(&states[0]) {
        return false;
    }
    for i in 0..states.len() {
        if !is_state(graphs, order, &states[i]) {
            return false;
        }
    }
    true
}

fn is_opening(state: &StateClaim) -> bool
    ensures { IsTrue result ↔ IsOpening state.now }
{
    state.entries.as_slice().is_empty() && state.work == 0
}

fn is_state(graphs: &Graphs, order: &[u32], state: &StateClaim) -> bool
    requires { AreTasks graphs.now order.now }
    ensures { IsTrue result ↔ IsState (graphs_at graphs.now order.now) state.now }
{
    let entries = state.entries.as_slice();
    are_in_order(entries) && are_entries(graphs, order, entries)
}

// Whether the places ascend.
fn are_in_order(entries: &[StateEntry]) -> bool
    ensures { IsTrue result ↔ ArePlacesInOrder entries.now }
{
    for i in 1..entries.len() {
        if entries[i].place <= entries[i - 1].place {
            return false;
        }
    }
    true
}

fn are_entries(graphs: &Graphs, order: &[u32], entries: &[StateEntry]) -> bool
    requires { AreTasks graphs.now order.now }
    ensures { IsTrue result ↔ All (IsEntry (graphs_at graphs.now order.now)) entries.now }
{
    for entry in entries {
        if !is_entry(graphs, order, *entry) {
            return false;
        }
    }
    true
}

// Whether the entry names a vertex of the task at a place.
fn is_entry(graphs: &Graphs, order: &[u32], entry: StateEntry) -> bool
    requires { AreTasks graphs.now order.now }
    ensures { IsTrue result ↔ IsEntry (graphs_at graphs.now order.now) entry }
{
    let place = entry.place as usize;
    if place >= order.len() {
        return false;
    }
    entry.vertex < graphs.graph(order[place]).vertex_count()
}
