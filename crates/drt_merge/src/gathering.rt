//! The front of merged lists.
ghost use Rattle.std.specs.Prelude.{◌≡◌, ◌+◌, ◌<◌, ◌≤◌, IfOk, length};
ghost use Rattle.drt_model.specs.Digraph.{Digraph, vertex_count};
ghost use Rattle.drt_merge.specs.Marks.{AreRows};
ghost use Rattle.drt_merge.specs.Gathered.{AreMarksGathered, AreMarkEntries};

use crate::lists::Lists;
use drt_graph::{FrontEntry, Graph};
use drt_model::Memory;
use std::alloc::Global;

// Adds the entries of a vertex.
fn add_row(
    graph: &Graph,
    bound: u64,
    lists: &Lists,
    vertex: u32,
    entries: &mut Vec<FrontEntry>,
) -> Result<(), Memory>
    requires rows { AreRows graph.now bound lists.now }
    requires vertex { vertex < vertex_count graph.now }
    requires gathered { AreMarksGathered lists.now vertex 0 entries.old.items }
    ensures { IfOk result (λ r. AreMarksGathered lists.now (vertex + 1) 0 entries.new.items) }
{
    let count = lists.len(vertex);
    'marks: for place in 0..count {
        let mark = lists.mark(vertex, place);
        entries.push(FrontEntry {
            vertex,
            offset: mark.offset,
            work: mark.work,
        })?;
    }
    Ok(())
}

// How many marks there are: the room that their entries need.
fn room_for(lists: &Lists, count: u32) -> usize
    requires { count ≤ length lists.now }
{
    let mut room = 0usize;
    'vertices: for vertex in 0..count {
        room = room.saturating_add(lists.len(vertex));
    }
    room
}

/// The entries of the lists, in order of vertices and then of offsets.
pub fn entries_of(
    alloc: Global,
    graph: &Graph,
    bound: u64,
    lists: &Lists,
) -> Result<Vec<FrontEntry>, Memory>
    requires rows { AreRows graph.now bound lists.now }
    ensures { IfOk result (λ entries. AreMarkEntries lists.now entries.items) }
{
    let count = graph.vertex_count();
    let mut entries = Vec::with_capacity(alloc, room_for(lists, count))?;
    'vertices: for vertex in 0..count {
        add_row(graph, bound, lists, vertex, &mut entries)?;
    }
    Ok(entries)
}
