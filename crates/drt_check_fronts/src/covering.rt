//! The search for an entry that covers a label.
ghost use Rattle.std.specs.Prelude.{◌≡◌, ◌↔◌, ◌≤◌, Any, IsTrue, length, true};
ghost use Rattle.std.specs.List.{AllWithin};
ghost use Rattle.drt_model.specs.Legal.{AllNeighbours};
ghost use Rattle.drt_graph.specs.FrontEntry.{IsNextEntry, Covers};
ghost use Rattle.drt_check_fronts.specs.FrontOrder.{IsPlace, is_up_to};

use drt_claims::FrontEntry;

// How many entries are looked at from a place on before the search by halving.
const FEW: usize = 8;

// Whether the entry stands at or before where one of this vertex and offset would.
fn is_up_to(entry: FrontEntry, vertex: u32, offset: u64) -> bool
    ensures { result ≡ is_up_to vertex offset entry }
{
    entry.vertex < vertex || (entry.vertex == vertex && entry.offset <= offset)
}

// How many entries stand at or before where one of this vertex and offset would, by halving.
fn place_by_halving(front: &[FrontEntry], vertex: u32, offset: u64) -> usize
    requires { AllNeighbours IsNextEntry front.now }
    ensures { IsPlace vertex offset front.now result }
{
    front.partition_point(|entry| {
        entry.vertex < vertex || (entry.vertex == vertex && entry.offset <= offset)
    })
}

// Whether at least so many entries stand there or before.
fn is_reached(front: &[FrontEntry], place: usize, vertex: u32, offset: u64) -> bool
    requires { AllNeighbours IsNextEntry front.now }
    ensures bound { IsTrue result → place ≤ length front.now }
    ensures before { IsTrue result → AllWithin (λ entry. is_up_to vertex offset entry ≡ true) front.now 0 place }
{
    if place == 0 {
        return true;
    }
    if place > front.len() {
        return false;
    }
    is_up_to(front[place - 1], vertex, offset)
}

// How many entries stand there or before. It is found at once where it is `from`, or a few more.
fn place_from(front: &[FrontEntry], from: usize, vertex: u32, offset: u64) -> usize
    requires { AllNeighbours IsNextEntry front.now }
    ensures { IsPlace vertex offset front.now result }
{
    if is_reached(front, from, vertex, offset) {
        let end = from.saturating_add(FEW).min(front.len());
        'few: for place in from..end {
            if !is_up_to(front[place], vertex, offset) {
                return place;
            }
        }
    }
    place_by_halving(front, vertex, offset)
}

/// Whether an entry of the front is of this vertex, has at most this offset and at least this work. Where there is one, the last
/// entry of the vertex up to the offset is one too, since works rise with offsets. The search for that one begins near the entry
/// before which the last search ended, so that labels in order of offset are found by a few looks each.
pub(crate) fn is_covered(
    front: &[FrontEntry],
    near: &mut usize,
    vertex: u32,
    offset: u64,
    work: u64,
) -> bool
    requires { AllNeighbours IsNextEntry front.now }
    ensures { IsTrue result ↔ Any (Covers vertex offset work) front.now }
{
    let after = place_from(front, *near, vertex, offset);
    *near = after;
    if after == 0 {
        return false;
    }
    let last = front[after - 1];
    last.vertex == vertex && work <= last.work
}
