//! The candidates of the arcs.
ghost use Rattle.std.specs.Prelude.{◌≡◌, ◌<◌, ◌≤◌, ◌↔◌, IfOk, IfSome, IsTrue, length};
ghost use Rattle.drt_model.specs.Numbers.{most_horizon};
ghost use Rattle.drt_merge.specs.Arcs.{AreArcs};
ghost use Rattle.drt_merge.specs.Arcs.{IsArc};
ghost use Rattle.drt_merge.specs.Marks.{row, AreRows};
ghost use Rattle.drt_merge.specs.Merging.{IsMerging, IsCandidate, AreCoveredFrom, AreSpentTo};

use crate::arcs::Arc;
use crate::lists::Lists;
use crate::mark::Mark;
use crate::offering::{Offered, is_over, offer};
use crate::queue::Queue;
use drt_graph::Graph;
use drt_model::Memory;

/// What is merged: the walks of a graph that are due within the bound, in ticks; with its arcs, and the number of the first arc out of each
/// vertex.
#[derive(Clone, Copy)]
pub struct Walks<'a> {
    pub graph: &'a Graph,
    pub bound: u64,
    pub arcs: &'a [Arc],
    pub starts: &'a [u32],
}

/// How far the merging has come: the marks of each vertex, the cursor of each arc, and the arcs' candidates.
#[derive(Drop)]
pub struct Merging {
    pub lists: Lists,
    pub cursors: Vec<usize>,
    pub queue: Queue,
}

// The candidate that the mark at a place gives by an arc, where it is due within the bound.
fn candidate(graph: &Graph, bound: u64, lists: &Lists, arc: Arc, place: usize) -> Option<Mark>
    requires bound { bound ≤ most_horizon }
    requires arc { IsArc graph.now arc }
    requires rows { AreRows graph.now bound lists.now }
    ensures candidate { IsCandidate bound lists.now arc place result }
    ensures fits { IfSome result (λ mark. place < 18446744073709551615) }
{
    if place >= lists.len(arc.source) {
        return None;
    }
    let mark = lists.mark(arc.source, place);
    let offset = mark.offset + u64::from(arc.sep);
    if offset + u64::from(arc.deadline) > bound {
        return None;
    }
    Some(Mark {
        offset,
        work: mark.work + u64::from(arc.wcet),
    })
}

// The first place from this one on whose candidate by the arc isn't covered by the last mark of the arc's target.
fn first_uncovered(graph: &Graph, bound: u64, lists: &Lists, arc: Arc, from: usize) -> usize
    requires bound { bound ≤ most_horizon }
    requires arc { IsArc graph.now arc }
    requires rows { AreRows graph.now bound lists.now }
    requires place { from ≤ length (row lists.now arc.source) }
    ensures within { result ≤ length (row lists.now arc.source) }
    ensures covered { AreCoveredFrom lists.now arc from result }
{
    graph.keep_limits();
    let Some(last) = lists.last(arc.target) else {
        return from;
    };
    let mut place = from;
    'marks: while place < lists.len(arc.source) {
        match candidate(graph, bound, lists, arc, place) {
            Some(mark) => {
                if !is_over(last, mark) {
                    return place;
                }
            }
            None => return place,
        }
        place += 1;
    }
    place
}

/// Moves the cursor of an arc past the marks whose candidates are covered, and sets the next candidate in the queue.
pub fn refresh(walks: Walks<'_>, merging: &mut Merging, k: u32)
    requires bound { walks.bound ≤ most_horizon }
    requires arcs { AreArcs walks.graph.now walks.arcs.now }
    requires merging { IsMerging walks.graph.now walks.bound walks.arcs.now merging.old.lists merging.old.cursors.items }
    requires arc { k < length walks.arcs.now }
    ensures { IsMerging walks.entry.graph.now walks.entry.bound walks.entry.arcs.now merging.new.lists merging.new.cursors.items }
{
    let arc = walks.arcs[k as usize];
    let from = merging.cursors[k as usize];
    let place = first_uncovered(walks.graph, walks.bound, &merging.lists, arc, from);
    merging.cursors[k as usize] = place;
    let next = candidate(walks.graph, walks.bound, &merging.lists, arc, place);
    merging.queue.set(k, next);
}

/// Does the same for each arc without a candidate, of those with a number of at least `from` and below `to`.
pub fn wake(walks: Walks<'_>, merging: &mut Merging, from: u32, to: u32)
    requires bound { walks.bound ≤ most_horizon }
    requires arcs { AreArcs walks.graph.now walks.arcs.now }
    requires merging { IsMerging walks.graph.now walks.bound walks.arcs.now merging.old.lists merging.old.cursors.items }
    requires within { to ≤ length walks.arcs.now }
    ensures { IsMerging walks.entry.graph.now walks.entry.bound walks.entry.arcs.now merging.new.lists merging.new.cursors.items }
{
    'arcs: for k in from..to {
        if !merging.queue.has(k) {
            refresh(walks, merging, k);
        }
    }
}

/// Offers the candidate of an arc.
pub fn step(walks: Walks<'_>, merging: &mut Merging, k: u32) -> Result<Offered, Memory>
    requires bound { walks.bound ≤ most_horizon }
    requires arcs { AreArcs walks.graph.now walks.arcs.now }
    requires merging { IsMerging walks.graph.now walks.bound walks.arcs.now merging.old.lists merging.old.cursors.items }
    requires arc { k < length walks.arcs.now }
    ensures { IfOk result (λ offer. IsMerging walks.entry.graph.now walks.entry.bound walks.entry.arcs.now merging.new.lists merging.new.cursors.items) }
{
    let Walks { graph, bound, .. } = walks;
    graph.keep_limits();
    let arc = walks.arcs[k as usize];
    let place = merging.cursors[k as usize];
    let Some(mark) = candidate(graph, bound, &merging.lists, arc, place) else {
        return Ok(Offered::Astray);
    };
    let offered = offer(graph, bound, &mut merging.lists, arc.target, mark)?;
    match offered {
        Offered::Kept => {
            merging.cursors[k as usize] = place + 1;
            Ok(Offered::Kept)
        }
        Offered::Covered => {
            merging.cursors[k as usize] = place + 1;
            Ok(Offered::Covered)
        }
        Offered::Astray => Ok(Offered::Astray),
    }
}

/// Whether no arc has a candidate.
pub fn are_spent(walks: Walks<'_>, merging: &Merging) -> bool
    requires bound { walks.bound ≤ most_horizon }
    requires arcs { AreArcs walks.graph.now walks.arcs.now }
    requires merging { IsMerging walks.graph.now walks.bound walks.arcs.now merging.now.lists merging.now.cursors.items }
    ensures { IsTrue result ↔ AreSpentTo walks.entry.bound walks.entry.arcs.now merging.now.lists merging.now.cursors.items (length walks.entry.arcs.now) }
{
    'arcs: for k in 0..walks.arcs.len() {
        let place = merging.cursors[k];
        match candidate(
            walks.graph,
            walks.bound,
            &merging.lists,
            walks.arcs[k],
            place,
        ) {
            Some(_) => return false,
            None => (),
        }
    }
    true
}
