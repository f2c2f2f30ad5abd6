//! Whether the entries of fronts are within a bound and in order.
ghost use Rattle.std.specs.Prelude.{◌≡◌, ◌↔◌, All, IsTrue, length};
ghost use Rattle.drt_model.specs.Legal.{AllNeighbours};
ghost use Rattle.drt_claims.specs.Fronts.{IsOrdered, IsEntryWithin};
ghost use Rattle.drt_graph.specs.FrontEntry.{IsNextEntry};
ghost use Rattle.drt_claims.specs.Ranges.{IsInRangeEntry};
ghost use Rattle.drt_check_fronts.specs.FrontOrder.{AreFrontsInOrder};

use drt_claims::FrontEntry;
use drt_graph::{Graph, Graphs};
use drt_model::Row;

/// Whether there is a front for each graph, in order within the bound.
pub fn are_in_order(graphs: &Graphs, fronts: &[Row<FrontEntry>], bound: u64) -> bool
    requires { All (All IsInRangeEntry) fronts.now }
    ensures { IsTrue result ↔ AreFrontsInOrder graphs.now bound fronts.now }
{
    if fronts.len() != graphs.count() as usize {
        return false;
    }
    for i in 0..graphs.count() {
        if !is_ordered(graphs.graph(i), fronts[i as usize].as_slice(), bound) {
            return false;
        }
    }
    true
}

fn is_ordered(graph: &Graph, front: &[FrontEntry], bound: u64) -> bool
    requires { All IsInRangeEntry front.now }
    ensures { IsTrue result ↔ IsOrdered bound graph.now front.now }
{
    are_within(graph, front, bound) && are_sorted(front)
}

fn are_within(graph: &Graph, front: &[FrontEntry], bound: u64) -> bool
    requires { All IsInRangeEntry front.now }
    ensures { IsTrue result ↔ All (IsEntryWithin graph.now bound) front.now }
{
    for i in 0..front.len() {
        if !is_within(graph, front[i], bound) {
            return false;
        }
    }
    true
}

fn is_within(graph: &Graph, entry: FrontEntry, bound: u64) -> bool
    requires { IsInRangeEntry entry }
    ensures { IsTrue result ↔ IsEntryWithin graph.now bound entry }
{
    entry.vertex < graph.vertex_count()
        && entry.offset + graph.vertex(entry.vertex).deadline as u64 <= bound
}

fn are_sorted(front: &[FrontEntry]) -> bool
    ensures { IsTrue result ↔ AllNeighbours IsNextEntry front.now }
{
    for i in 1..front.len() {
        if !is_next(front[i - 1], front[i]) {
            return false;
        }
    }
    true
}

fn is_next(entry: FrontEntry, next: FrontEntry) -> bool
    ensures { IsTrue result ↔ IsNextEntry entry next }
{
    entry.vertex < next.vertex
        || (entry.vertex == next.vertex && entry.offset < next.offset && entry.work < next.work)
}
