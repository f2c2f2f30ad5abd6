//! Whether the extensions of the entries are covered.
ghost use Rattle.std.specs.Prelude.{◌≡◌, ℕ, ◌↔◌, ◌<◌, All, IsTrue, length};
ghost use Rattle.drt_model.specs.Digraph.{out_degree, vertex_count};
ghost use Rattle.drt_model.specs.Legal.{AllNeighbours};
ghost use Rattle.drt_model.specs.Each.{Each};
ghost use Rattle.drt_claims.specs.Fronts.{IsClosedFront, IsExtended, IsOrdered};
ghost use Rattle.drt_graph.specs.FrontEntry.{IsNextEntry};
ghost use Rattle.drt_claims.specs.Ranges.{IsInRangeEntry};
ghost use Rattle.drt_check_fronts.specs.FrontOrder.{AreFrontsInOrder};

use crate::covering::is_covered;
use drt_claims::FrontEntry;
use drt_graph::{Graph, Graphs};
use drt_model::Row;

// For how many edges out of a vertex the search begins near where it ended for the entry before.
const EDGES: usize = 64;

/// Whether each front covers the extensions of its entries that are due within the bound.
pub fn are_closed(graphs: &Graphs, fronts: &[Row<FrontEntry>], bound: u64) -> bool
    requires ranges { All (All IsInRangeEntry) fronts.now }
    requires order { AreFrontsInOrder graphs.now bound fronts.now }
    ensures { IsTrue result ↔ Each (IsClosedFront bound) graphs.now fronts.now }
{
    for i in 0..graphs.count() {
        if !is_closed(graphs.graph(i), fronts[i as usize].as_slice(), bound) {
            return false;
        }
    }
    true
}

fn is_closed(graph: &Graph, front: &[FrontEntry], bound: u64) -> bool
    requires ranges { All IsInRangeEntry front.now }
    requires order { IsOrdered bound graph.now front.now }
    ensures { IsTrue result ↔ IsClosedFront bound graph.now front.now }
{
    let mut nears = [0; EDGES];
    for i in 0..front.len() {
        if !is_extended(graph, front, bound, front[i], &mut nears) {
            return false;
        }
    }
    true
}

// Whether each extension of the entry is covered, or due past the bound.
fn is_extended(
    graph: &Graph,
    front: &[FrontEntry],
    bound: u64,
    entry: FrontEntry,
    nears: &mut [usize; EDGES],
) -> bool
    requires range { IsInRangeEntry entry }
    requires order { AllNeighbours IsNextEntry front.now }
    requires vertex { entry.vertex < vertex_count graph.now }
    ensures { IsTrue result ↔ ((k : ℕ) → k < out_degree graph.now entry.vertex → IsExtended bound graph.now front.now entry k) }
{
    for k in 0..graph.out_degree(entry.vertex) {
        if !is_extended_by(graph, front, bound, entry, k, nears) {
            return false;
        }
    }
    true
}

// Whether the extension by the edge of number `k` is covered, or due past the bound.
fn is_extended_by(
    graph: &Graph,
    front: &[FrontEntry],
    bound: u64,
    entry: FrontEntry,
    k: u32,
    nears: &mut [usize; EDGES],
) -> bool
    requires range { IsInRangeEntry entry }
    requires order { AllNeighbours IsNextEntry front.now }
    requires vertex { entry.vertex < vertex_count graph.now }
    requires edge { k < out_degree graph.now entry.vertex }
    ensures { IsTrue result ↔ IsExtended bound graph.now front.now entry k }
{
    graph.keep_limits();
    let edge = graph.out_edge(entry.vertex, k);
    let target = graph.vertex(edge.to);
    let offset = entry.offset + edge.sep as u64;
    let work = entry.work + target.wcet as u64;
    if bound < offset + target.deadline as u64 {
        return true;
    }
    match nears.get_mut(k as usize) {
        Some(near) => is_covered(front, near, edge.to, offset, work),
        None => is_covered(front, &mut 0, edge.to, offset, work),
    }
}
