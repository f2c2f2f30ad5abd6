//! The walk that has all the demand of a time.
ghost use Rattle.std.specs.Prelude.{◌≡◌, ℕ, ◌<◌, ◌↔◌, All, Contains, IfOk, IsTrue};
ghost use Rattle.drt_graph.specs.FrontEntry.{IsNextEntry};
ghost use Rattle.drt_model.specs.Digraph.{IsConstrainedGraph, vertex_count};
ghost use Rattle.drt_model.specs.Legal.{AllNeighbours};
ghost use Rattle.drt_edf_fronts.specs.DemandWalk.{IsGreatestDue, IsLabelBefore, IsPrefixLabel, IsPrefixOf, IsDemandWalkTo, is_below};
ghost use Rattle.drt_edf_fronts.specs.LabelFronts.{IsLabelFront, IsDemandWalk};

use drt_demand::{dbf, is_due};
use drt_graph::{FrontEntry, Graph};
use drt_model::{Memory, Row};
use std::alloc::Global;

// An entry of the front that is due by `t` and has all the demand of `t`; none where that is 0.
fn greatest_due(graph: &Graph, front: &[FrontEntry], t: u64) -> Option<FrontEntry>
    requires { All (λ x. x.vertex < vertex_count graph.now) front.now }
    ensures { IsGreatestDue graph.now front.now t result }
{
    let demand = dbf(graph, front, t);
    'entries: for i in 0..front.len() {
        let entry = front[i];
        if entry.work == demand && is_due(graph, entry, t) {
            return Some(entry);
        }
    }
    None
}

// Whether the entry stands below another place of a front.
fn is_below(entry: &FrontEntry, vertex: u32, offset: u64) -> bool
    ensures { result ≡ is_below entry.now vertex offset }
{
    entry.vertex < vertex || (entry.vertex == vertex && entry.offset < offset)
}

// Whether the entry stands in the front, found by halving it.
fn contains(front: &[FrontEntry], entry: FrontEntry) -> bool
    requires { AllNeighbours IsNextEntry front.now }
    ensures { IsTrue result ↔ Contains front.now entry }
{
    let place = front.partition_point(|x| is_below(x, entry.vertex, entry.offset));
    match front.get(place) {
        Some(found) => *found == entry,
        None => false,
    }
}

// What a walk that comes to the entry by an edge out of `u` has as its label before, where there is such an edge and so
// much offset and work.
fn one_before(graph: &Graph, entry: FrontEntry, u: u32) -> Option<FrontEntry>
    requires vertex { u < vertex_count graph.now }
    requires entry { entry.vertex < vertex_count graph.now }
    ensures { IsLabelBefore graph.now entry u result }
{
    let Some(sep) = graph.separation(u, entry.vertex) else {
        return None;
    };
    let gap = u64::from(sep);
    let wcet = u64::from(graph.vertex(entry.vertex).wcet);
    if entry.offset < gap {
        return None;
    }
    if entry.work < wcet {
        return None;
    }
    Some(FrontEntry {
        vertex: u,
        offset: entry.offset - gap,
        work: entry.work - wcet,
    })
}

// The entry of `u` in the front from which an edge leads to this one, if there is one.
fn prefix_of(graph: &Graph, front: &[FrontEntry], entry: FrontEntry, u: u32) -> Option<FrontEntry>
    requires vertex { u < vertex_count graph.now }
    requires entry { entry.vertex < vertex_count graph.now }
    requires ordered { AllNeighbours IsNextEntry front.now }
    ensures { IsPrefixOf graph.now front.now entry u result }
{
    let Some(before) = one_before(graph, entry, u) else {
        return None;
    };
    if contains(front, before) {
        Some(before)
    } else {
        None
    }
}

// An entry of the front from which an edge leads to this one, which isn't the label of a single vertex.
fn predecessor(graph: &Graph, front: &[FrontEntry], entry: FrontEntry) -> FrontEntry
    requires constrained { IsConstrainedGraph graph.now }
    requires front { (bound : ℕ) × IsLabelFront graph.now bound front.now }
    requires entry { Contains front.now entry }
    requires later { 0 < entry.offset }
    ensures there { Contains front.now result }
    ensures before { IsPrefixLabel graph.now result entry }
{
    let count = graph.vertex_count();
    'vertices: for u in 0..count {
        match prefix_of(graph, front, entry, u) {
            Some(before) => return before,
            None => (),
        }
    }
    unreachable!()
}

// The walk whose label the entry of the front is.
fn walk_to(
    alloc: Global,
    graph: &Graph,
    front: &[FrontEntry],
    last: FrontEntry,
) -> Result<Row<u32>, Memory>
    requires constrained { IsConstrainedGraph graph.now }
    requires front { (bound : ℕ) × IsLabelFront graph.now bound front.now }
    requires entry { Contains front.now last }
    ensures { IfOk result (λ walk. IsDemandWalkTo graph.now last walk) }
{
    graph.keep_limits();
    let mut walk = Vec::new(alloc);
    let mut entry = last;
    walk.push(entry.vertex)?;
    'steps: while entry.offset > 0 {
        entry = predecessor(graph, front, entry);
        walk.push(entry.vertex)?;
    }
    walk.reverse();
    Ok(Row::from_vec(walk))
}

/// A walk of the task that is due by `t` (in ticks, within the bound or not) and has all of its demand at `t`; empty where that
/// is 0. The front is that of all walks of the graph due within some bound.
pub fn demand_walk(
    alloc: Global,
    graph: &Graph,
    front: &[FrontEntry],
    t: u64,
) -> Result<Row<u32>, Memory>
    requires constrained { IsConstrainedGraph graph.now }
    requires front { (bound : ℕ) × IsLabelFront graph.now bound front.now }
    ensures { IfOk result (λ walk. IsDemandWalk graph.now front.now t walk) }
{
    graph.keep_limits();
    match greatest_due(graph, front, t) {
        Some(last) => walk_to(alloc, graph, front, last),
        None => Ok(Row::from_vec(Vec::new(alloc))),
    }
}
