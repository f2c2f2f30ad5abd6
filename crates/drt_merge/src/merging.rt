//! The front of a task's walks.
ghost use Rattle.std.specs.Prelude.{◌≡◌, ◌*◌, ◌<◌, ◌≤◌, true, IfOk, IfSome, length};
ghost use Rattle.drt_model.specs.Numbers.{most_horizon};
ghost use Rattle.drt_effort.specs.Efforts.{most_budget};
ghost use Rattle.drt_model.specs.Digraph.{IsConstrainedGraph, vertex_count};
ghost use Rattle.drt_merge.specs.Arcs.{AreArcs};
ghost use Rattle.drt_merge.specs.Marks.{AreRows, AreOpenedTo};
ghost use Rattle.drt_merge.specs.Merging.{IsMerging, AreMerged};
ghost use Rattle.drt_merge.specs.Gathered.{IsMergedFront};

use crate::arcs::arcs_of;
use crate::gathering::entries_of;
use crate::lists::Lists;
use crate::offering::Offered;
use crate::opening::open_all;
use crate::queue::Queue;
use crate::streams::{Merging, Walks, are_spent, refresh, step, wake};
use drt_graph::{FrontEntry, Graph};
use drt_model::{Memory, Row};
use std::alloc::Global;

// The number of the first arc out of each vertex, and at last the number of arcs.
fn starts_of(alloc: Global, graph: &Graph) -> Result<Vec<u32>, Memory> {
    let count = graph.vertex_count();
    let mut starts = Vec::with_capacity(alloc, count as usize + 1)?;
    let mut start: u32 = 0;
    'vertices: for v in 0..count {
        starts.push(start)?;
        start = start.saturating_add(graph.out_degree(v));
    }
    starts.push(start)?;
    Ok(starts)
}

// The number of the first arc out of a vertex, or of no arc.
fn start_at(starts: &[u32], vertex: u32, most: u32) -> u32
    ensures { result ≤ most }
{
    match starts.get(vertex as usize) {
        Some(start) => most.min(*start),
        None => most,
    }
}

/// How long the lists are merged.
#[derive(Debug, Drop, Clone, Copy, PartialEq, Eq)]
pub enum Patience {
    /// As long as the budget lasts.
    ToTheEnd,
    /// As long as the budget lasts, and it is likely to last to the end: not where it is spent much faster than the offsets grow.
    WhileHopeful,
}

// Takes the candidate of an arc. Returns the steps that count for it, or None where it comes out of order.
fn take(walks: Walks<'_>, merging: &mut Merging, k: u32) -> Result<Option<u64>, Memory>
    requires bound { walks.bound ≤ most_horizon }
    requires arcs { AreArcs walks.graph.now walks.arcs.now }
    requires count { length walks.arcs.now ≤ 65535 }
    requires arc { k < length walks.arcs.now }
    requires merging { IsMerging walks.graph.now walks.bound walks.arcs.now merging.old.lists merging.old.cursors.items }
    ensures merging { IfOk result (λ r. IsMerging walks.entry.graph.now walks.entry.bound walks.entry.arcs.now merging.new.lists merging.new.cursors.items) }
    ensures few { IfOk result (λ r. IfSome r (λ steps. steps ≤ 65537)) }
{
    let count = walks.arcs.len() as u32;
    let target = walks.arcs[k as usize].target;
    match step(walks, merging, k)? {
        Offered::Kept => {
            let from = start_at(walks.starts, target, count);
            let to = start_at(walks.starts, target.saturating_add(1), count);
            wake(walks, merging, from, to);
            refresh(walks, merging, k);
            Ok(Some(u64::from(to.saturating_sub(from)) + 2))
        }
        Offered::Covered => {
            refresh(walks, merging, k);
            Ok(Some(0))
        }
        Offered::Astray => Ok(None),
    }
}

// Whether the budget is unlikely to last to the bound, where so many steps led to this offset: a sixteenth of it and more is spent, and at
// this rate it would last for less than four fifths of the bound.
fn is_hopeless(steps: u64, budget: u64, offset: u64, bound: u64) -> bool {
    let whole = steps.saturating_mul(bound).saturating_mul(4);
    steps >= budget / 16 && whole > offset.saturating_mul(budget).saturating_mul(5)
}

// Takes the candidates in turn, as long as their steps are within the budget. True where no candidate is left.
fn take_all(
    walks: Walks<'_>,
    merging: &mut Merging,
    spent: u64,
    budget: u64,
    patience: Patience,
) -> Result<bool, Memory>
    requires bound { walks.bound ≤ most_horizon }
    requires few { budget ≤ most_budget }
    requires steps { spent ≤ budget }
    requires arcs { AreArcs walks.graph.now walks.arcs.now }
    requires count { length walks.arcs.now ≤ 65535 }
    requires merging { IsMerging walks.graph.now walks.bound walks.arcs.now merging.old.lists merging.old.cursors.items }
    ensures { IfOk result (λ r. IsMerging walks.entry.graph.now walks.entry.bound walks.entry.arcs.now merging.new.lists merging.new.cursors.items) }
{
    let count = walks.arcs.len() as u32;
    let mut steps = spent;
    'turns: for _turn in 0..budget {
        let Some(k) = merging.queue.first() else {
            return Ok(true);
        };
        if k >= count {
            return Ok(false);
        }
        let offset = merging.queue.offset(k);
        if patience == Patience::WhileHopeful && is_hopeless(steps, budget, offset, walks.bound) {
            return Ok(false);
        }
        match take(walks, merging, k)? {
            Some(more) => {
                steps += more;
                if steps > budget {
                    return Ok(false);
                }
            }
            None => return Ok(false),
        }
    }
    Ok(true)
}

// Takes the candidates, and looks at each arc whether a candidate is left.
fn finish(
    walks: Walks<'_>,
    merging: &mut Merging,
    spent: u64,
    budget: u64,
    patience: Patience,
) -> Result<bool, Memory>
    requires bound { walks.bound ≤ most_horizon }
    requires few { budget ≤ most_budget }
    requires steps { spent ≤ budget }
    requires arcs { AreArcs walks.graph.now walks.arcs.now }
    requires count { length walks.arcs.now ≤ 65535 }
    requires merging { IsMerging walks.graph.now walks.bound walks.arcs.now merging.old.lists merging.old.cursors.items }
    ensures { IfOk result (λ r. r ≡ true → AreMerged walks.entry.graph.now walks.entry.bound merging.new.lists) }
{
    wake(walks, merging, 0, walks.arcs.len() as u32);
    if !take_all(walks, merging, spent, budget, patience)? {
        return Ok(false);
    }
    Ok(are_spent(walks, merging))
}

// The lists with the marks of one vertex, and the steps that count for these.
#[derive(Drop)]
struct Opened {
    lists: Lists,
    spent: u64,
}

// The merged lists, where the budget is enough.
fn merge(
    alloc: Global,
    graph: &Graph,
    bound: u64,
    opened: Opened,
    budget: u64,
    patience: Patience,
) -> Result<Option<Lists>, Memory>
    requires bound { bound ≤ most_horizon }
    requires few { budget ≤ most_budget }
    requires steps { opened.spent ≤ budget }
    requires rows { AreRows graph.now bound opened.lists }
    requires opened { AreOpenedTo graph.now bound (vertex_count graph.now) opened.lists }
    ensures { IfOk result (λ r. IfSome r (AreMerged graph.now bound)) }
{
    let arcs = arcs_of(alloc, graph)?;
    if arcs.len() > 65535 {
        return Ok(None);
    }
    let starts = starts_of(alloc, graph)?;
    let walks = Walks {
        graph,
        bound,
        arcs: &arcs,
        starts: &starts,
    };
    let Opened { lists, spent } = opened;
    let mut merging = Merging {
        lists,
        cursors: vec![in alloc; 0usize; arcs.len()]?,
        queue: Queue::new(alloc, arcs.len() as u32)?,
    };
    if finish(walks, &mut merging, spent, budget, patience)? {
        Ok(Some(merging.lists))
    } else {
        Ok(None)
    }
}

/// The front of the walks of a graph that are due within the bound, in ticks. None where its labels count more steps than the budget: two for
/// each label, and one for each edge out of its vertex; or where patience ends before.
pub fn merged_front(
    alloc: Global,
    graph: &Graph,
    bound: u64,
    budget: u64,
    patience: Patience,
) -> Result<Option<Row<FrontEntry>>, Memory>
    requires constrained { IsConstrainedGraph graph.now }
    requires bound { bound ≤ most_horizon }
    requires few { budget ≤ most_budget }
    ensures { IfOk result (λ r. IfSome r (IsMergedFront graph.now bound)) }
{
    let count = graph.vertex_count();
    let mut lists = Lists::new(alloc, count)?;
    let Some(spent) = open_all(graph, bound, &mut lists)? else {
        return Ok(None);
    };
    if spent > budget {
        return Ok(None);
    }
    let opened = Opened { lists, spent };
    let Some(lists) = merge(alloc, graph, bound, opened, budget, patience)? else {
        return Ok(None);
    };
    let front = entries_of(alloc, graph, bound, &lists)?;
    // A dossier counts no more entries.
    if front.len() > 4294967295 {
        return Ok(None);
    }
    Ok(Some(Row::from_vec(front)))
}
