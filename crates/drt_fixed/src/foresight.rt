//! Whether a first attempt by trees would be for nothing.
//!
//! The table of a task keeps each walk that asks for more than all walks that end at its vertex no later, and takes two
//! steps for it and one for each edge out of the vertex. Merging keeps these walks alone, in a fraction of the time. Where
//! they take more steps than a first attempt has, so does the table; and where no vertex down to that task can fail, since
//! even the walks of most work above it leave it time, the attempt ends there, undecided. Nothing rests on this: a set that
//! is thought to be beyond trees is decided by states, or by trees with the whole budget.

use drt_accepted::Accepted;
use drt_check_trees::{greatest_deadline, priority_order};
use drt_graph::{FrontEntry, Graph};
use drt_merge::{Patience, merged_front};
use drt_model::{Memory, Row};
use drt_sp::ALLOWANCE;
use drt_tails::latest_deadline;
use std::alloc::Global;

// How often a time is put off to the work that is asked for before it.
const MOST_ROUNDS: u32 = 1_000;

// What the walks of a task ask for at most: walks in order of offset, each with the most work of those up to it. All walks
// with offsets below `until` are among them.
#[derive(Drop)]
struct Curve {
    until: u64,
    walks: Vec<FrontEntry>,
}

/// Whether a first attempt by trees is bound to spend its steps before it finds an answer.
pub fn is_beyond_trees(alloc: Global, set: &Accepted<'_>) -> Result<bool, Memory> {
    let ranked = priority_order(alloc, set.set())?;
    let order = ranked.as_slice();
    let graphs = set.graphs();
    let bound = u64::from(greatest_deadline(set.set()));
    let mut above = Vec::new(alloc);
    // The task of the lowest priority has no table.
    for place in 0..order.len().saturating_sub(1) {
        let task = order[place];
        if task >= graphs.count() {
            return Ok(false);
        }
        let graph = graphs.graph(task);
        if !all_pass(graph, above.as_slice()) {
            return Ok(false);
        }
        match merged_front(alloc, graph, bound, ALLOWANCE, Patience::ToTheEnd)? {
            Some(front) => above.push(curve_of(graph, bound, front)?)?,
            None => return Ok(true),
        }
    }
    Ok(false)
}

// Whether each vertex of a graph meets its deadline below walks of these tasks.
fn all_pass(graph: &Graph, above: &[Curve]) -> bool {
    for vertex in 0..graph.vertex_count() {
        let job = graph.vertex(vertex);
        if !passes(u64::from(job.wcet), u64::from(job.deadline), above) {
            return false;
        }
    }
    true
}

// Whether some time up to the deadline has room for the job and for the most work of these tasks, all in ticks.
fn passes(wcet: u64, deadline: u64, above: &[Curve]) -> bool {
    let mut time = wcet;
    for _round in 0..MOST_ROUNDS {
        let Some(work) = work_before(above, time) else {
            return false;
        };
        let needed = work.saturating_add(wcet);
        if needed <= time {
            return true;
        }
        if needed > deadline {
            return false;
        }
        time = needed;
    }
    false
}

// The most work that walks of these tasks ask for before a time, where it is known.
fn work_before(above: &[Curve], time: u64) -> Option<u64> {
    let mut sum = 0u64;
    for curve in above {
        if time > curve.until {
            return None;
        }
        sum = sum.saturating_add(most_before(&curve.walks, time));
    }
    Some(sum)
}

// The work of the last of these walks that begins its last job before the time.
fn most_before(walks: &[FrontEntry], time: u64) -> u64 {
    let place = walks.partition_point(|walk| walk.offset < time);
    if place == 0 {
        return 0;
    }
    match walks.get(place - 1) {
        Some(walk) => walk.work,
        None => 0,
    }
}

// The curve of a front of walks that are due within the bound.
fn curve_of(graph: &Graph, bound: u64, front: Row<FrontEntry>) -> Result<Curve, Memory> {
    let mut walks = front.into_vec();
    walks.sort_by_key(|walk: &FrontEntry| walk.offset)?;
    let mut most = 0;
    for place in 0..walks.len() {
        most = walks[place].work.max(most);
        walks[place].work = most;
    }
    Ok(Curve {
        until: bound.saturating_sub(u64::from(latest_deadline(graph))),
        walks,
    })
}
