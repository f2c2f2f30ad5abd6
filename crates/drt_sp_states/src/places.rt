//! The places of a search: the tasks of higher priority, their graphs and their tails.
use drt_graph::{Graph, Graphs};
use drt_model::{Memory, Row};
use drt_states::{Jump, TailClaim};
use std::alloc::Global;

/// What a search is over: a job of this execution time, the times up to the deadline, and the tasks of higher priority with their tails
/// and the greatest values of these.
#[derive(Clone, Copy)]
pub struct Subject<'a> {
    pub graphs: &'a Graphs,
    pub order: &'a [u32],
    pub tails: &'a [TailClaim],
    pub crests: &'a [Row<Jump>],
    pub wcet: u32,
    pub deadline: u32,
}

/// How many places there are.
pub(crate) fn place_count(subject: Subject<'_>) -> u32 {
    u32::try_from(subject.order.len()).unwrap_or(0)
}

/// The graph of the task at a place.
pub(crate) fn graph_at<'a>(subject: Subject<'a>, place: u32) -> Option<&'a Graph> {
    let place = place as usize;
    if place >= subject.order.len() {
        return None;
    }
    let task = subject.order[place];
    if task >= subject.graphs.count() {
        return None;
    }
    Some(subject.graphs.graph(task))
}

/// The functions of the tail at a place.
pub(crate) fn curves_at<'a>(subject: Subject<'a>, place: u32) -> &'a [Row<Jump>] {
    match subject.tails.get(place as usize) {
        Some(tail) => tail.curves.as_slice(),
        None => &[],
    }
}

/// The greatest value of the tail at a place.
pub(crate) fn crest_at<'a>(subject: Subject<'a>, place: u32) -> &'a [Jump] {
    match subject.crests.get(place as usize) {
        Some(crest) => crest.as_slice(),
        None => &[],
    }
}

/// The function of a vertex of the task at a place. There are no jumps where there is no such vertex.
pub(crate) fn curve_at<'a>(subject: Subject<'a>, place: u32, vertex: u32) -> &'a [Jump] {
    match curves_at(subject, place).get(vertex as usize) {
        Some(curve) => curve.as_slice(),
        None => &[],
    }
}

/// The separations of a task: the least one, and the least one out of each vertex.
#[derive(Drop)]
pub(crate) struct Gaps {
    pub least: u64,
    pub after: Vec<Option<u32>>,
}

/// The separations of each place.
pub(crate) fn find_gaps(alloc: Global, subject: Subject<'_>) -> Result<Vec<Gaps>, Memory> {
    let mut all = Vec::with_capacity(alloc, subject.order.len())?;
    for task in subject.order {
        if *task < subject.graphs.count() {
            all.push(gaps_of(alloc, subject.graphs.graph(*task))?)?;
        }
    }
    Ok(all)
}

fn gaps_of(alloc: Global, graph: &Graph) -> Result<Gaps, Memory> {
    let count = graph.vertex_count();
    let mut after = Vec::with_capacity(alloc, count as usize)?;
    let mut least: u64 = u64::MAX;
    for v in 0..count {
        let gap = least_after(graph, v);
        if let Some(gap) = gap {
            least = least.min(gap as u64);
        }
        after.push(gap)?;
    }
    if least == u64::MAX {
        least = 1;
    }
    Ok(Gaps { least, after })
}

// The least separation out of a vertex, if an edge leaves it.
fn least_after(graph: &Graph, v: u32) -> Option<u32> {
    if v >= graph.vertex_count() {
        return None;
    }
    let mut least: Option<u32> = None;
    for k in 0..graph.out_degree(v) {
        let sep = graph.out_edge(v, k).sep;
        least = Some(match least {
            Some(known) => known.min(sep),
            None => sep,
        });
    }
    least
}

/// The least separation out of a vertex of the task at a place, if an edge leaves it.
pub(crate) fn gap_after(gaps: &[Gaps], place: u32, vertex: u32) -> Option<u32> {
    let of_place = gaps.get(place as usize)?;
    *of_place.after.get(vertex as usize)?
}

/// The least separation of the task at a place, 1 where it has no edge.
pub(crate) fn least_gap(gaps: &[Gaps], place: u32) -> u64 {
    match gaps.get(place as usize) {
        Some(of_place) => of_place.least,
        None => 1,
    }
}
