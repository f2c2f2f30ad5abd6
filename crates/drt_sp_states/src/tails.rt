//! Walks that attain the functions of tails.
use crate::curves::{greatest_at, has_jump, jump_before};
use crate::places::{Subject, curve_at, curves_at, graph_at};
use drt_graph::Graph;
use drt_model::Memory;
use drt_states::Jump;
use std::alloc::Global;

/// Adds to the walk the vertices after `vertex` of a walk from there that asks before `t` for what the function of the vertex says. It is
/// read off backwards: a jump past offset 0 comes after an edge to a vertex whose function has the jump that is left. Whether that was
/// found.
pub(crate) fn add_attaining(
    subject: Subject<'_>,
    place: u32,
    vertex: u32,
    t: u64,
    walk: &mut Vec<u32>,
) -> Result<bool, Memory> {
    let Some(graph) = graph_at(subject, place) else {
        return Ok(false);
    };
    let Some(mut jump) = jump_before(curve_at(subject, place, vertex), t) else {
        return Ok(false);
    };
    let mut at = vertex;
    for _step in 0..t {
        if jump.offset == 0 {
            return Ok(true);
        }
        let Some((next, left)) = jump_after(subject, place, graph, at, jump) else {
            return Ok(false);
        };
        walk.push(next)?;
        at = next;
        jump = left;
    }
    Ok(jump.offset == 0)
}

// The vertex that comes after `u` where its function has this jump, and the jump that is left there.
fn jump_after(
    subject: Subject<'_>,
    place: u32,
    graph: &Graph,
    u: u32,
    jump: Jump,
) -> Option<(u32, Jump)> {
    if u >= graph.vertex_count() {
        return None;
    }
    let work = jump.work.checked_sub(graph.vertex(u).wcet as u64)?;
    for k in 0..graph.out_degree(u) {
        let edge = *graph.out_edge(u, k);
        if let Some(offset) = jump.offset.checked_sub(edge.sep as u64) {
            let left = Jump { offset, work };
            if has_jump(curve_at(subject, place, edge.to), left) {
                return Some((edge.to, left));
            }
        }
    }
    None
}

/// A walk of the task at a place that asks before `t` for the greatest value of its tail. None where it isn't found.
pub(crate) fn greatest_walk(
    alloc: Global,
    subject: Subject<'_>,
    place: u32,
    t: u64,
) -> Result<Option<Vec<u32>>, Memory> {
    let first = greatest_at(curves_at(subject, place), t);
    let Ok(first) = u32::try_from(first) else {
        return Ok(None);
    };
    let mut walk = Vec::new(alloc);
    walk.push(first)?;
    if !add_attaining(subject, place, first, t, &mut walk)? {
        return Ok(None);
    }
    Ok(Some(walk))
}
