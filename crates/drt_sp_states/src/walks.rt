//! Walks and what they ask for.
ghost use Rattle.std.specs.Prelude.{◌≡◌, ◌≤◌, IfOk, IfSome, OnOk};
ghost use Rattle.drt_model.specs.Numbers.{most_time};
ghost use Rattle.drt_sp_states.specs.Walks.{IsMadeWalk};

use drt_graph::Graph;
use drt_label::Label;
use drt_model::Memory;
use drt_request::{RequestLabel, labels_of_walks};
use std::alloc::Global;

/// A walk with its label.
#[derive(Drop)]
pub(crate) struct Made {
    pub walk: Vec<u32>,
    pub label: RequestLabel,
}

/// The walk of these vertices with its label, where each release is before the bound. None where it isn't such a walk.
pub(crate) fn make_walk(
    alloc: Global,
    graph: &Graph,
    bound: u64,
    vertices: &[u32],
) -> Result<Option<Made>, Memory>
    requires some { 1 ≤ bound }
    requires most { bound ≤ most_time }
    ensures { IfOk result (λ r. IfSome r (IsMadeWalk graph.now bound)) }
{
    if vertices.is_empty() {
        return Ok(None);
    }
    let Some(mut made) = begin_walk(alloc, graph, bound, vertices[0])? else {
        return Ok(None);
    };
    for i in 1..vertices.len() {
        if !extend_walk(alloc, graph, bound, vertices[i], &mut made)? {
            return Ok(None);
        }
    }
    Ok(Some(made))
}

// The walk of one vertex.
fn begin_walk(alloc: Global, graph: &Graph, bound: u64, vertex: u32) -> Result<Option<Made>, Memory>
    requires some { 1 ≤ bound }
    requires most { bound ≤ most_time }
    ensures { IfOk result (λ r. IfSome r (IsMadeWalk graph.now bound)) }
{
    if vertex >= graph.vertex_count() {
        return Ok(None);
    }
    labels_of_walks();
    let wcet = graph.vertex(vertex).wcet;
    let label: RequestLabel = Label::opening(alloc, vertex, wcet, bound)?;
    let mut walk = Vec::new(alloc);
    walk.push(vertex)?;
    Ok(Some(Made { walk, label }))
}

// Adds a further vertex to the walk. False where it isn't such a walk.
fn extend_walk(
    alloc: Global,
    graph: &Graph,
    bound: u64,
    vertex: u32,
    made: &mut Made,
) -> Result<bool, Memory>
    requires { IsMadeWalk graph.now bound made.old }
    ensures { OnOk result (IsMadeWalk graph.now bound made.new) }
{
    let at = made.label.vertex();
    let count = graph.vertex_count();
    if at >= count || vertex >= count || made.label.offset() >= bound {
        return Ok(false);
    }
    let Some(sep) = graph.separation(at, vertex) else {
        return Ok(false);
    };
    labels_of_walks();
    let wcet = graph.vertex(vertex).wcet;
    made.label = made.label.extend(alloc, sep, vertex, wcet)?;
    made.walk.push(vertex)?;
    Ok(true)
}
