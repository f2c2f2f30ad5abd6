//! The marks of the walks of one vertex.
ghost use Rattle.std.specs.Prelude.{◌≡◌, ◌+◌, ◌*◌, ◌<◌, ◌≤◌, IfOk, IfSome};
ghost use Rattle.drt_model.specs.Digraph.{vertex_count};
ghost use Rattle.drt_merge.specs.Marks.{AreRows, AreOpenedTo, AreEmpty};

use crate::lists::Lists;
use crate::mark::Mark;
use crate::offering::{Offered, offer};
use drt_graph::Graph;
use drt_model::Memory;

// Offers the walk of this vertex alone, where its job is due within the bound. Returns the steps that count for it, or None where it comes out
// of order.
fn open_vertex(
    graph: &Graph,
    bound: u64,
    lists: &mut Lists,
    vertex: u32,
) -> Result<Option<u64>, Memory>
    requires vertex { vertex < vertex_count graph.now }
    requires rows { AreRows graph.now bound lists.old }
    requires opened { AreOpenedTo graph.now bound vertex lists.old }
    ensures rows { IfOk result (λ r. AreRows graph.now bound lists.new) }
    ensures opened { IfOk result (λ r. IfSome r (λ steps. AreOpenedTo graph.now bound (vertex + 1) lists.new)) }
    ensures few { IfOk result (λ r. IfSome r (λ steps. steps ≤ 258)) }
{
    graph.keep_limits();
    let deadline = graph.vertex(vertex).deadline;
    let wcet = graph.vertex(vertex).wcet;
    if u64::from(deadline) > bound {
        return Ok(Some(0));
    }
    let mark = Mark {
        offset: 0,
        work: u64::from(wcet),
    };
    match offer(graph, bound, lists, vertex, mark)? {
        Offered::Astray => Ok(None),
        Offered::Covered => Ok(Some(0)),
        Offered::Kept => Ok(Some(u64::from(graph.out_degree(vertex)) + 2)),
    }
}

/// Offers the walks of one vertex. Returns the steps that count for them, or None where one comes out of order.
pub fn open_all(graph: &Graph, bound: u64, lists: &mut Lists) -> Result<Option<u64>, Memory>
    requires { AreEmpty (vertex_count graph.now) lists.old }
    ensures rows { IfOk result (λ r. AreRows graph.now bound lists.new) }
    ensures opened { IfOk result (λ r. IfSome r (λ steps. AreOpenedTo graph.now bound (vertex_count graph.now) lists.new)) }
    ensures few { IfOk result (λ r. IfSome r (λ steps. steps ≤ 258 * vertex_count graph.now)) }
{
    let count = graph.vertex_count();
    let mut steps = 0;
    'vertices: for vertex in 0..count {
        match open_vertex(graph, bound, lists, vertex)? {
            Some(more) => steps += more,
            None => return Ok(None),
        }
    }
    Ok(Some(steps))
}
