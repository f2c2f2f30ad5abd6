//! The edges of a graph, as the work on cells follows them.
ghost use Rattle.std.specs.Prelude.{◌<◌, IfOk};
ghost use Rattle.drt_model.specs.Digraph.{vertex_count, out_degree, edge_of};
ghost use Rattle.drt_wave.specs.Cells.{IsWavePlan};
ghost use Rattle.drt_wave.specs.Ways.{IsWay, IsWayRow, AreWays};

use crate::plan::Plan;
use drt_model::{Memory, Row};
use std::alloc::Global;

/// An edge from the offsets of its first vertex to those of its second one: offset `s` below `end` leads to offset `gap + s` of `vertex`
/// and adds `work` there, and from `end` on the second job isn't due within the bound.
#[derive(Clone, Copy, Debug, Drop)]
pub(crate) struct Way {
    pub(crate) end: u32,
    pub(crate) vertex: u32,
    pub(crate) gap: u32,
    pub(crate) work: u32,
}

// The way of out-edge `k` of a vertex.
fn make_way(plan: &Plan, vertex: u32, k: u32) -> Way
    requires planned { IsWavePlan plan.now }
    requires vertex { vertex < vertex_count plan.now.graph }
    requires edge { k < out_degree plan.now.graph vertex }
    ensures { IsWay plan.now (edge_of plan.now.graph vertex k) result }
{
    let edge = plan.graph.out_edge(vertex, k);
    let target = plan.graph.vertex(edge.to);
    let width = plan.width();
    let taken = edge.sep as u64 + target.deadline as u64;
    Way {
        end: width.saturating_sub(taken) as u32,
        vertex: edge.to,
        gap: edge.sep,
        work: target.wcet,
    }
}

// The ways out of a vertex, in file order of its edges.
fn make_row(alloc: Global, plan: &Plan, vertex: u32) -> Result<Row<Way>, Memory>
    requires planned { IsWavePlan plan.now }
    requires vertex { vertex < vertex_count plan.now.graph }
    ensures { IfOk result (IsWayRow plan.now vertex) }
{
    let degree = plan.graph.out_degree(vertex);
    let mut ways = Vec::new(alloc);
    'edges: for k in 0..degree {
        ways.push(make_way(plan, vertex, k))?;
    }
    Ok(Row::from_vec(ways))
}

/// The ways out of each vertex.
pub(crate) fn make_ways(alloc: Global, plan: &Plan) -> Result<Row<Row<Way>>, Memory>
    requires planned { IsWavePlan plan.now }
    ensures { IfOk result (AreWays plan.now) }
{
    let count = plan.graph.vertex_count();
    let mut rows = Vec::new(alloc);
    'vertices: for vertex in 0..count {
        rows.push(make_row(alloc, plan, vertex)?)?;
    }
    Ok(Row::from_vec(rows))
}
