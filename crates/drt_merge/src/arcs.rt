//! The edges of a graph in one row.
ghost use Rattle.std.specs.Prelude.{◌≡◌, ◌<◌, IfOk};
ghost use Rattle.drt_model.specs.Digraph.{vertex_count, out_degree};
ghost use Rattle.drt_merge.specs.Arcs.{AreArcs, AreArcsTo, arc_of};

use drt_graph::Graph;
use drt_model::Memory;
use std::alloc::Global;

/// An edge, with the times of its target, in ticks.
#[derive(Debug, Drop, Clone, Copy, PartialEq, Eq)]
pub struct Arc {
    pub source: u32,
    pub target: u32,
    pub sep: u32,
    pub wcet: u32,
    pub deadline: u32,
}

// The k-th edge out of a vertex.
fn arc_of(graph: &Graph, u: u32, k: u32) -> Arc
    requires vertex { u < vertex_count graph.now }
    requires edge { k < out_degree graph.now u }
    ensures { result ≡ arc_of graph.now u k }
{
    graph.keep_limits();
    let edge = graph.out_edge(u, k);
    let sep = edge.sep;
    let target = edge.to;
    let vertex = graph.vertex(target);
    Arc {
        source: u,
        target,
        sep,
        wcet: vertex.wcet,
        deadline: vertex.deadline,
    }
}

// Adds the edges out of a vertex.
fn add_arcs(graph: &Graph, u: u32, arcs: &mut Vec<Arc>) -> Result<(), Memory>
    requires vertex { u < vertex_count graph.now }
    requires before { AreArcsTo graph.now u 0 arcs.old.items }
    ensures { IfOk result (λ r. AreArcsTo graph.now u (out_degree graph.now u) arcs.new.items) }
{
    let degree = graph.out_degree(u);
    'edges: for k in 0..degree {
        arcs.push(arc_of(graph, u, k))?;
    }
    Ok(())
}

/// The edges of a graph, in order of their sources.
pub fn arcs_of(alloc: Global, graph: &Graph) -> Result<Vec<Arc>, Memory>
    ensures { IfOk result (λ arcs. AreArcs graph.now arcs.items) }
{
    let count = graph.vertex_count();
    let mut arcs = Vec::new(alloc);
    'vertices: for u in 0..count {
        add_arcs(graph, u, &mut arcs)?;
    }
    Ok(arcs)
}
