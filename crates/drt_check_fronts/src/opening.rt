//! Whether the walk of each single vertex is covered.
ghost use Rattle.std.specs.Prelude.{◌≡◌, ◌↔◌, ◌<◌, ◌≤◌, Any, IsTrue, length};
ghost use Rattle.drt_model.specs.Digraph.{vertex_count};
ghost use Rattle.drt_model.specs.Legal.{AllNeighbours};
ghost use Rattle.drt_model.specs.Walk.{deadline, wcet};
ghost use Rattle.drt_model.specs.Each.{Each};
ghost use Rattle.drt_claims.specs.Fronts.{HasOpenings};
ghost use Rattle.drt_graph.specs.FrontEntry.{IsNextEntry, Covers};
ghost use Rattle.drt_check_fronts.specs.FrontOrder.{AreFrontsInOrder};

use crate::covering::is_covered;
use drt_claims::FrontEntry;
use drt_graph::{Graph, Graphs};
use drt_model::Row;

/// Whether each front covers the walks of its graph's single vertices that are due within the bound.
pub fn have_openings(graphs: &Graphs, fronts: &[Row<FrontEntry>], bound: u64) -> bool
    requires { AreFrontsInOrder graphs.now bound fronts.now }
    ensures { IsTrue result ↔ Each (HasOpenings bound) graphs.now fronts.now }
{
    for i in 0..graphs.count() {
        if !has_openings(graphs.graph(i), fronts[i as usize].as_slice(), bound) {
            return false;
        }
    }
    true
}

fn has_openings(graph: &Graph, front: &[FrontEntry], bound: u64) -> bool
    requires { AllNeighbours IsNextEntry front.now }
    ensures { IsTrue result ↔ HasOpenings bound graph.now front.now }
{
    for v in 0..graph.vertex_count() {
        if !is_opened(graph, front, bound, v) {
            return false;
        }
    }
    true
}

// Whether the walk of vertex `v` alone is covered, or due past the bound.
fn is_opened(graph: &Graph, front: &[FrontEntry], bound: u64, v: u32) -> bool
    requires order { AllNeighbours IsNextEntry front.now }
    requires vertex { v < vertex_count graph.now }
    ensures { IsTrue result ↔ (deadline graph.now v ≤ bound → Any (Covers v 0 (wcet graph.now v)) front.now) }
{
    let vertex = graph.vertex(v);
    let mut near = 0;
    bound < vertex.deadline as u64 || is_covered(front, &mut near, v, 0, vertex.wcet as u64)
}
