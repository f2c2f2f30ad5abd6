//! Tasks whose walks are worked in a wave table.
ghost use Rattle.std.specs.Prelude.{◌≡◌, ◌+◌, ◌*◌, ◌≤◌, ◌↔◌, IfOk, IsTrue};
ghost use Rattle.drt_wave.specs.Cells.{most_cells};
ghost use Rattle.drt_model.specs.Numbers.{most_horizon};
ghost use Rattle.drt_graph.specs.Degrees.{most_out};
ghost use Rattle.drt_model.specs.Digraph.{IsConstrainedGraph, vertex_count};
ghost use Rattle.drt_claims.specs.Ranges.{IsCounted};
ghost use Rattle.drt_edf_fronts.specs.LabelFronts.{IsLabelFront};
ghost use Rattle.drt_edf_fronts.specs.Needs.{HasWaveTable};

use drt_crew::Crew;
use drt_graph::{FrontEntry, Graph};
use drt_model::{Memory, Row};
use drt_pool::Gate;
use drt_wave::fill;
use std::sync::Wait;
use std::thread::Threads;

// The most cells of a wave table.
const MOST_CELLS: u64 = 4_194_304;

// The greatest number of edges out of a vertex.
fn greatest_degree(graph: &Graph) -> u64
    ensures { result ≡ most_out graph.now.out }
{
    let count = graph.vertex_count();
    let mut most = 0;
    'vertices: for v in 0..count {
        most = most.max(u64::from(graph.out_degree(v)));
    }
    most
}

/// Whether the walks of a task up to the bound, in ticks, are worked in a wave table, in place of a table whose steps are counted: there
/// are at most 4,194,304 cells, and the budget is enough for any search of these walks.
pub fn has_wave_table(graph: &Graph, bound: u64, budget: u64) -> bool
    requires { bound ≤ most_horizon }
    ensures { IsTrue result ↔ HasWaveTable graph.now bound budget }
{
    let cells = u64::from(graph.vertex_count()) * (bound + 1);
    if cells > MOST_CELLS {
        return false;
    }
    cells * (greatest_degree(graph) + 2) <= budget
}

/// The front of a task's walks up to the bound, in ticks, worked by the crew's workers in a wave table.
pub fn wave_front<G: Gate, R: Threads + Wait + Sync>(
    crew: &Crew<'_, G, R>,
    graph: &Graph,
    bound: u64,
) -> Result<Row<FrontEntry>, Memory>
    requires small { vertex_count graph.now * (bound + 1) ≤ most_cells }
    requires constrained { IsConstrainedGraph graph.now }
    ensures front { IfOk result (IsLabelFront graph.now bound) }
    ensures counted { IfOk result IsCounted }
{
    graph.keep_limits();
    let workers = crew.effort.workers();
    let works = fill(crew.rt, crew.alloc, graph, bound, workers, crew.gate)?;
    let front = works.front(crew.alloc)?;
    Ok(front)
}
