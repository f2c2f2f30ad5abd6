//! Graphs of shapes, and wave tables of them.
ghost use Rattle.std.specs.Prelude.{◌≡◌, ◌+◌, ◌*◌, ◌≤◌, [], IfOk, true};
ghost use Rattle.drt_model.specs.Digraph.{vertex_count};
ghost use Rattle.drt_wave.specs.Seats.{parts_held, draws_of, KnowsTo, IsOfTable};

use drt_fixtures::{Shape, make_set};
use drt_graph::{Graph, Graphs, check};
use drt_wave::{WaveSeat, WaveTable};
use std::alloc::Global;
use std::test::Fail;

/// The vertices a(1,1), b(5,1) with edges of 70 there and back: each of its waves but the last has 140 cells, which are three blocks.
pub(crate) const PAIR: Shape<'static> = (&[(1, 1), (5, 1)], &[(0, 1, 70), (1, 0, 70)]);

/// Whether a graph has few enough cells up to a bound for a wave table.
pub(crate) fn has_few_cells(graph: &Graph, bound: u64) -> bool
    ensures { result ≡ true → vertex_count graph.now * (bound + 1) ≤ 4194304 }
{
    bound < 4_194_304 && graph.vertex_count() as u64 * (bound + 1) <= 4_194_304
}

// The graphs of the set of one shape.
fn graphs_of(alloc: Global, shape: Shape<'_>) -> Result<Graphs, Fail> {
    let set = make_set(alloc, &[shape])?.ok_or("within the limits")?;
    Ok(check(alloc, &set).ok().ok_or("constrained")?)
}

// A copy of the first one.
fn copy_first(alloc: Global, shape: Shape<'_>) -> Result<Graph, Fail> {
    let graphs = graphs_of(alloc, shape)?;
    if graphs.count() == 0 {
        return Err("a task".into());
    }
    Ok(graphs.graph(0).copy(alloc)?)
}

/// The graph of a shape, which has few enough cells up to a bound.
pub(crate) fn make_graph(alloc: Global, shape: Shape<'_>, bound: u64) -> Result<Graph, Fail>
    ensures { IfOk result (λ graph. vertex_count graph * (bound + 1) ≤ 4194304) }
{
    let graph = copy_first(alloc, shape)?;
    if !has_few_cells(&graph, bound) {
        return Err("few cells".into());
    }
    Ok(graph)
}

/// A wave table of a shape's walks up to a bound, with the seat that has every part.
pub(crate) fn start_table(
    alloc: Global,
    shape: Shape<'_>,
    bound: u64,
) -> Result<(WaveTable, WaveSeat), Fail>
    ensures seat { IfOk result (λ r. IsOfTable r.0 r.1) }
    ensures parts { IfOk result (λ r. parts_held r.1 ≡ 1024) }
    ensures draws { IfOk result (λ r. draws_of r.1 ≡ []) }
    ensures known { IfOk result (λ r. KnowsTo 0 r.1) }
{
    let graph = make_graph(alloc, shape, bound)?;
    Ok(WaveTable::start(alloc, &graph, bound)?)
}

/// The work in a cell.
pub(crate) fn read_cell(table: &WaveTable, seat: &mut WaveSeat, cell: u32) -> Result<u64, Fail>
    requires seat { IsOfTable table.now seat.old }
    ensures seat { IsOfTable table.now seat.new }
    ensures parts { parts_held seat.new ≡ parts_held seat.old }
{
    let cells = table.plan.graph.vertex_count() as u64 * (table.plan.bound + 1);
    if cell as u64 >= cells {
        return Err("a cell of the table".into());
    }
    Ok(table.glance(seat, cell))
}
