//! Drawn tasks with many waves of 8,192 cells and more.
ghost use Rattle.std.specs.Prelude.{◌+◌, ◌*◌, ◌≤◌, IfOk};
ghost use Rattle.drt_model.specs.Digraph.{vertex_count};

use crate::graphs::make_graph;
use crate::relief::{PATIENCE, Relief};
use crate::tables::{finished_table, is_front_of};
use drt_graph::Graph;
use drt_pool::{EagerGate, Gate, OpenGate};
use drt_test_tools::Draws;
use drt_wave::{DenseFront, WaveTable, dense_front, fill};
use std::alloc::Global;
use std::sync::Wait;
use std::test::Fail;
use std::thread::{Threads, available_parallelism};

// No separation is less. So each wave has at least 12,000 cells, since there are 12 vertices.
const LEAST: u32 = 1_000;

// A wave spans fewer than 2,000 offsets, so there are at least nine, of which eight are whole. Each vertex has three edges, so walks are ever
// more: of the task of number 0 more than half of the cells have some work from the tenth of sixteen whole waves on, and the open gate shares such
// waves too.
const BOUND: u64 = 16_665;

// A drawn task's vertices, as execution times and deadlines.
fn draw_vertices(draws: &mut Draws) -> [(u32, u32); 12] {
    let mut vertices = [(1, 1); 12];
    for v in 0..12usize {
        vertices[v] = (draws.below(100) + 1, draws.below(LEAST) + 1);
    }
    vertices
}

// A drawn task's edges, as sources, targets and separations: from each vertex to the three after it on a ring.
fn draw_edges(draws: &mut Draws) -> [(u32, u32, u32); 36] {
    let mut edges = [(0, 0, LEAST); 36];
    for k in 0..36u32 {
        let to = (k % 12 + 1 + k / 12) % 12;
        edges[k as usize] = (k % 12, to, LEAST + draws.below(1_000));
    }
    edges
}

// Whether two tables of the same graph and bound have the same work in a vertex's cells.
fn is_same_row(works: &DenseFront, others: &DenseFront, vertex: u32) -> bool {
    if vertex >= works.graph().vertex_count() || vertex >= others.graph().vertex_count() {
        return false;
    }
    let bound = works.bound();
    if bound != others.bound() {
        return false;
    }
    for offset in 0..bound {
        if works.work(vertex, offset) != others.work(vertex, offset) {
            return false;
        }
    }
    works.work(vertex, bound) == others.work(vertex, bound)
}

// Whether two tables of the same graph and bound have the same work in each cell.
fn is_same(works: &DenseFront, others: &DenseFront) -> bool {
    for vertex in 0..works.graph().vertex_count() {
        if !is_same_row(works, others, vertex) {
            return false;
        }
    }
    true
}

// Whether so many workers find in each cell what one seat finds there.
fn is_same_by<G: Gate, R: Threads + Wait + Sync>(
    rt: &R,
    alloc: Global,
    graph: &Graph,
    alone: &DenseFront,
    bound: u64,
    workers: u32,
    gate: &G,
) -> Result<bool, Fail>
    requires few { vertex_count graph.now * (bound + 1) ≤ 4194304 }
{
    if workers < 1 || workers > 16 {
        return Ok(false);
    }
    let works = fill(rt, alloc, graph, bound, workers, gate)?;
    Ok(is_same(&works, alone))
}

// Whether 2, 4 and 16 workers find in each cell what one seat finds there, by the eager gate and by the open one.
fn is_same_by_all<R: Threads + Wait + Sync>(
    rt: &R,
    alloc: Global,
    graph: &Graph,
    alone: &DenseFront,
    bound: u64,
) -> Result<bool, Fail>
    requires few { vertex_count graph.now * (bound + 1) ≤ 4194304 }
{
    for workers in [2u32, 4, 16] {
        let same = is_same_by(rt, alloc, graph, alone, bound, workers, &EagerGate)?
            && is_same_by(rt, alloc, graph, alone, bound, workers, &OpenGate)?;
        if !same {
            return Ok(false);
        }
    }
    Ok(true)
}

// Whether the works have the front of a driven table of the same graph and bound.
fn has_driven_front<R: Threads + Wait + Sync>(
    rt: &R,
    alloc: Global,
    graph: &Graph,
    works: &DenseFront,
    bound: u64,
) -> Result<bool, Fail>
    requires bound { bound ≤ 1000000 }
{
    let table = finished_table(rt, alloc, graph, bound, 1)?;
    let front = works.front(alloc)?;
    Ok(is_front_of(front.as_slice(), &table))
}

// Whether a graph's table that one seat works has the front of a driven table, and each cell of tables by 2, 4 and 16 workers.
fn has_one_table<R: Threads + Wait + Sync>(
    rt: &R,
    alloc: Global,
    graph: &Graph,
    bound: u64,
) -> Result<bool, Fail>
    requires few { vertex_count graph.now * (bound + 1) ≤ 4194304 }
    requires bound { bound ≤ 1000000 }
{
    let alone = dense_front(alloc, graph, bound)?;
    Ok(
        has_driven_front(rt, alloc, graph, &alone, bound)?
            && is_same_by_all(rt, alloc, graph, &alone, bound)?,
    )
}

// The graph that is drawn from this number, which has few enough cells up to a bound.
fn draw_graph(alloc: Global, number: u64, bound: u64) -> Result<Graph, Fail>
    ensures { IfOk result (λ graph. vertex_count graph * (bound + 1) ≤ 4194304) }
{
    let mut draws = Draws { state: number };
    let vertices = draw_vertices(&mut draws);
    let edges = draw_edges(&mut draws);
    make_graph(alloc, (&vertices, &edges), bound)
}

// Whether the graph that is drawn from this number has one table.
fn has_one_table_of<R: Threads + Wait + Sync>(
    rt: &R,
    alloc: Global,
    number: u64,
) -> Result<bool, Fail> {
    let graph = draw_graph(alloc, number, BOUND)?;
    has_one_table(rt, alloc, &graph, BOUND)
}

#[test]
fn any_number_of_workers_finds_the_works_of_wide_waves(rt: HostRuntime) -> Result<(), Fail> {
    for number in 0..4u64 {
        let same = has_one_table_of(&rt, rt.alloc(), number)?;
        assert!(rt; same, "the task of number {number}");
    }
    Ok(())
}

// How often the caller looks for a second worker that mustn't come: for far longer than it takes to begin one.
const VAIN: u32 = 20_000;

// Whether a second worker begins before the caller is done with its turn of this number, for which the gate waits so many looks. The gate leaves the
// caller some turn alone, as the open gate does.
fn begins_by<R: Threads + Wait + Sync>(
    rt: &R,
    alloc: Global,
    graph: &Graph,
    bound: u64,
    turn: u64,
    looks: u32,
) -> Result<bool, Fail>
    requires few { vertex_count graph.now * (bound + 1) ≤ 4194304 }
{
    let gate = Relief::behind(turn, looks);
    let _works = fill(rt, alloc, graph, bound, 2, &gate)?;
    Ok(match gate.first_turns() {
        Some(turns) => turns > turn,
        None => false,
    })
}

// Whether a second worker begins with the first wave of the table of the task of number 0. The caller takes a seat for it in its first turn, and
// the others begin with its second one.
fn begins_first<R: Threads + Wait + Sync>(
    rt: &R,
    alloc: Global,
    bound: u64,
    looks: u32,
) -> Result<bool, Fail> {
    let graph = draw_graph(alloc, 0, bound)?;
    begins_by(rt, alloc, &graph, bound, 1, looks)
}

// Whether a second worker begins with a later wave of the table of the task of number 0.
//
// In its first turn the caller takes a seat for the first wave, and by each one after it works a row of 8 blocks. In the turn in which it finds
// fewer it works that wave and those after it, up to the first one that is worth it for workers to begin, and in the next turn it takes a seat for
// that one. So the others begin with its turn after these.
fn begins_later<R: Threads + Wait + Sync>(rt: &R, alloc: Global, bound: u64) -> Result<bool, Fail> {
    let graph = draw_graph(alloc, 0, bound)?;
    let (table, _seat) = WaveTable::start(alloc, &graph, bound)?;
    let blocks = table.plan.span.saturating_mul(12).div_ceil(64);
    begins_by(rt, alloc, &graph, bound, blocks / 8 + 3, PATIENCE)
}

// No more workers begin than there are processors. Up to the greater bound there are 1,999,992 cells, in so many waves of at least 12,000 that their
// size alone tells that the first one is worth it.
#[test]
fn two_workers_begin_where_there_are_two_processors(rt: HostRuntime) -> Result<(), Fail> {
    let wanted = available_parallelism(&rt)?.get() > 1;
    let alloc = rt.alloc();
    let first = begins_first(&rt, alloc, 166_665, PATIENCE)?;
    let small = begins_first(&rt, alloc, BOUND, VAIN)?;
    let later = begins_later(&rt, alloc, BOUND)?;
    assert!(rt; first == wanted && !small && later == wanted);
    Ok(())
}

// Up to this bound there are 99,996 cells, of which 3,272 have some work.
#[test]
fn one_worker_works_a_table_of_which_little_would_be_shared(rt: HostRuntime) -> Result<(), Fail> {
    let first = begins_first(&rt, rt.alloc(), 8_332, VAIN)?;
    let later = begins_later(&rt, rt.alloc(), 8_332)?;
    assert!(rt; !first && !later);
    Ok(())
}
