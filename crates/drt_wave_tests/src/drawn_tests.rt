//! The fronts of drawn tasks, by wave tables and by shared tables of as many workers.
ghost use Rattle.std.specs.Prelude.{◌+◌, ◌*◌, ◌≤◌};
ghost use Rattle.drt_model.specs.Digraph.{vertex_count};

use crate::graphs::has_few_cells;
use crate::tables::{finished_table, is_front_of};
use drt_gen::generate;
use drt_graph::{FrontEntry, Graph, Graphs, check};
use drt_model::Row;
use drt_pool::EagerGate;
use drt_wave::fill;
use std::alloc::Global;
use std::sync::Wait;
use std::test::Fail;
use std::thread::Threads;

// More than three times the longest period that a task draws, so that there are several waves, and walks of several edges.
const BOUND: u64 = 2_000;

// The front of a graph's walks up to a bound, by a wave table of so many workers.
fn wave_front<R: Threads + Wait + Sync>(
    rt: &R,
    alloc: Global,
    graph: &Graph,
    bound: u64,
    workers: u32,
) -> Result<Row<FrontEntry>, Fail>
    requires few { vertex_count graph.now * (bound + 1) ≤ 4194304 }
    requires workers { (1 ≤ workers) × (workers ≤ 16) }
{
    let works = fill(rt, alloc, graph, bound, workers, &EagerGate)?;
    Ok(works.front(alloc)?)
}

// Whether a graph has one front by a wave table and by a shared table, each of so many workers.
fn has_one_front_by<R: Threads + Wait + Sync>(
    rt: &R,
    alloc: Global,
    graph: &Graph,
    bound: u64,
    workers: u32,
) -> Result<bool, Fail>
    requires few { vertex_count graph.now * (bound + 1) ≤ 4194304 }
    requires bound { bound ≤ 1000000 }
{
    if workers < 1 || workers > 16 {
        return Ok(false);
    }
    let front = wave_front(rt, alloc, graph, bound, workers)?;
    let table = finished_table(rt, alloc, graph, bound, workers)?;
    Ok(is_front_of(front.as_slice(), &table))
}

// Whether it has one front by 1, 2, 4 and 16 workers.
fn has_one_front<R: Threads + Wait + Sync>(
    rt: &R,
    alloc: Global,
    graph: &Graph,
    bound: u64,
) -> Result<bool, Fail>
    requires few { vertex_count graph.now * (bound + 1) ≤ 4194304 }
    requires bound { bound ≤ 1000000 }
{
    for workers in [1u32, 2, 4, 16] {
        if !has_one_front_by(rt, alloc, graph, bound, workers)? {
            return Ok(false);
        }
    }
    Ok(true)
}

// The graphs of the set of a number.
fn drawn_graphs(alloc: Global, number: u64) -> Result<Graphs, Fail> {
    let set = generate(alloc, number)?;
    Ok(check(alloc, &set).ok().ok_or("constrained")?)
}

// How many of the tasks of the set of a number have one front, up to the first one that hasn't.
fn count_same<R: Threads + Wait + Sync>(rt: &R, alloc: Global, number: u64) -> Result<u32, Fail> {
    let graphs = drawn_graphs(alloc, number)?;
    for task in 0..graphs.count() {
        let graph = graphs.graph(task);
        if !has_few_cells(graph, BOUND) || !has_one_front(rt, alloc, graph, BOUND)? {
            return Ok(task);
        }
    }
    Ok(graphs.count())
}

// Each set has 12 tasks, so these are 204.
#[test]
fn drawn_tasks_have_the_front_of_a_shared_table(rt: HostRuntime) -> Result<(), Fail> {
    for number in 0..17u64 {
        assert!(rt; count_same(&rt, rt.alloc(), number)? == 12, "set {number}");
    }
    Ok(())
}
