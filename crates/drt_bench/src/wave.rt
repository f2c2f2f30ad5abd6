//! How fast a dense table of greatest works is worked by some workers, and beside it a driven or a shared table of the same walks.
//!
//! The arguments after the subject are a number of vertices, a number of edges, the least separation, the number of separations from it on
//! that edges draw from, a bound in ticks, how often the table is worked anew, a number of workers, and 1 for a shared table in place of a
//! dense one; without them 6, 6, 1, 1, 50, 1, 1 and 0. With no worker the table is a driven one. A driven and a shared table have a budget
//! of 1,000,000 steps. In a ring with separations of 1 each vertex has one walk for each offset below the bound, of more work than those
//! before, so there are 300 labels. The answer has no times in it: `bench/wave` takes them from outside.
ghost use Rattle.std.specs.Prelude.{◌+◌, ◌*◌, ◌≤◌};
ghost use Rattle.drt_model.specs.Digraph.{vertex_count};

use crate::input::{RingTimes, number, ring};
use drt_demand::DemandLabel;
use drt_graph::{Graph, check};
use drt_model::{Row, Task, task_set};
use drt_pool::{EagerGate, OpenGate};
use drt_search::search_together;
use drt_table::{Table, TableReply};
use drt_wave::fill;
use std::alloc::{AllocError, Global};
use std::env::Args;
use std::sync::Wait;
use std::thread::Threads;

/// The most steps of a driven or a shared table.
const BUDGET: u64 = 1_000_000;

// Works a table as often as is said, and gives the number of labels that no other label covers.
fn work_again<R: Threads + Wait + Sync>(
    rt: &R,
    alloc: Global,
    graph: &Graph,
    bound: u64,
    times: u32,
    workers: u32,
) -> Result<usize, AllocError>
    requires small { vertex_count graph.now * (bound + 1) ≤ 4194304 }
    requires workers { (1 ≤ workers) × (workers ≤ 16) }
{
    let mut works = fill(rt, alloc, graph, bound, workers, &OpenGate)?;
    'times: for _time in 1..times {
        works = fill(rt, alloc, graph, bound, workers, &OpenGate)?;
    }
    Ok(works.front(alloc)?.as_slice().len())
}

// Drives a table as often as is said, and gives the number of steps.
fn drive_again(alloc: Global, graph: &Graph, bound: u64, times: u32) -> Result<usize, AllocError>
    requires { bound ≤ 1000000 }
{
    let mut steps = 0;
    'times: for _time in 0..times {
        let table: Table<DemandLabel> = Table::start(alloc, graph, bound, BUDGET)?;
        let (table, _reply): (Table<DemandLabel>, TableReply) = table.drive(alloc, 0)?;
        steps = table.log().len();
    }
    Ok(steps)
}

// Has the workers search a shared table as often as is said, and gives the number of steps.
fn share_again<R: Threads + Wait + Sync>(
    rt: &R,
    alloc: Global,
    graph: &Graph,
    bound: u64,
    times: u32,
    workers: u32,
) -> Result<usize, AllocError>
    requires bound { bound ≤ 1000000 }
    requires workers { (1 ≤ workers) × (workers ≤ 16) }
{
    let mut steps = 0;
    'times: for _time in 0..times {
        let (table, _reply): (Table<DemandLabel>, TableReply) = search_together(
            rt, alloc, graph, bound, BUDGET, workers, &EagerGate,
        )?;
        steps = table.log().len();
    }
    Ok(steps)
}

// The same for the graph of a task; 0 where the numbers make no graph or too many cells.
fn labels<R: Threads + Wait + Sync>(
    rt: &R,
    alloc: Global,
    task: Task,
    bound: u64,
    times: u32,
    workers: u32,
    is_shared: bool,
) -> anyhow::Result<usize>
    requires bound { bound ≤ 1000000 }
    requires workers { workers ≤ 16 }
{
    let mut tasks = Vec::new(alloc);
    tasks.push(task)?;
    let Some(set) = task_set(2, Row::from_vec(tasks)) else {
        return Ok(0);
    };
    let graphs = check(alloc, &set)?;
    graphs.keep_limits();
    let graph = graphs.graph(0);
    if graph.vertex_count() as u64 * (bound + 1) > 4_194_304 {
        return Ok(0);
    }
    if workers == 0 {
        return Ok(drive_again(alloc, graph, bound, times)?);
    }
    if is_shared {
        return Ok(share_again(rt, alloc, graph, bound, times, workers)?);
    }
    Ok(work_again(rt, alloc, graph, bound, times, workers)?)
}

/// Runs the subject with these arguments, and writes what it comes to.
pub fn run<R: Print + Threads + Wait + Sync>(
    rt: &R,
    alloc: Global,
    mut arguments: Args,
) -> anyhow::Result<()> {
    let count = number(arguments.next(), 6).clamp(1, 96);
    let edge_count = number(arguments.next(), 6).min(256);
    let least = number(arguments.next(), 1).clamp(1, 500_000);
    let range = number(arguments.next(), 1).clamp(1, 500_000);
    let bound = number(arguments.next(), 50).min(1_000_000);
    let times = number(arguments.next(), 1);
    let workers = number(arguments.next(), 1).min(16);
    let is_shared = number(arguments.next(), 0) == 1;
    let times_drawn = RingTimes {
        longest_wcet: 100,
        least_separation: least,
        separations: range,
    };
    let task = ring(alloc, count, edge_count, times_drawn)?;
    let kept = labels(rt, alloc, task, bound as u64, times, workers, is_shared)?;
    let unit = if workers == 0 || is_shared {
        "steps"
    } else {
        "labels"
    };
    println!(rt;
        "{} vertices, {} edges, separations from {}, a bound of {}: {} {}",
        count, edge_count, least, bound, kept, unit
    )?;
    Ok(())
}
