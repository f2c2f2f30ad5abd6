//! How fast several workers search one table to its end.
//!
//! The arguments after the subject are a number of vertices, a number of edges, the longest separation, a bound, both in ticks, a number of
//! workers, 1 for request labels in place of demand labels, and how often the search is made; without them 6, 6, 1, 50, 4, 0 and 1. With 0
//! workers the table is driven by the caller alone. The graph is the same in each run. With as many edges as vertices and separations of 1
//! there is one node for each vertex and each offset, none drops another, and each takes three steps. The answer has no times in it:
//! `bench/shared` takes them from outside.
ghost use Rattle.std.specs.Prelude.{◌≤◌, IsTrue};

use crate::input::{RingTimes, number, ring};
use drt_demand::DemandLabel;
use drt_graph::{Graph, check};
use drt_model::{Row, task_set};
use drt_pool::EagerGate;
use drt_request::RequestLabel;
use drt_search::{SharedLabel, search_together};
use drt_table::Table;
use std::alloc::{AllocError, Global};
use std::env::Args;
use std::sync::Wait;
use std::thread::Threads;

/// The most steps of a table.
const BUDGET: u64 = 1_000_000;

/// The most workers.
const WORKERS: u32 = 16;

// The number of steps of one search, by so many workers, or driven where there are none.
fn search<L: SharedLabel, R: Threads + Wait + Sync>(
    rt: &R,
    alloc: Global,
    graph: &Graph,
    bound: u64,
    workers: u32,
) -> Result<usize, AllocError>
    requires bound { IsTrue (L.algebra.takes_bound bound) }
    requires workers { workers ≤ 16 }
{
    if workers == 0 {
        let table: Table<L> = Table::start(alloc, graph, bound, BUDGET)?;
        let (table, _reply) = table.drive(alloc, 0)?;
        return Ok(table.log().len());
    }
    let (table, _reply): (Table<L>, _) = search_together(
        rt, alloc, graph, bound, BUDGET, workers, &EagerGate,
    )?;
    Ok(table.log().len())
}

// The number of steps of so many searches together.
fn search_again<L: SharedLabel, R: Threads + Wait + Sync>(
    rt: &R,
    alloc: Global,
    graph: &Graph,
    bound: u64,
    workers: u32,
    times: u32,
) -> Result<u64, AllocError>
    requires bound { IsTrue (L.algebra.takes_bound bound) }
    requires workers { workers ≤ 16 }
{
    let mut steps = 0u64;
    'times: for _time in 0..times {
        steps = steps.saturating_add(search::<L, R>(rt, alloc, graph, bound, workers)? as u64);
    }
    Ok(steps)
}

/// Runs the subject with these arguments, and writes what it comes to.
pub fn run<R: Print + Threads + Wait + Sync>(
    rt: &R,
    alloc: Global,
    mut arguments: Args,
) -> anyhow::Result<()> {
    let count = number(arguments.next(), 6).clamp(1, 96);
    let edge_count = number(arguments.next(), 6).min(256);
    let longest = number(arguments.next(), 1).clamp(1, 1_000_000);
    let bound = number(arguments.next(), 50).clamp(1, 1_000_000) as u64;
    let workers = number(arguments.next(), 4).min(WORKERS);
    let kind = number(arguments.next(), 0);
    let times = number(arguments.next(), 1);
    let times_drawn = RingTimes {
        longest_wcet: 1_000_000,
        least_separation: 1,
        separations: longest,
    };
    let task = ring(alloc, count, edge_count, times_drawn)?;
    let mut tasks = Vec::new(alloc);
    tasks.push(task)?;
    let Some(set) = task_set(2, Row::from_vec(tasks)) else {
        return Ok(());
    };
    let graphs = check(alloc, &set)?;
    graphs.keep_limits();
    let graph = graphs.graph(0);
    let steps = if kind == 1 {
        search_again::<RequestLabel, R>(rt, alloc, graph, bound, workers, times)?
    } else {
        search_again::<DemandLabel, R>(rt, alloc, graph, bound, workers, times)?
    };
    println!(rt;
        "{} vertices, {} edges, a bound of {}, {} workers: {} steps",
        count, edge_count, bound, workers, steps
    )?;
    Ok(())
}
