//! How fast a table of demand labels is driven to its end.
//!
//! The arguments after the subject are a number of vertices, a number of edges, the longest separation and a bound, both in ticks; without
//! them 6, 6, 1 and 50. The graph is the same in each run. With as many edges as vertices and separations of 1 there is one node for each
//! vertex and each offset, none drops another, and each takes three steps. The answer has no times in it: `bench/table` takes them from
//! outside.
ghost use Rattle.std.specs.Prelude.{◌≤◌};

use crate::input::{RingTimes, number, ring};
use drt_demand::DemandLabel;
use drt_graph::check;
use drt_model::{Row, Task, task_set};
use drt_table::{Table, TableReply};
use std::alloc::Global;
use std::env::Args;

// The number of steps of a table that is driven to its end or to its budget of 1,000,000; 0 where the numbers make no graph.
fn steps(alloc: Global, task: Task, bound: u64) -> anyhow::Result<usize>
    requires { bound ≤ 1000000 }
{
    let mut tasks = Vec::new(alloc);
    tasks.push(task)?;
    let Some(set) = task_set(2, Row::from_vec(tasks)) else {
        return Ok(0);
    };
    let graphs = check(alloc, &set)?;
    graphs.keep_limits();
    let table: Table<DemandLabel> = Table::start(alloc, graphs.graph(0), bound, 1_000_000)?;
    let (table, _reply): (Table<DemandLabel>, TableReply) = table.drive(alloc, 0)?;
    Ok(table.log().len())
}

/// Runs the subject with these arguments, and writes what it comes to.
pub fn run(rt: &impl Print, alloc: Global, mut arguments: Args) -> anyhow::Result<()> {
    let count = number(arguments.next(), 6).clamp(1, 96);
    let edge_count = number(arguments.next(), 6).min(256);
    let longest = number(arguments.next(), 1).clamp(1, 1_000_000);
    let bound = number(arguments.next(), 50).min(1_000_000);
    let times = RingTimes {
        longest_wcet: 1_000_000,
        least_separation: 1,
        separations: longest,
    };
    let task = ring(alloc, count, edge_count, times)?;
    let made = steps(alloc, task, bound as u64)?;
    println!(rt;
        "{} vertices, {} edges, a bound of {}: {} steps",
        count, edge_count, bound, made
    )?;
    Ok(())
}
