//! In which order the tasks are looked at side by side. It is reckoned from their graphs, and decides no answer.
ghost use Rattle.std.specs.Prelude.{◌≡◌, ◌≤◌, ◌<◌, IfOk, length};
ghost use Rattle.drt_model.specs.Numbers.{most_horizon};
ghost use Rattle.drt_model.specs.Digraph.{vertex_count};

use drt_ahead::shared_size;
use drt_edf_fronts::has_wave_table;
use drt_effort::MOST_WORKERS;
use drt_graph::{Graph, Graphs};
use drt_model::Memory;
use std::alloc::Global;

// What another worker must have to do, in steps: to begin a thread costs about as much.
const THREAD_STEPS: u64 = 20_000;

/// The steps that the search of each task is reckoned to take: none up to that of the last one that is done.
pub(crate) fn reckon_all(
    alloc: Global,
    graphs: &Graphs,
    bound: u64,
    budget: u64,
    last: u32,
) -> Result<Vec<u64>, Memory>
    requires { bound ≤ most_horizon }
    ensures { IfOk result (λ steps. length steps.items ≡ length graphs.now) }
{
    let mut steps = Vec::new(alloc);
    'tasks: for task in 0..graphs.count() {
        if task <= last {
            steps.push(0)?;
        } else {
            steps.push(reckon(graphs.graph(task), bound, budget))?;
        }
    }
    Ok(steps)
}

/// How many of these workers have enough to do: one search each at least, and beside the longest as many steps as a thread's start is worth.
pub(crate) fn busy_workers(steps: &[u64], workers: u32) -> u32
    ensures { result ≤ workers }
{
    let mut searches = 0u32;
    for few in steps {
        if *few > 0 {
            searches = searches.saturating_add(1);
        }
    }
    let others = shared_size(steps) / THREAD_STEPS;
    workers
        .min(searches)
        .min(1 + others.min(u64::from(MOST_WORKERS)) as u32)
}

// The steps that the search of a task is reckoned to take: each vertex comes as often as the bound has room for the least separation, and
// is followed along each edge. A task with a wave table has none: all workers share its waves.
fn reckon(graph: &Graph, bound: u64, budget: u64) -> u64
    requires { bound ≤ most_horizon }
{
    if has_wave_table(graph, bound, budget) {
        return 0;
    }
    let mut most_out = 0;
    let mut least = u32::MAX;
    'vertices: for v in 0..graph.vertex_count() {
        most_out = most_out.max(graph.out_degree(v));
        least = least.min(least_separation(graph, v));
    }
    let times = bound / u64::from(least.max(1)) + 1;
    let labels = times.saturating_mul(u64::from(graph.vertex_count()));
    labels
        .saturating_mul(u64::from(most_out).saturating_add(2))
        .min(budget)
}

// The least separation of the edges out of a vertex, and the greatest number where there is none.
fn least_separation(graph: &Graph, v: u32) -> u32
    requires { v < vertex_count graph.now }
{
    let mut least = u32::MAX;
    'edges: for k in 0..graph.out_degree(v) {
        least = least.min(graph.out_edge(v, k).sep);
    }
    least
}
