//! A whole table, worked by one seat or by several workers.
ghost use Rattle.std.specs.Prelude.{◌≡◌, ◌+◌, ◌*◌, ◌≤◌, [], length, IfOk};
ghost use Rattle.drt_lock.specs.Rule.{all_parts};
ghost use Rattle.drt_model.specs.Digraph.{vertex_count};
ghost use Rattle.drt_wave.specs.Cells.{net_of, IsWavePlan, most_cells};
ghost use Rattle.drt_wave.specs.Seats.{parts_held, draws_of, KnowsTo, IsOfTable};
ghost use Rattle.drt_wave.specs.Tables.{AreOpened};

use crate::crew::Crew;
use crate::dense::DenseFront;
use crate::lane::{Lane, LaneSeat};
use crate::opening::{open_all, open_together};
use crate::plan::{Plan, make_plan};
use crate::seat::WaveSeat;
use crate::sharing::share_table;
use crate::table::WaveTable;
use crate::waves::work_wave;
use drt_graph::Graph;
use drt_model::Memory;
use drt_pool::Gate;
use std::alloc::Global;
use std::sync::Wait;
use std::thread::Threads;

// Works all waves, in order.
fn work_all(table: &WaveTable, seat: &mut WaveSeat, count: u32)
    requires seat { IsOfTable table.now seat.old }
    requires whole { parts_held seat.old ≡ all_parts }
    requires count { count ≡ (net_of table.now.plan).waves }
    requires known { KnowsTo 0 seat.old }
    requires draws { draws_of seat.old ≡ [] }
    ensures seat { IsOfTable table.now seat.new }
    ensures known { KnowsTo count seat.new }
{
    'waves: for wave in 0..count {
        work_wave(table, seat, wave);
    }
}

/// The greatest works of a graph's walks up to a bound in ticks: a table that one seat works to its end.
pub fn dense_front(alloc: Global, graph: &Graph, bound: u64) -> Result<DenseFront, Memory>
    requires small { vertex_count graph.now * (bound + 1) ≤ most_cells }
    ensures graph { IfOk result (λ front. front.plan.graph ≡ graph.now) }
    ensures bound { IfOk result (λ front. front.plan.bound ≡ bound) }
{
    let (table, mut seat) = WaveTable::start(alloc, graph, bound)?;
    work_all(&table, &mut seat, table.plan.wave_count());
    Ok(table.close(seat))
}

// The lanes of a plan, opened side by side where several workers open them.
fn open_lanes<R: Threads + Wait + Sync>(
    rt: &R,
    alloc: Global,
    plan: &Plan,
    crew: Crew,
) -> Result<(Vec<Lane>, Vec<LaneSeat>), Memory>
    requires planned { IsWavePlan plan.now }
    requires crew { (1 ≤ crew.count) × (crew.count ≤ 16) }
    ensures count { IfOk result (λ r. length r.0.items ≡ vertex_count plan.now.graph) }
    ensures opened { IfOk result (λ r. AreOpened plan.now 0 r.0.items r.1.items) }
{
    let openers = crew.openers(rt, plan);
    if openers > 1 {
        return open_together(rt, alloc, plan, openers);
    }
    open_all(alloc, plan)
}

/// The greatest works of a graph's walks up to a bound in ticks: a table that several workers work to its end. No more begin than there are
/// processors, but where the gate may wait for another worker.
pub fn fill<G: Gate, R: Threads + Wait + Sync>(
    rt: &R,
    alloc: Global,
    graph: &Graph,
    bound: u64,
    workers: u32,
    gate: &G,
) -> Result<DenseFront, Memory>
    requires small { vertex_count graph.now * (bound + 1) ≤ most_cells }
    requires workers { (1 ≤ workers) × (workers ≤ 16) }
    ensures graph { IfOk result (λ front. front.plan.graph ≡ graph.now) }
    ensures bound { IfOk result (λ front. front.plan.bound ≡ bound) }
{
    let plan = make_plan(alloc, graph, bound)?;
    let crew = Crew::new(workers, gate);
    let (lanes, seats) = open_lanes(rt, alloc, &plan, crew)?;
    let (table, owner) = WaveTable::of_lanes(alloc, plan, lanes, seats)?;
    match share_table(rt, alloc, &table, owner, crew, gate)? {
        Some(seat) => Ok(table.close(seat)),
        // A part is still out, which can't be: the table is given up, and one seat works another.
        None => dense_front(alloc, graph, bound),
    }
}
