//! A whole search.

ghost use Rattle.std.specs.Prelude.{◌≡◌, ◌≤◌, IfOk, IsTrue, OnOk, false, length};
ghost use Rattle.drt_effort.specs.Efforts.{most_budget};
ghost use Rattle.drt_pool.specs.Turns.{EachPlace};
ghost use Rattle.drt_shared.specs.Passes.{IsPassOf, is_any_halted};
ghost use Rattle.drt_table.specs.Drive.{StopsAt};
ghost use Rattle.drt_table.specs.View.{setting_of};
ghost use Rattle.drt_worklist.specs.Places.{total};

use crate::turn::{Search, SharedLabel};
use drt_graph::Graph;
use drt_label::{Label, Memory};
use drt_model::Row;
use drt_pool::{Gate, run_all};
use drt_shared::{Pass, SharedEnd, SharedTable};
use drt_table::{Table, TableReply};
use std::alloc::Global;
use std::sync::Wait;
use std::thread::Threads;

/// The search of a graph's walks up to the bound, in ticks, with this budget of steps. The answer is that of a table that is started
/// and driven.
///
/// A step of a table is shorter than handing on its lock (`bench/shared`), so workers share a table only where the gate wants all of
/// them to begin at once: where its `alone` is 0. What they leave over the caller drives to its end, as worker 0. Otherwise, and where
/// there is one worker, the caller drives a table of its own without a lock, and the gate sees no turn of it.
pub fn search_together<L: SharedLabel, G: Gate, R: Threads + Wait + Sync>(
    rt: &R,
    alloc: Global,
    graph: &Graph,
    bound: u64,
    budget: u64,
    workers: u32,
    gate: &G,
) -> Result<(Table<L>, TableReply), Memory>
    requires bound { IsTrue (L.algebra.takes_bound bound) }
    requires budget { (1 ≤ budget) × (budget ≤ most_budget) }
    requires workers { (1 ≤ workers) × (workers ≤ 16) }
    ensures setting { IfOk result (λ end. setting_of end.0 ≡ record { graph = graph.now; bound = bound; budget = budget }) }
    ensures stops { IfOk result (λ end. StopsAt L.algebra end.0 end.1) }
{
    if workers == 1 || gate.alone() > 0 {
        let alone: Table<L> = Table::start(alloc, graph, bound, budget)?;
        return alone.drive(alloc, 0);
    }
    let (shared, passes) = SharedTable::start(alloc, graph, bound, budget, workers)?;
    let passes = turn_passes(rt, alloc, graph, &shared, passes, gate);
    drive_on(alloc, shared, passes)
}

// Has a worker turn each pass to its end.
fn turn_passes<L: SharedLabel, G: Gate, R: Threads + Wait + Sync>(
    rt: &R,
    alloc: Global,
    graph: &Graph,
    shared: &SharedTable<L>,
    passes: Row<Pass<L>>,
    gate: &G,
) -> Row<Pass<L>>
    requires graph { graph.now ≡ shared.now.setting.graph }
    requires count { length passes ≤ 16 }
    requires passes { EachPlace (λ place p. IsPassOf L.algebra shared.now p) passes }
    ensures count { length result ≡ length passes }
    ensures passes { EachPlace (λ place p. IsPassOf L.algebra shared.now p) result }
{
    let mut passes = passes.into_vec();
    let search = Search {
        alloc,
        graph,
        shared,
    };
    run_all(rt, &search, passes.as_mut_slice(), gate);
    Row::from_vec(passes)
}

/// Ends a search whose workers are at their ends: takes the table out, and drives it to its end as worker 0. Where one of the
/// passes halted the search, it is want of memory.
pub fn drive_on<L: Label>(
    alloc: Global,
    shared: SharedTable<L>,
    passes: Row<Pass<L>>,
) -> Result<(Table<L>, TableReply), Memory>
    requires count { length passes ≡ shared.passes }
    requires passes { EachPlace (λ place p. IsPassOf L.algebra shared p) passes }
    ensures halted { OnOk result (is_any_halted passes ≡ false) }
    ensures setting { IfOk result (λ end. setting_of end.0 ≡ shared.setting) }
    ensures log { IfOk result (λ end. total (λ p. p.count) passes ≤ length end.0.log) }
    ensures stops { IfOk result (λ end. StopsAt L.algebra end.0 end.1) }
{
    let SharedEnd { table, halted } = shared.finish(passes);
    if halted {
        return Err(Memory);
    }
    table.drive(alloc, 0)
}
