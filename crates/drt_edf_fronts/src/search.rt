//! The search of a task's walks.
ghost use Rattle.std.specs.Prelude.{◌≡◌, ◌≤◌, IfOk};
ghost use Rattle.drt_table.specs.Machine.{search_of};
ghost use Rattle.drt_model.specs.Numbers.{most_horizon};
ghost use Rattle.drt_model.specs.Digraph.{IsConstrainedGraph};
ghost use Rattle.drt_edf_fronts.specs.Ends.{IsEnded};
ghost use Rattle.drt_table.specs.Drive.{StopsAt};
ghost use Rattle.drt_table.specs.View.{setting_of};
ghost use Rattle.drt_demand.specs.Demand.{demand_algebra};

use crate::fronts::front_of;
use crate::merged::merged_front;
use crate::waves::{has_wave_table, wave_front};
use drt_crew::Crew;
use drt_demand::DemandLabel;
use drt_effort::Effort;
use drt_graph::{FrontEntry, Graph};
use drt_model::{Memory, Row};
use drt_pool::Gate;
use drt_table::{Entry, Table, TableReply, over_every_interleaving};
use std::alloc::Global;
use std::sync::Wait;
use std::thread::Threads;

// The search of one graph's walks up to the bound, driven to its end. Its steps are shorter than handing on a lock, so one worker makes them.
fn search(
    alloc: Global,
    graph: &Graph,
    bound: u64,
    effort: Effort,
) -> Result<(Table<DemandLabel>, TableReply), Memory>
    requires bound { bound ≤ most_horizon }
    ensures setting { IfOk result (λ end. setting_of end.0 ≡ search_of graph.now bound effort.budget) }
    ensures stops { IfOk result (λ end. StopsAt demand_algebra end.0 end.1) }
{
    let budget = effort.budget();
    let table: Table<DemandLabel> = Table::start(alloc, graph, bound, budget)?;
    table.drive(alloc, 0)
}

/// How the search of one task's walks ended: with its front, or with the steps by which it spent its budget.
#[derive(Drop)]
pub enum Ended {
    /// The front of the walks.
    Front(Row<FrontEntry>),
    /// As many steps as the budget has.
    Full(Row<Entry>),
}

/// The search of one task's walks up to the bound, in ticks: in a wave table, by several workers, where it has one; else by one worker, by
/// merging, and where the budget is too little for that, in a table whose steps the budget counts.
pub fn search_task<G: Gate, R: Threads + Wait + Sync>(
    crew: &Crew<'_, G, R>,
    graph: &Graph,
    bound: u64,
) -> Result<Ended, Memory>
    requires constrained { IsConstrainedGraph graph.now }
    requires bound { bound ≤ most_horizon }
    ensures { IfOk result (IsEnded graph.now bound crew.now.effort.budget) }
{
    let budget = crew.effort.budget();
    if has_wave_table(graph, bound, budget) {
        let front = wave_front(crew, graph, bound)?;
        return Ok(Ended::Front(front));
    }
    match merged_front(crew.alloc, graph, bound, budget)? {
        Some(front) => Ok(Ended::Front(front)),
        None => drive_task(crew.alloc, graph, bound, crew.effort),
    }
}

/// The same search for a task that merging gives nothing of: by one worker, in a table whose steps the budget counts.
pub fn drive_task(alloc: Global, graph: &Graph, bound: u64, effort: Effort) -> Result<Ended, Memory>
    requires constrained { IsConstrainedGraph graph.now }
    requires bound { bound ≤ most_horizon }
    ensures { IfOk result (IsEnded graph.now bound effort.budget) }
{
    over_every_interleaving::<DemandLabel>();
    let (table, _reply) = search(alloc, graph, bound, effort)?;
    if !table.finished() {
        table.keep_run();
        return Ok(Ended::Full(Row::from_vec(table.into_log())));
    }
    Ok(Ended::Front(front_of(alloc, graph, &table)?))
}
