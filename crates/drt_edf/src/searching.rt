//! The searches of the tasks' walks.
ghost use Rattle.std.specs.Prelude.{◌<◌, ◌≤◌, IfOk, length};
ghost use Rattle.drt_model.specs.Numbers.{most_horizon};
ghost use Rattle.drt_ahead.specs.Found.{AreThere};
ghost use Rattle.drt_edf.specs.Searches.{AreSearches, IsAheadOf, IsEndOf};

use crate::reckoning::{busy_workers, reckon_all};
use drt_ahead::{largest_first, look_ahead, take_found};
use drt_crew::Crew;
use drt_edf_fronts::{Ended, drive_task, has_wave_table, merged_front, search_task};
use drt_effort::Effort;
use drt_graph::{FrontEntry, Graphs};
use drt_model::{Memory, Row};
use drt_pool::Gate;
use drt_table::Entry;
use std::alloc::Global;
use std::sync::Wait;
use std::thread::Threads;

/// How the searches of the tasks' walks ended.
#[derive(Drop)]
pub(crate) enum Searched {
    /// Each is finished: their fronts, in order of tasks.
    Finished(Row<Row<FrontEntry>>),
    /// The first that spent its budget, by its task and its steps.
    Spent { task: u32, log: Row<Entry> },
}

/// What a worker found of a task's search ahead of its turn.
#[derive(Drop)]
pub(crate) enum FoundAhead {
    /// The front.
    Front(Row<FrontEntry>),
    /// Merging takes more steps than the budget has, so the search may spend it.
    Long,
    /// It wasn't looked at: its turn has come already, or all workers share its wave table.
    Left,
}

/// The searches of the walks of all tasks up to the bound, in ticks, each with the steps of the crew's budget. Each gives its front. They are
/// done in order of tasks. Once the first of those without a wave table is finished, workers merge ahead for the others of these, where several
/// have enough to do: most sets whose searches spend the budget do so in the first, and what is merged beside it is for nothing then.
pub(crate) fn searches<G: Gate, R: Threads + Wait + Sync>(
    crew: &Crew<'_, G, R>,
    graphs: &Graphs,
    bound: u64,
) -> Result<Searched, Memory>
    requires { bound ≤ most_horizon }
    ensures { IfOk result (AreSearches graphs.now bound crew.now.effort.budget) }
{
    let budget = crew.effort.budget();
    let mut found = Vec::new(crew.alloc);
    let mut is_looked = false;
    let mut fronts = Vec::new(crew.alloc);
    'tasks: for task in 0..graphs.count() {
        match end_of(crew, graphs, bound, task, &mut found)? {
            Ended::Front(front) => fronts.push(front)?,
            Ended::Full(log) => return Ok(Searched::Spent { task, log }),
        }
        if !is_looked && !has_wave_table(graphs.graph(task), bound, budget) {
            found = search_ahead(crew, graphs, bound, task)?;
            is_looked = true;
        }
    }
    Ok(Searched::Finished(Row::from_vec(fronts)))
}

// How the search of a task ends: with the front that was found ahead, or else it is searched now, without merging where that was tried.
fn end_of<G: Gate, R: Threads + Wait + Sync>(
    crew: &Crew<'_, G, R>,
    graphs: &Graphs,
    bound: u64,
    task: u32,
    found: &mut Vec<Option<FoundAhead>>,
) -> Result<Ended, Memory>
    requires task { task < length graphs.now }
    requires bound { bound ≤ most_horizon }
    requires found { AreThere (IsAheadOf graphs.now bound crew.now.effort.budget) found.old.items }
    ensures end { IfOk result (IsEndOf graphs.now bound crew.now.effort.budget task) }
    ensures found { AreThere (IsAheadOf graphs.now bound crew.now.effort.budget) found.new.items }
{
    let graph = graphs.graph(task);
    match take_found(found, task) {
        Some(FoundAhead::Front(front)) => Ok(Ended::Front(front)),
        Some(FoundAhead::Long) => drive_task(crew.alloc, graph, bound, crew.effort),
        _ => search_task(crew, graph, bound),
    }
}

// What workers find of the searches behind that of this task: each merges tasks that have no wave table, alone, until one takes too long.
fn search_ahead<G: Gate, R: Threads + Wait + Sync>(
    crew: &Crew<'_, G, R>,
    graphs: &Graphs,
    bound: u64,
    last: u32,
) -> Result<Vec<Option<FoundAhead>>, Memory>
    requires { bound ≤ most_horizon }
    ensures { IfOk result (λ found. AreThere (IsAheadOf graphs.now bound crew.now.effort.budget) found.items) }
{
    let (alloc, effort) = (crew.alloc, crew.effort);
    let steps = reckon_all(alloc, graphs, bound, effort.budget(), last)?;
    let workers = busy_workers(steps.as_slice(), effort.workers());
    if workers < 2 {
        return Ok(Vec::new(alloc));
    }
    let order = largest_first(alloc, steps.as_slice())?;
    let busy = crew.with(Effort::new(workers, effort.budget()));
    let merge = |task: u32| -> Result<FoundAhead, Memory>
        requires { (task < length graphs.now) × (bound ≤ most_horizon) }
        ensures { IfOk result (IsAheadOf graphs.entry.now bound effort.budget task) }
    {
        if task <= last {
            return Ok(FoundAhead::Left);
        }
        merge_alone(alloc, graphs, task, bound, effort)
    };
    look_ahead(&busy, order.as_slice(), merge, is_long)
}

// What merging gives of a task's search, where it has no wave table.
fn merge_alone(
    alloc: Global,
    graphs: &Graphs,
    task: u32,
    bound: u64,
    effort: Effort,
) -> Result<FoundAhead, Memory>
    requires task { task < length graphs.now }
    requires bound { bound ≤ most_horizon }
    ensures { IfOk result (IsAheadOf graphs.now bound effort.budget task) }
{
    let graph = graphs.graph(task);
    let budget = effort.budget();
    if has_wave_table(graph, bound, budget) {
        return Ok(FoundAhead::Left);
    }
    match merged_front(alloc, graph, bound, budget)? {
        Some(front) => Ok(FoundAhead::Front(front)),
        None => Ok(FoundAhead::Long),
    }
}

// Whether merging took too long: then no later search is asked for.
fn is_long(found: &FoundAhead) -> bool {
    matches!(found, FoundAhead::Long)
}
