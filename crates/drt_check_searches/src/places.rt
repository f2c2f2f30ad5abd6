//! The places of tails: the tasks but the one of lowest priority, in order of priority.
ghost use Rattle.std.specs.Prelude.{◌≡◌, ◌<◌, Some, length, nat_lt, slice_get};
ghost use Rattle.std.specs.List.{count_by};
ghost use Rattle.drt_model.specs.declared.tasks.Task.{Task};
ghost use Rattle.drt_claims.specs.Claims.{graphs_of};
ghost use Rattle.drt_claims.specs.Sorting.{sorted_higher_places, sorted_places};
ghost use Rattle.drt_claims.specs.Trees.{higher_count};
ghost use Rattle.drt_states.specs.Tails.{graphs_of_places as place_graphs};
ghost use Rattle.drt_check_states.specs.Places.{AreTasks, graphs_at};
ghost use Rattle.drt_check_trees.specs.Order.{IsPriorityOrder};
ghost use Rattle.drt_check_searches.specs.Places.{place_at};

use crate::bounds::lower_deadline;
use drt_graph::{Graph, Graphs};
use drt_model::{Task, TaskSet};

/// The graph at a place.
pub(crate) fn graph_at<'a>(
    set: &TaskSet,
    graphs: &'a Graphs,
    order: &[u32],
    place: usize,
) -> &'a Graph
    requires graphs { graphs.now ≡ graphs_of set.now.tasks }
    requires order { IsPriorityOrder set.now.tasks order.now }
    requires place { place < length (sorted_places set.now.tasks) }
    ensures { result.now ≡ (place_at (sorted_places set.now.tasks) place).graph }
{
    graphs.graph(order[place])
}

/// The greatest deadline of the tasks of lower priority than the one at a place, in ticks.
pub(crate) fn bound_at(set: &TaskSet, order: &[u32], place: usize) -> u32
    requires order { IsPriorityOrder set.now.tasks order.now }
    requires place { place < length (sorted_places set.now.tasks) }
    ensures { result ≡ (place_at (sorted_places set.now.tasks) place).bound }
{
    let tasks = set.tasks();
    lower_deadline(tasks, tasks[order[place] as usize].priority)
}

/// The numbers of the tasks of higher priority than the task of a number, in order of priority.
pub(crate) fn higher_order<'a>(
    set: &TaskSet,
    graphs: &Graphs,
    order: &'a [u32],
    task: u32,
) -> &'a [u32]
    requires graphs { graphs.now ≡ graphs_of set.now.tasks }
    requires order { IsPriorityOrder set.now.tasks order.now }
    requires task { task < length set.now.tasks }
    ensures tasks { AreTasks graphs.now result.now }
    ensures graphs { (t : Task) → slice_get set.now.tasks task ≡ Some t → graphs_at graphs.now result.now ≡ place_graphs (sorted_higher_places set.now.tasks t) }
{
    let tasks = set.tasks();
    let count = higher_count(tasks, tasks[task as usize].priority);
    &order[..count]
}

/// How many tasks have a higher priority than the number stands for.
pub(crate) fn higher_count(tasks: &[Task], priority: u32) -> usize
    ensures { result ≡ higher_count tasks.now priority }
{
    tasks.iter().filter(|t| t.priority < priority).count()
}
