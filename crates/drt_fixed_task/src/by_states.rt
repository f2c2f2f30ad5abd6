//! The answer to one task by tails and states.
ghost use Rattle.std.specs.Prelude.{◌<◌, IfOk, IfSome, length};
ghost use Rattle.drt_model.specs.Digraph.{vertex_count};
ghost use Rattle.drt_busy.specs.Choice.{graph_at};
ghost use Rattle.drt_fixed_task.specs.Answers.{IsTaskDecided, IsSearched};
ghost use Rattle.drt_fixed_task.specs.Subjects.{IsTaskGiven};

use crate::higher::higher_tasks;
use crate::refusal::refuse;
use crate::subjects::{Given, subject_of};
use crate::tails::find_tails;
use drt_accepted::Accepted;
use drt_busy::times_suffice_for_task;
use drt_check_states::find_crests;
use drt_crew::Crew;
use drt_model::Memory;
use drt_pool::Gate;
use drt_sp_states::{Searched, search_states};
use drt_sp_task::TaskAnswer;
use drt_states_laws::states_pass;
use drt_tails::latest_deadline;
use std::sync::Wait;
use std::thread::Threads;

/// What tails and states say of a task: that it meets its deadlines, or how it misses one. None where they say nothing.
///
/// Each task of higher priority has one tail, up to the greatest deadline of the task. Then the states of each vertex are searched, in order
/// of the file.
pub(crate) fn decide_by_states<G: Gate, R: Threads + Wait + Sync>(
    crew: &Crew<'_, G, R>,
    set: &Accepted<'_>,
    task: u32,
) -> Result<Option<TaskAnswer>, Memory>
    requires task { task < length set.now.tasks }
    ensures { IfOk result (λ found. IfSome found (IsTaskDecided set.now.tasks task)) }
{
    let graphs = set.graphs();
    let numbers = higher_tasks(crew.alloc, set, task)?;
    let higher = numbers.as_slice();
    let bound = latest_deadline(graphs.graph(task));
    let Some(found) = find_tails(crew.alloc, graphs, higher, bound)? else {
        return Ok(None);
    };
    let tails = found.as_slice();
    let crests = find_crests(crew.alloc, tails)?;
    let given = Given {
        set,
        task,
        higher,
        bound,
        tails,
        crests: crests.as_slice(),
    };
    decide_vertices(crew, given)
}

// What the searches of the vertices of the task say, in order of the file.
fn decide_vertices<G: Gate, R: Threads + Wait + Sync>(
    crew: &Crew<'_, G, R>,
    given: Given<'_>,
) -> Result<Option<TaskAnswer>, Memory>
    requires given { IsTaskGiven given }
    ensures { IfOk result (λ found. IfSome found (IsTaskDecided given.entry.set.now.tasks given.entry.task)) }
{
    times_suffice_for_task();
    given.set.keep_limits();
    let graph = given.set.graphs().graph(given.task);
    'vertices: for vertex in 0..graph.vertex_count() {
        let searched = search_vertex(crew, given, vertex)?;
        match searched {
            Searched::Passes(_) => {}
            Searched::Misses(walks) => {
                let answer = refuse(crew.alloc, given, vertex, walks.as_slice())?;
                return Ok(Some(answer));
            }
            Searched::Spent => return Ok(None),
        }
    }
    Ok(Some(TaskAnswer::Meets))
}

// What the search of the states of a vertex says of it.
fn search_vertex<G: Gate, R: Threads + Wait + Sync>(
    crew: &Crew<'_, G, R>,
    given: Given<'_>,
    vertex: u32,
) -> Result<Searched, Memory>
    requires given { IsTaskGiven given }
    requires vertex { vertex < vertex_count (graph_at given.set.now.tasks given.task) }
    ensures { IfOk result (IsSearched given.entry.set.now.tasks given.entry.task vertex) }
{
    states_pass();
    given.set.keep_limits();
    let subject = subject_of(given, vertex);
    search_states(crew, subject)
}
