//! The subject of a search for the response of a vertex.
ghost use Rattle.std.specs.Prelude.{◌≡◌, ◌<◌, length};
ghost use Rattle.drt_model.specs.Digraph.{vertex_count};
ghost use Rattle.drt_busy.specs.Choice.{graph_at};
ghost use Rattle.drt_claims.specs.Trees.{higher_count};
ghost use Rattle.drt_sp_states.specs.Subjects.{IsStateSubject};
ghost use Rattle.drt_response.specs.Subjects.{IsResponseGiven, IsResponseSubject};

use drt_accepted::Accepted;
use drt_model::{Row, Task};
use drt_sp_states::Subject;
use drt_states::{Jump, TailClaim};

/// What the searches of all vertices are over: the set, the tasks in order of priority, and the tails of all but the last one with their
/// greatest values.
#[derive(Clone, Copy)]
pub(crate) struct Given<'a> {
    pub set: &'a Accepted<'a>,
    pub order: &'a [u32],
    pub tails: &'a [TailClaim],
    pub crests: &'a [Row<Jump>],
}

/// A vertex of a task, by their numbers.
#[derive(Clone, Copy)]
pub(crate) struct VertexAt {
    pub task: u32,
    pub vertex: u32,
}

/// The subject of the search of a vertex of a task: the tasks of higher priority, and the job of the vertex.
pub(crate) fn subject_of<'a>(given: Given<'a>, at: VertexAt) -> Subject<'a>
    requires given { IsResponseGiven given }
    requires task { at.task < length given.set.now.tasks }
    requires vertex { at.vertex < vertex_count (graph_at given.set.now.tasks at.task) }
    ensures subject { IsStateSubject result }
    ensures is { IsResponseSubject given.entry at result }
{
    let tasks = given.set.tasks();
    let count = higher_count(tasks, tasks[at.task as usize].priority);
    let graphs = given.set.graphs();
    let job = graphs.graph(at.task).vertex(at.vertex);
    Subject {
        graphs,
        order: &given.order[..count],
        tails: &given.tails[..count],
        crests: &given.crests[..count],
        wcet: job.wcet,
        deadline: job.deadline,
    }
}

/// How many tasks have a higher priority than the number stands for.
pub(crate) fn higher_count(tasks: &[Task], priority: u32) -> usize
    ensures { result ≡ higher_count tasks.now priority }
{
    tasks.iter().filter(|t| t.priority < priority).count()
}
