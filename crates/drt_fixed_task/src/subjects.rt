//! The subject of the search of a vertex.
ghost use Rattle.std.specs.Prelude.{◌<◌};
ghost use Rattle.drt_model.specs.Digraph.{vertex_count};
ghost use Rattle.drt_busy.specs.Choice.{graph_at};
ghost use Rattle.drt_sp_states.specs.Subjects.{IsStateSubject};
ghost use Rattle.drt_fixed_task.specs.Subjects.{IsTaskGiven, IsTaskSubject};

use drt_accepted::Accepted;
use drt_model::Row;
use drt_sp_states::Subject;
use drt_states::{Jump, TailClaim};

/// What the searches of the vertices of a task are over: the set with its graphs, the task, those of higher priority in order of the file, and
/// their tails up to a bound with the greatest values of these.
#[derive(Clone, Copy)]
pub(crate) struct Given<'a> {
    pub set: &'a Accepted<'a>,
    pub task: u32,
    pub higher: &'a [u32],
    pub bound: u32,
    pub tails: &'a [TailClaim],
    pub crests: &'a [Row<Jump>],
}

/// The subject of the search of a vertex of the task: the tasks of higher priority, and the job of the vertex.
pub(crate) fn subject_of<'a>(given: Given<'a>, vertex: u32) -> Subject<'a>
    requires given { IsTaskGiven given }
    requires vertex { vertex < vertex_count (graph_at given.set.now.tasks given.task) }
    ensures subject { IsStateSubject result }
    ensures is { IsTaskSubject given.entry vertex result }
{
    given.set.keep_limits();
    let graphs = given.set.graphs();
    let job = graphs.graph(given.task).vertex(vertex);
    Subject {
        graphs,
        order: given.higher,
        tails: given.tails,
        crests: given.crests,
        wcet: job.wcet,
        deadline: job.deadline,
    }
}
