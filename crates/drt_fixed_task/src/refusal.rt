//! The no of a vertex.
ghost use Rattle.std.specs.Prelude.{◌≡◌, ℕ, ◌<◌, ◌≤◌, IfOk, length};
ghost use Rattle.drt_model.specs.Digraph.{vertex_count};
ghost use Rattle.drt_busy.specs.Choice.{AreWalks, graph_at, task_at};
ghost use Rattle.drt_releases.specs.Walks.{walk_at};
ghost use Rattle.drt_fixed_task.specs.Answers.{IsTaskDecided};
ghost use Rattle.drt_fixed_task.specs.Higher.{higher_before, job_walk_in_file_order, walk_in_file_order};
ghost use Rattle.drt_fixed_task.specs.Subjects.{IsTaskGiven};
ghost use Rattle.drt_fixed_task.specs.Walks.{LeaveNoTime};

use crate::higher::is_higher;
use crate::subjects::Given;
use drt_busy::requests_miss;
use drt_model::{Memory, Miss, Row};
use drt_releases::{LAST_DEADLINE, all_releases, cut_walk, walk_of};
use drt_sp_task::TaskAnswer;
use std::alloc::Global;

// A vertex of the task, by its number; the walks of the tasks of higher priority beside it, in order of the file; and the ticks at which they
// are cut.
#[derive(Clone, Copy)]
struct Cut<'a> {
    vertex: u32,
    walks: &'a [Row<u32>],
    end: u32,
}

/// The no of a vertex of the task: the releases of walks of the tasks of higher priority, which stand in order of the file, as far as they come
/// before the vertex's deadline, and one of the vertex at 0, in order of tasks; and the miss of its job.
pub(crate) fn refuse(
    alloc: Global,
    given: Given<'_>,
    vertex: u32,
    walks: &[Row<u32>],
) -> Result<TaskAnswer, Memory>
    requires given { IsTaskGiven given }
    requires vertex { vertex < vertex_count (graph_at given.set.now.tasks given.task) }
    requires walks { LeaveNoTime given.set.now.tasks (walk_in_file_order given.set.now.tasks (task_at given.set.now.tasks given.task).priority walks.now) given.task vertex }
    ensures { IfOk result (IsTaskDecided given.entry.set.now.tasks given.entry.task) }
{
    requests_miss();
    given.set.keep_limits();
    let graphs = given.set.graphs();
    let deadline = graphs.graph(given.task).vertex(vertex).deadline;
    let cut = Cut {
        vertex,
        walks,
        end: deadline,
    };
    let chosen = job_walks(alloc, given, cut)?;
    let releases = all_releases(alloc, graphs, chosen.as_slice(), LAST_DEADLINE)?;
    Ok(TaskAnswer::Misses {
        releases: Row::from_vec(releases),
        miss: Miss {
            task: given.task,
            index: 0,
            deadline: u64::from(deadline),
        },
    })
}

// A walk for each task: for those of higher priority the one at its place, cut, and the vertex alone for the task itself.
fn job_walks(alloc: Global, given: Given<'_>, cut: Cut<'_>) -> Result<Vec<Row<u32>>, Memory>
    requires given { IsTaskGiven given }
    requires walks { AreWalks given.set.now.tasks (walk_in_file_order given.set.now.tasks (task_at given.set.now.tasks given.task).priority cut.walks.now) }
    ensures count { IfOk result (λ all. length all.items ≡ length given.entry.set.now.tasks) }
    ensures each { IfOk result (λ all. (i : ℕ) → i < length given.entry.set.now.tasks → walk_at all.items i ≡ job_walk_in_file_order given.entry.set.now.tasks cut.entry.walks.now given.entry.task cut.entry.vertex cut.entry.end i) }
{
    let mut chosen = Vec::new(alloc);
    let mut place = 0;
    'tasks: for k in 0..given.set.graphs().count() {
        chosen.push(job_walk(alloc, given, cut, place, k)?)?;
        if is_higher(given.set, k, given.task) {
            place += 1;
        }
    }
    Ok(chosen)
}

// The walk of one task among them, whose place this is.
fn job_walk(
    alloc: Global,
    given: Given<'_>,
    cut: Cut<'_>,
    place: u32,
    k: u32,
) -> Result<Row<u32>, Memory>
    requires given { IsTaskGiven given }
    requires walks { AreWalks given.set.now.tasks (walk_in_file_order given.set.now.tasks (task_at given.set.now.tasks given.task).priority cut.walks.now) }
    requires here { k < length given.set.now.tasks }
    requires place { place ≡ length (higher_before given.set.now.tasks (task_at given.set.now.tasks given.task).priority k) }
    ensures { IfOk result (λ walk. walk ≡ job_walk_in_file_order given.entry.set.now.tasks cut.entry.walks.now given.entry.task cut.entry.vertex cut.entry.end k) }
{
    if is_higher(given.set, k, given.task) {
        return cut_walk(
            alloc,
            given.set.graphs().graph(k),
            cut.end,
            walk_of(cut.walks, place),
        );
    }
    let mut alone = Vec::new(alloc);
    if k == given.task {
        alone.push(cut.vertex)?;
    }
    Ok(Row::from_vec(alone))
}
