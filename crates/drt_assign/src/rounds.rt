//! One round of Audsley's rule: which open task passes under the other ones.
ghost use Rattle.std.specs.Prelude.{◌≡◌, ◌<◌, IfOk, length, slice_index};
ghost use Rattle.drt_priorities.specs.Priorities.{prioritised};
ghost use Rattle.drt_assign.specs.Rule.{AreRanks};
ghost use Rattle.drt_assign.specs.Steps.{IsCourse, IsRoundAnswer, IsTaskTried};

use crate::ahead::{look_further, nothing_ahead, take_or_try};
use crate::answer::Stuck;
use crate::trial::{Standing, trial_priorities};
use drt_accepted::Accepted;
use drt_crew::Crew;
use drt_fixed_task::decide_task;
use drt_graph::Graphs;
use drt_model::{Memory, Row, TaskSet};
use drt_pool::Gate;
use drt_priorities::prioritise;
use drt_sp_task::TaskAnswer;
use drt_trails::FixedTrail;
use std::sync::Wait;
use std::thread::Threads;

/// What stays over all rounds: who decides of a task, and with how many steps; the graphs of the tasks; and the priorities that the file
/// gives them.
#[derive(Drop)]
pub(crate) struct Course<'a, G, R> {
    pub(crate) crew: &'a Crew<'a, G, R>,
    pub(crate) graphs: &'a Graphs,
    pub(crate) old: &'a [u32],
}

/// How a round ends. The set comes back with some priorities.
#[derive(Drop)]
pub(crate) enum Round {
    /// This task, the first in order of the file, meets its deadlines under the other open ones.
    Found {
        set: TaskSet,
        task: u32,
    },
    /// No open task does.
    AllStuck {
        set: TaskSet,
        stuck: Row<Stuck>,
    },
    /// A budget was spent at this task.
    Spent {
        set: TaskSet,
        task: u32,
        trail: FixedTrail,
    },
}

/// Tries the open tasks, in order of the file, until one meets its deadlines under the other open ones.
///
/// The first one is tried by all workers. Where it misses, and the set isn't small, the next ones are tried side by side, one by each worker,
/// and so on. So at most as many tasks are tried for nothing as there are workers, less one.
pub(crate) fn find_next<G: Gate, R: Threads + Wait + Sync>(
    course: &Course<'_, G, R>,
    set: TaskSet,
    standing: Standing<'_>,
) -> Result<Round, Memory>
    requires course { IsCourse (prioritised set.tasks course.now.old.now) course.now.graphs.now course.now.old.now }
    requires ranks { AreRanks (length set.tasks) standing.open_count standing.ranks.now }
    ensures { IfOk result (IsRoundAnswer (prioritised set.tasks course.now.old.now) course.now.old.now standing.entry.ranks.now standing.entry.open_count course.now.crew.now.effort.budget) }
{
    let ranks = standing.ranks;
    let mut set = set;
    let mut stuck = Vec::new(course.crew.alloc);
    let mut ahead = nothing_ahead(course.crew.alloc);
    'tasks: for k in 0..ranks.len() {
        if ranks[k] == 0 {
            let task = k as u32;
            ahead = look_further(course, &set, standing, task, &stuck, ahead)?;
            let (tried, answer) = take_or_try(course, set, standing, task, &mut ahead)?;
            match answer {
                TaskAnswer::Meets => return Ok(Round::Found { set: tried, task }),
                TaskAnswer::Undecided(trail) => {
                    return Ok(Round::Spent {
                        set: tried,
                        task,
                        trail,
                    });
                }
                TaskAnswer::Misses { releases, miss } => {
                    stuck.push(Stuck { releases, miss })?;
                    set = tried;
                }
            }
        }
    }
    Ok(Round::AllStuck {
        set,
        stuck: Row::from_vec(stuck),
    })
}

/// Decides whether an open task meets its deadlines under the other open ones, in the set with priorities for that.
pub(crate) fn try_task<G: Gate, R: Threads + Wait + Sync>(
    course: &Course<'_, G, R>,
    set: TaskSet,
    standing: Standing<'_>,
    task: u32,
) -> Result<(TaskSet, TaskAnswer), Memory>
    requires course { IsCourse (prioritised set.tasks course.now.old.now) course.now.graphs.now course.now.old.now }
    requires ranks { AreRanks (length set.tasks) standing.open_count standing.ranks.now }
    requires task { task < length standing.ranks.now }
    requires is_open { slice_index standing.ranks.now task ≡ 0 }
    ensures { IfOk result (λ r. IsTaskTried (prioritised set.tasks course.now.old.now) standing.entry.ranks.now standing.entry.open_count task course.now.crew.now.effort.budget r.0 r.1) }
{
    let priorities = trial_priorities(course.crew.alloc, standing, task)?;
    let set = prioritise(set, 2, &priorities);
    let answer = decide_task(course.crew, &Accepted::of(&set, course.graphs), task)?;
    Ok((set, answer))
}
