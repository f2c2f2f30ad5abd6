//! The rounds of Audsley's rule, until each task has a rank.
ghost use Rattle.std.specs.Prelude.{◌≡◌, IfOk};
ghost use Rattle.drt_priorities.specs.Priorities.{prioritised};
ghost use Rattle.drt_assign.specs.Steps.{IsCourse, IsRanking};

use crate::answer::Stuck;
use crate::rounds::{Course, Round, find_next};
use crate::trial::{Standing, other_open};
use drt_model::{Memory, Row, TaskSet};
use drt_pool::Gate;
use drt_trails::FixedTrail;
use std::sync::Wait;
use std::thread::Threads;

/// How the rounds end. The set comes back with some priorities.
#[derive(Drop)]
pub(crate) enum Ranking {
    /// Each task has a rank.
    Whole {
        set: TaskSet,
        ranks: Row<u32>,
    },
    /// No open task meets its deadlines under the other open ones.
    AllStuck {
        set: TaskSet,
        stuck: Row<Stuck>,
    },
    /// A budget was spent at this task under these others.
    Spent {
        set: TaskSet,
        higher: Row<u32>,
        task: u32,
        trail: FixedTrail,
    },
}

/// Gives ranks by Audsley's rule: in each round the number of open tasks goes to the first that meets its deadlines under the others.
pub(crate) fn rank_all<G: Gate, R: Threads + Wait + Sync>(
    course: &Course<'_, G, R>,
    set: TaskSet,
) -> Result<Ranking, Memory>
    requires course { IsCourse (prioritised set.tasks course.now.old.now) course.now.graphs.now course.now.old.now }
    ensures { IfOk result (IsRanking (prioritised set.tasks course.now.old.now) course.now.old.now course.now.crew.now.effort.budget) }
{
    let mut ranks = vec![in course.crew.alloc; 0u32; course.old.len()]?;
    let mut open_count = course.old.len() as u32;
    let mut set = set;
    'rounds: while open_count > 0 {
        let standing = Standing {
            ranks: ranks.as_slice(),
            open_count,
        };
        match find_next(course, set, standing)? {
            Round::Found { set: tried, task } => {
                ranks[task as usize] = open_count;
                open_count -= 1;
                set = tried;
            }
            Round::AllStuck { set: tried, stuck } => {
                return Ok(Ranking::AllStuck { set: tried, stuck });
            }
            Round::Spent {
                set: tried,
                task,
                trail,
            } => {
                let higher = Row::from_vec(other_open(course.crew.alloc, &ranks, task)?);
                return Ok(Ranking::Spent {
                    set: tried,
                    higher,
                    task,
                    trail,
                });
            }
        }
    }
    Ok(Ranking::Whole {
        set,
        ranks: Row::from_vec(ranks),
    })
}
