//! Priorities for a set.
ghost use Rattle.std.specs.Prelude.{◌≡◌, IfOk, map};
ghost use Rattle.drt_model.specs.Constrained.{AreConstrained};
ghost use Rattle.drt_model.specs.Schedulable.{Schedulable};
ghost use Rattle.drt_model.specs.declared.jobs.Policy.TheVariants.{Fixed};
ghost use Rattle.drt_claims.specs.Claims.{graphs_of};
ghost use Rattle.drt_assign.specs.Assign.{IsAssigned};
ghost use Rattle.drt_assign.specs.Steps.{IsAnalysis};

use crate::answer::AssignAnswer;
use crate::ranking::{Ranking, rank_all};
use crate::rounds::Course;
use drt_accepted::Accepted;
use drt_busy::times_decide;
use drt_claims::Dossier;
use drt_crew::Crew;
use drt_fixed::{Analysed, analyse_fixed};
use drt_model::{Memory, Policy, Task, TaskSet};
use drt_pool::Gate;
use drt_priorities::{copy_of, prioritise};
use std::alloc::Global;
use std::sync::Wait;
use std::thread::Threads;

/// Looks for distinct priorities under which a set with constrained deadlines is schedulable, by Audsley's rule.
///
/// At first all tasks are open. The number of open tasks, as a priority, goes to the first open task, in order of the file, that meets its
/// deadlines under all other open ones, and so on with the rest. Where no open task does, no priorities make the set schedulable. The
/// priorities that the tasks have play no part. At the end the set with the new priorities is analysed. Each analysis has the workers of
/// the crew, and its budget of steps for each search.
///
/// Source: Audsley, "Optimal priority assignment and feasibility of static priority tasks with arbitrary start times" (1991).
pub fn assign<G: Gate, R: Threads + Wait + Sync>(
    crew: &Crew<'_, G, R>,
    set: &Accepted<'_>,
) -> Result<AssignAnswer, Memory>
    ensures { IfOk result (IsAssigned set.now crew.now.effort.budget) }
{
    set.keep_limits();
    let old = priorities_of(crew.alloc, set.tasks())?;
    let course = Course {
        crew,
        graphs: set.graphs(),
        old: old.as_slice(),
    };
    let own = copy_of(crew.alloc, set.set())?;
    let version = own.version();
    times_decide();
    match rank_all(&course, own)? {
        Ranking::Whole { set, ranks } => {
            analyse_order(&course, prioritise(set, 2, ranks.as_slice()))
        }
        Ranking::AllStuck { set, stuck } => Ok(AssignAnswer::NoOrder {
            set: prioritise(set, version, &old),
            stuck,
        }),
        Ranking::Spent {
            set,
            higher,
            task,
            trail,
        } => Ok(AssignAnswer::Undecided {
            set: prioritise(set, version, &old),
            higher,
            task,
            trail,
        }),
    }
}

// The priorities that the tasks have.
fn priorities_of(alloc: Global, tasks: &[Task]) -> Result<Vec<u32>, Memory>
    ensures { IfOk result (λ priorities. priorities.items ≡ map (λ t. t.priority) tasks.now) }
{
    tasks.iter().map(|task| task.priority).collect(alloc)
}

// The analysis of a schedulable set: its evidence says yes, or a budget is spent.
fn analyse_order<G: Gate, R: Threads + Wait + Sync>(
    course: &Course<'_, G, R>,
    set: TaskSet,
) -> Result<AssignAnswer, Memory>
    requires constrained { AreConstrained set.tasks }
    requires graphs { course.now.graphs.now ≡ graphs_of set.tasks }
    requires schedulable { Schedulable set.tasks Fixed }
    ensures { IfOk result (IsAnalysis set course.now.crew.now.effort.budget) }
{
    let accepted = Accepted::of(&set, course.graphs);
    let Analysed { evidence, trail } = analyse_fixed(course.crew, &accepted)?;
    match trail {
        None => Ok(AssignAnswer::Done(Dossier {
            policy: Policy::Fixed,
            set,
            evidence,
        })),
        Some(trail) => Ok(AssignAnswer::Unproved { set, trail }),
    }
}
