//! The analysis.
ghost use Rattle.std.specs.Prelude.{◌≡◌, ◌≤◌, IfOk};
ghost use Rattle.drt_check_trees.specs.Order.{IsOrder};
ghost use Rattle.drt_sp.specs.Answers.{IsTreeAnswer};
ghost use Rattle.drt_sp.specs.Grown.{IsOutcome, IsTreesAnswer};

use crate::ahead::{EndsAhead, search_ahead};
use crate::answer::Answer;
use crate::grown::ProvedTrees;
use crate::progress::{Given, Progress};
use drt_accepted::Accepted;
use drt_check_trees::{greatest_deadline, priority_order};
use drt_claims::Evidence;
use drt_crew::Crew;
use drt_model::Memory;
use drt_pool::Gate;
use drt_trails::FixedTrail;
use std::sync::Wait;
use std::thread::Threads;

/// How many steps each table and each frontier has before an analysis tries tails and states, where its budget is greater.
pub const ALLOWANCE: u64 = 4_096;

/// Decides whether an accepted set is schedulable under fixed priorities. The workers of the crew end the combinations of a task's vertices
/// side by side, each those that it takes, and the gate sees each of these turns; the answer is that of one worker, to the byte.
/// The walks of several tasks are searched side by side, each by one worker, and the gate sees each of these searches before it begins.
/// Each search and each refinement ends after the crew's budget of steps at the latest.
///
/// For each task, from the highest priority on, first each of its vertices is proved, in file order, against the trees of the tasks of
/// higher priority. Then, unless it has the lowest priority, its walks are searched up to the greatest deadline of the set, for its own
/// tree. The first vertex that fails gives the no, and the first search or refinement that spends its budget ends the analysis.
///
/// Source: Stigge and Yi, "Combinatorial Abstraction Refinement for Feasibility Analysis" (RTSS 2013).
pub fn analyse_fixed<G: Gate, R: Threads + Wait + Sync>(
    crew: &Crew<'_, G, R>,
    set: &Accepted<'_>,
) -> Result<Answer<Evidence, FixedTrail>, Memory>
    ensures { IfOk result (IsTreeAnswer set.now crew.now.effort.budget) }
{
    let ranked = priority_order(crew.alloc, set.set())?;
    let order = ranked.as_slice();
    match analyse(crew, &Given { set: &*set, order })? {
        Answer::Meets(progress) => {
            let evidence = progress.evidence(crew.alloc, set)?;
            Ok(Answer::Meets(evidence))
        }
        Answer::Misses(evidence) => Ok(Answer::Misses(evidence)),
        Answer::Undecided(trail) => Ok(Answer::Undecided(trail)),
    }
}

/// The same analysis, by workers in the same way, for whoever goes on with the trees of a set that is schedulable.
pub fn analyse_trees<G: Gate, R: Threads + Wait + Sync>(
    crew: &Crew<'_, G, R>,
    set: &Accepted<'_>,
) -> Result<Answer<ProvedTrees, FixedTrail>, Memory>
    ensures { IfOk result (IsTreesAnswer set.now crew.now.effort.budget) }
{
    let ranked = priority_order(crew.alloc, set.set())?;
    let order = ranked.as_slice();
    match analyse(crew, &Given { set: &*set, order })? {
        Answer::Meets(progress) => Ok(Answer::Meets(ProvedTrees::of(set, ranked, progress))),
        Answer::Misses(evidence) => Ok(Answer::Misses(evidence)),
        Answer::Undecided(trail) => Ok(Answer::Undecided(trail)),
    }
}

// The analysis of the tasks in their order.
fn analyse<G: Gate, R: Threads + Wait + Sync>(
    crew: &Crew<'_, G, R>,
    given: &Given<'_>,
) -> Result<Answer<Progress, FixedTrail>, Memory>
    requires { IsOrder given.now.set.now.tasks given.now.order.now }
    ensures { IfOk result (IsOutcome given.now.set.now given.now.order.now crew.now.effort.budget) }
{
    given.set.keep_limits();
    let mut progress = Progress::start(crew.alloc, given)?;
    let last = given.order.len() - 1;
    let bound = u64::from(greatest_deadline(given.set.set()));
    let mut ahead = EndsAhead::nothing(crew.alloc);
    'places: for place in 0..last {
        match progress.prove_task(crew, given, place)? {
            Answer::Meets(()) => {}
            Answer::Misses(evidence) => return Ok(Answer::Misses(evidence)),
            Answer::Undecided(trail) => return Ok(Answer::Undecided(trail)),
        }
        ahead = search_ahead(crew, given, place, bound, ahead)?;
        let found = ahead.take(place);
        if let Some(trail) = progress.add_tree(crew, given, place, found)? {
            return Ok(Answer::Undecided(trail));
        }
    }
    match progress.prove_task(crew, given, last)? {
        Answer::Meets(()) => Ok(Answer::Meets(progress)),
        Answer::Misses(evidence) => Ok(Answer::Misses(evidence)),
        Answer::Undecided(trail) => Ok(Answer::Undecided(trail)),
    }
}
