//! The response times of a set.
ghost use Rattle.std.specs.Prelude.{IfOk};
ghost use Rattle.drt_response.specs.Answers.{IsResponseAnswer};

use crate::answer::ResponseTrail;
use crate::by_states::respond_by_states;
use crate::by_trees::respond_by_trees;
use drt_accepted::Accepted;
use drt_crew::Crew;
use drt_fixed::{ALLOWANCE, first_effort, is_beyond_trees};
use drt_model::{Memory, Row};
use drt_pool::Gate;
use drt_responses::Response;
use drt_sp::Answer;
use std::sync::Wait;
use std::thread::Threads;

/// The exact worst response time of each vertex of a set that is schedulable under fixed priorities, in ticks, with
/// releases that reach it; or a no with its evidence.
///
/// First each search of trees has the crew's budget or 4,096 steps, whichever is less; in the latter case one worker
/// makes them, unless they are bound to be spent. Where they are and the budget is greater, the states of each vertex
/// are searched, with the budget for each; and where that finds nothing, trees have the whole budget, and what they say
/// stands. The workers search together, and the gate sees each of their turns.
pub fn respond<G: Gate, R: Threads + Wait + Sync>(
    crew: &Crew<'_, G, R>,
    set: &Accepted<'_>,
) -> Result<Answer<Row<Response>, ResponseTrail>, Memory>
    ensures { IfOk result (IsResponseAnswer set.now crew.now.effort.budget) }
{
    if crew.effort.budget() <= ALLOWANCE || !is_beyond_trees(crew.alloc, set)? {
        let few = crew.with(first_effort(&crew.effort));
        match respond_by_trees(&few, set)? {
            Answer::Meets(responses) => return Ok(Answer::Meets(responses)),
            Answer::Misses(evidence) => return Ok(Answer::Misses(evidence)),
            Answer::Undecided(trail) if crew.effort.budget() <= ALLOWANCE => {
                return Ok(Answer::Undecided(trail));
            }
            Answer::Undecided(_) => {}
        }
    }
    match respond_by_states(crew, set)? {
        Answer::Meets(responses) => return Ok(Answer::Meets(responses)),
        Answer::Misses(evidence) => return Ok(Answer::Misses(evidence)),
        Answer::Undecided(()) => {}
    }
    respond_by_trees(crew, set)
}
