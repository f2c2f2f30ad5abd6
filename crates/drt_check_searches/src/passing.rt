//! Whether the times at which states of searches pass pass.
ghost use Rattle.std.specs.Prelude.{◌↔◌, All, IfOk, IsTrue};
ghost use Rattle.drt_claims.specs.Searches.{HasPassingStates};
ghost use Rattle.drt_claims.specs.Sorting.{sorted_places};
ghost use Rattle.drt_states.specs.Tails.{EachTail, IsTail};
ghost use Rattle.drt_check_states.specs.Crests.{AreCrests};

use crate::places::higher_count;
use crate::vertices::numbers;
use drt_check_states::{find_crests, have_passing_times};
use drt_model::{Memory, Row, TaskSet};
use drt_states::{Jump, SearchClaim, TailClaim};
use std::alloc::Global;

/// Whether each time at which a state of a search passes passes: it is 1 or later, not past the deadline of the search's vertex, and
/// the execution time of the vertex and what the state asks for before it fit into it.
///
/// The greatest values of the tails are found once, for all searches: 16 bytes for each jump of a tail, a few times over.
pub fn have_passing_states(
    alloc: Global,
    set: &TaskSet,
    tails: &[TailClaim],
    searches: &[SearchClaim],
) -> Result<bool, Memory>
    requires tails { EachTail IsTail (sorted_places set.now.tasks) tails.now }
    ensures { IfOk result (λ have. IsTrue have ↔ All (HasPassingStates set.now.tasks tails.now) searches.now) }
{
    let crests = find_crests(alloc, tails)?;
    Ok(are_passing(set, tails, crests.as_slice(), searches))
}

fn are_passing(
    set: &TaskSet,
    tails: &[TailClaim],
    crests: &[Row<Jump>],
    searches: &[SearchClaim],
) -> bool
    requires tails { EachTail IsTail (sorted_places set.now.tasks) tails.now }
    requires crests { AreCrests tails.now crests.now }
    ensures { IsTrue result ↔ All (HasPassingStates set.now.tasks tails.now) searches.now }
{
    for i in 0..searches.len() {
        if !is_passing(set, tails, crests, &searches[i]) {
            return false;
        }
    }
    true
}

fn is_passing(
    set: &TaskSet,
    tails: &[TailClaim],
    crests: &[Row<Jump>],
    search: &SearchClaim,
) -> bool
    requires tails { EachTail IsTail (sorted_places set.now.tasks) tails.now }
    requires crests { AreCrests tails.now crests.now }
    ensures { IsTrue result ↔ HasPassingStates set.now.tasks tails.now search.now }
{
    let tasks = set.tasks();
    if search.task as usize >= tasks.len() {
        return true;
    }
    let task = &tasks[search.task as usize];
    let count = higher_count(tasks, task.priority);
    let (wcet, deadline) = numbers(task, search.vertex);
    have_passing_times(
        &tails[..count],
        &crests[..count],
        deadline,
        wcet,
        search.states.as_slice(),
    )
}
