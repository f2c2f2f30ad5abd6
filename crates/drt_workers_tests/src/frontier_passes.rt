//! Passes that are turned in a given order, by one thread. What each turn is answered was worked out by hand.

ghost use Rattle.std.specs.Prelude.{IfOk};
ghost use Rattle.drt_refine.specs.View.{IsFrontier};

use crate::frontier_driver::{Play, close, follow, has_log, have, make_effort, share};
use drt_model::Memory;
use drt_refine::{Frontier, FrontierReply, FrontierStep};
use drt_test_tools::{three_walks, two_walks};
use drt_tree::Forest;
use std::alloc::Global;
use std::process::Abort;
use std::sync::Wait;
use std::test::Fail;

const TAKE: FrontierStep = FrontierStep::Take;

// The root is combination 0, and its parts are 1 and 2.
const SPLIT: FrontierStep = FrontierStep::Split { id: 0, place: 0 };

const FAIL: FrontierStep = FrontierStep::Fail { id: 2 };

// Passes of one tree, their turns, and what there is after them: how many steps each counted, what it holds, and the log.
struct Case {
    deadline: u32,
    budget: u64,
    passes: u32,
    plays: &'static [Play],
    counts: &'static [u64],
    held: &'static [Option<u32>],
    log: &'static [(u32, FrontierStep)],
}

// The frontier once the passes of a case are done with it, and whether they and its log are what they are to be.
fn play<R: Abort + Wait>(
    rt: &R,
    alloc: Global,
    forest: &Forest,
    root: u32,
    case: &Case,
) -> Result<(bool, Frontier), Memory>
    ensures { IfOk result (λ r. IsFrontier forest.now r.1) }
{
    let effort = make_effort(rt, case.passes, case.budget);
    let (shared, passes) = share(rt, alloc, forest, root, case.deadline, effort)?;
    let (followed, passes) = follow(rt, &shared, forest, passes, case.plays);
    let are_so = followed == case.plays.len() && have(&passes, case.counts, case.held);
    let frontier = close(shared, passes);
    let is_logged = has_log(&frontier, case.log);
    Ok((are_so && is_logged, frontier))
}

// Whether a case of three walks goes as it is to go.
fn plays_three<R: Abort + Wait>(rt: &R, alloc: Global, case: &Case) -> Result<bool, Fail> {
    let (forest, root) = three_walks(alloc)?.ok_or("a tree")?;
    let (is_so, _frontier) = play(rt, alloc, &forest, root, case)?;
    Ok(is_so)
}

// Whether a case of two walks goes as it is to go, and its frontier is then driven to that reply.
fn plays_two<R: Abort + Wait>(
    rt: &R,
    alloc: Global,
    case: &Case,
    reply: FrontierReply,
) -> Result<bool, Fail> {
    let (forest, root) = two_walks(alloc)?.ok_or("a tree")?;
    let (is_so, mut frontier) = play(rt, alloc, &forest, root, case)?;
    Ok(is_so && frontier.drive(&forest, 0) == reply)
}

// The root's sums are 5, 5, 5, 5 and 6 ticks, so no time passes. Its left part has 5 ticks, and passes at 5. Its right part has 4
// ticks up to 4, and passes at 4.
const HALVES: Case = Case {
    deadline: 5,
    budget: 100,
    passes: 2,
    plays: &[
        (0, TAKE, FrontierReply::Taken(0)),
        (1, TAKE, FrontierReply::Busy(0)),
        (0, SPLIT, FrontierReply::Halved(1, 2)),
        (0, TAKE, FrontierReply::Taken(1)),
        (1, TAKE, FrontierReply::Taken(2)),
        (
            1,
            FrontierStep::Pass { id: 2, time: 4 },
            FrontierReply::Passed,
        ),
        (1, TAKE, FrontierReply::Busy(1)),
        (
            0,
            FrontierStep::Pass { id: 1, time: 5 },
            FrontierReply::Passed,
        ),
        (1, TAKE, FrontierReply::Finished),
        (0, TAKE, FrontierReply::Finished),
    ],
    counts: &[4, 2],
    held: &[None, None],
    log: &[
        (0, TAKE),
        (0, SPLIT),
        (0, TAKE),
        (1, TAKE),
        (1, FrontierStep::Pass { id: 2, time: 4 }),
        (0, FrontierStep::Pass { id: 1, time: 5 }),
    ],
};

#[test]
fn two_passes_settle_the_halves_of_three_walks(rt: HostRuntime) -> Result<(), Fail> {
    assert!(rt; plays_three(&rt, rt.alloc(), &HALVES)?);
    Ok(())
}

// The root has 5 ticks, one more than the deadline. The walk of 2 ticks passes at 4, and that of 3 ticks fails. Who comes after
// that is told so, and keeps what it holds.
const TOO_MUCH: Case = Case {
    deadline: 4,
    budget: 100,
    passes: 3,
    plays: &[
        (2, TAKE, FrontierReply::Taken(0)),
        (0, TAKE, FrontierReply::Busy(0)),
        (2, SPLIT, FrontierReply::Halved(1, 2)),
        (0, TAKE, FrontierReply::Taken(1)),
        (1, TAKE, FrontierReply::Taken(2)),
        (2, TAKE, FrontierReply::Busy(1)),
        (1, FAIL, FrontierReply::Failed(2)),
        (
            0,
            FrontierStep::Pass { id: 1, time: 4 },
            FrontierReply::Failed(2),
        ),
        (2, TAKE, FrontierReply::Failed(2)),
        (1, TAKE, FrontierReply::Failed(2)),
    ],
    counts: &[1, 2, 2],
    held: &[Some(1), None, None],
    log: &[(2, TAKE), (2, SPLIT), (0, TAKE), (1, TAKE), (1, FAIL)],
};

#[test]
fn three_passes_find_the_walk_that_is_too_much(rt: HostRuntime) -> Result<(), Fail> {
    assert!(rt; plays_two(&rt, rt.alloc(), &TOO_MUCH, FrontierReply::Failed(2))?);
    Ok(())
}

// A step past the budget changes nothing.
const SPENT: Case = Case {
    deadline: 5,
    budget: 3,
    passes: 2,
    plays: &[
        (0, TAKE, FrontierReply::Taken(0)),
        (0, SPLIT, FrontierReply::Halved(1, 2)),
        (1, TAKE, FrontierReply::Taken(1)),
        (0, TAKE, FrontierReply::Spent),
        (
            1,
            FrontierStep::Pass { id: 1, time: 5 },
            FrontierReply::Spent,
        ),
    ],
    counts: &[2, 1],
    held: &[None, Some(1)],
    log: &[(0, TAKE), (0, SPLIT), (1, TAKE)],
};

#[test]
fn a_budget_of_three_steps_is_spent_by_both_passes(rt: HostRuntime) -> Result<(), Fail> {
    assert!(rt; plays_three(&rt, rt.alloc(), &SPENT)?);
    Ok(())
}
