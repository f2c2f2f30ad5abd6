//! Frontiers over forests that were worked by hand.
ghost use Rattle.std.specs.Prelude.{◌≡◌, ℕ, ◌≤◌, List, IsTrue, IfOk, IfSome, length, true, []};
ghost use Rattle.drt_refine.specs.View.{IsFrontier};

use crate::worked_trees::{Jobs, Worked, worked_tree};
use drt_refine::{CombinationState, Frontier, FrontierEntry};
use drt_tree::Forest;
use std::alloc::{AllocError as Memory, Global};
use std::process::Abort;

// The tree of two walks: one of 2 ticks, and one of 3 ticks.
pub(crate) fn two_walks(rt: &impl Abort, alloc: Global) -> Result<(Forest, u32), Memory> {
    let walks: [Worked<'_>; 2] = [(Jobs::One(0, 3), &[0]), (Jobs::One(1, 2), &[1])];
    worked_tree(rt, alloc, &walks)
}

// The tree of three walks: one of 3 ticks, one of 2 ticks, and one of 2 ticks and 2 more after 4 ticks.
pub(crate) fn three_walks(rt: &impl Abort, alloc: Global) -> Result<(Forest, u32), Memory> {
    let walks: [Worked<'_>; 3] = [
        (Jobs::One(0, 3), &[0]),
        (Jobs::One(1, 2), &[1]),
        (Jobs::Two, &[1, 1]),
    ];
    worked_tree(rt, alloc, &walks)
}

// The frontier of one tree.
pub(crate) fn frontier_of(
    rt: &impl Abort,
    alloc: Global,
    forest: &Forest,
    root: u32,
    deadline: u32,
    budget: u64,
) -> Result<Frontier, Memory>
    ensures { IfOk result (λ frontier. IsFrontier forest.now frontier) }
{
    let functions = forest.all();
    assert!(rt; (root as usize) < functions.len());
    assert!(rt; deadline as u64 <= functions[root as usize].bound());
    assert!(rt; 1 <= deadline && deadline <= 1000 && 1 <= budget && budget <= 1000);
    Frontier::start(alloc, forest, &[root], 2, deadline, budget)
}

// Whether the log has these entries of worker 0.
pub(crate) fn has_log(frontier: &Frontier, entries: &[FrontierEntry]) -> bool {
    frontier.log() == entries
}

// Whether these are the states of the combinations, in order.
pub(crate) fn has_states(frontier: &Frontier, states: &[CombinationState]) -> bool {
    if frontier.count() as usize != states.len() {
        return false;
    }
    for id in 0..frontier.count() {
        if frontier.state(id) != states[id as usize] {
            return false;
        }
    }
    true
}
