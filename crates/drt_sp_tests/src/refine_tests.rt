ghost use Rattle.std.specs.Prelude.{◌≤◌};
ghost use Rattle.drt_refine.specs.View.{IsFrontier};

use crate::refine_driver::{frontier_of, has_log, has_states, three_walks, two_walks};
use drt_refine::{CombinationState, Frontier, FrontierEntry, FrontierReply, FrontierStep};
use drt_tree::Forest;
use std::alloc::{AllocError as Memory, Global};
use std::process::Abort;
use std::test::Fail;

const TAKE: FrontierStep = FrontierStep::Take;

const fn by(worker: u32, step: FrontierStep) -> FrontierEntry {
    FrontierEntry { worker, step }
}

const fn pass(id: u32, time: u64) -> FrontierStep {
    FrontierStep::Pass { id, time }
}

const fn split(id: u32, place: u32) -> FrontierStep {
    FrontierStep::Split { id, place }
}

const fn fail(id: u32) -> FrontierStep {
    FrontierStep::Fail { id }
}

// Whether a worker drives a frontier to this reply, and the log then has these entries.
fn drives(
    frontier: &mut Frontier,
    forest: &Forest,
    worker: u32,
    reply: FrontierReply,
    log: &[FrontierEntry],
) -> bool
    requires { IsFrontier forest.now frontier.old }
    ensures { IsFrontier forest.now frontier.new }
{
    let given = frontier.drive(forest, worker);
    given == reply && has_log(frontier, log)
}

// Whether a frontier over two walks is driven so, and once more by another worker.
fn drives_twice(
    rt: &impl Abort,
    alloc: Global,
    budget: u64,
    reply: FrontierReply,
    log: &[FrontierEntry],
) -> Result<bool, Memory> {
    let (forest, root) = two_walks(rt, alloc)?;
    let mut frontier = frontier_of(rt, alloc, &forest, root, 4, budget)?;
    Ok(
        drives(&mut frontier, &forest, 0, reply, log)
            && drives(&mut frontier, &forest, 1, reply, log),
    )
}

#[test]
fn a_walk_that_is_too_much_is_found_in_six_steps(rt: HostRuntime) -> Result<(), Fail> {
    let log = [
        by(0, TAKE),
        by(0, split(0, 0)),
        by(0, TAKE),
        by(0, pass(1, 4)),
        by(0, TAKE),
        by(0, fail(2)),
    ];
    assert!(rt; drives_twice(&rt, rt.alloc(), 6, FrontierReply::Failed(2), &log)?);
    Ok(())
}

// Whether a frontier over two walks is driven so within 5 steps, and the first worker then holds this combination, and the second none.
fn is_spent(
    rt: &impl Abort,
    alloc: Global,
    log: &[FrontierEntry],
    held: u32,
) -> Result<bool, Memory> {
    let (forest, root) = two_walks(rt, alloc)?;
    let mut frontier = frontier_of(rt, alloc, &forest, root, 4, 5)?;
    let is_driven = drives(&mut frontier, &forest, 0, FrontierReply::Spent, log);
    Ok(is_driven && frontier.held_by(0) == Some(held) && frontier.held_by(1).is_none())
}

#[test]
fn five_steps_are_one_too_few(rt: HostRuntime) -> Result<(), Fail> {
    let log = [
        by(0, TAKE),
        by(0, split(0, 0)),
        by(0, TAKE),
        by(0, pass(1, 4)),
        by(0, TAKE),
    ];
    assert!(rt; is_spent(&rt, rt.alloc(), &log, 2)?);
    Ok(())
}

// Whether a frontier over three walks is driven to its end with these entries.
fn is_finished(rt: &impl Abort, alloc: Global, log: &[FrontierEntry]) -> Result<bool, Memory> {
    let (forest, root) = three_walks(rt, alloc)?;
    let mut frontier = frontier_of(rt, alloc, &forest, root, 5, 100)?;
    Ok(drives(&mut frontier, &forest, 7, FrontierReply::Finished, log))
}

#[test]
fn both_halves_of_three_walks_pass(rt: HostRuntime) -> Result<(), Fail> {
    let log = [
        by(7, TAKE),
        by(7, split(0, 0)),
        by(7, TAKE),
        by(7, pass(1, 5)),
        by(7, TAKE),
        by(7, pass(2, 4)),
    ];
    assert!(rt; is_finished(&rt, rt.alloc(), &log)?);
    Ok(())
}

fn log_length(frontier: Frontier) -> usize {
    frontier.into_log().len()
}

// Whether the combinations of a frontier over two walks are settled so, with a log of so many entries.
fn is_settled(
    rt: &impl Abort,
    alloc: Global,
    states: &[CombinationState],
    entries: usize,
) -> Result<bool, Memory> {
    let (forest, root) = two_walks(rt, alloc)?;
    let mut frontier = frontier_of(rt, alloc, &forest, root, 4, 6)?;
    let _ = frontier.drive(&forest, 0);
    let is_so = has_states(&frontier, states);
    Ok(log_length(frontier) == entries && is_so)
}

#[test]
fn combinations_show_how_they_were_settled(rt: HostRuntime) -> Result<(), Fail> {
    let states = [
        CombinationState::Split {
            place: 0,
            left: 1,
            right: 2,
        },
        CombinationState::Passed(4),
        CombinationState::Failed,
    ];
    assert!(rt; is_settled(&rt, rt.alloc(), &states, 6)?);
    Ok(())
}

// Whether the frontier of no tree is driven so.
fn is_driven_alone(
    alloc: Global,
    budget: u64,
    reply: FrontierReply,
    log: &[FrontierEntry],
) -> Result<bool, Memory>
    requires { (1 ≤ budget) × (budget ≤ 1000) }
{
    let forest = Forest::empty(alloc);
    let mut frontier = Frontier::start(alloc, &forest, &[], 2, 5, budget)?;
    Ok(drives(&mut frontier, &forest, 0, reply, log))
}

#[test]
fn without_a_task_ahead_the_first_step_passes(rt: HostRuntime) -> Result<(), Fail> {
    let alloc = rt.alloc();
    let short = [by(0, TAKE)];
    assert!(rt; is_driven_alone(alloc, 1, FrontierReply::Spent, &short)?);
    let long = [by(0, TAKE), by(0, pass(0, 2))];
    assert!(rt; is_driven_alone(alloc, 2, FrontierReply::Finished, &long)?);
    Ok(())
}
