//! Passes of frontiers over worked forests, and their turns.

ghost use Rattle.std.specs.Prelude.{◌≡◌, ◌≤◌, ◌∷◌, [], IfOk, length};
ghost use Rattle.drt_pool.specs.Turns.{EachPlace};
ghost use Rattle.drt_refine.specs.View.{IsFrontier};
ghost use Rattle.drt_steps.specs.Time.{AreChosen};
ghost use Rattle.drt_shared_frontier.specs.Passes.{IsPassOfFrontier};

use drt_crew::Crew;
use drt_effort::Effort;
use drt_model::{Memory, Row};
use drt_pool::Gate;
use drt_refine::{CombinationState, Frontier, FrontierReply, FrontierStep};
use drt_shared_frontier::{FrontierAnswer, FrontierPass, SharedFrontier, refine};
use drt_tree::Forest;
use std::alloc::Global;
use std::process::Abort;
use std::sync::Wait;
use std::thread::Threads;

// The wcet of the job, in ticks.
const WCET: u32 = 2;

// A turn: the place of the pass, the step that it makes, and the frontier's reply.
pub(crate) type Play = (usize, FrontierStep, FrontierReply);

// So many workers, and so many steps.
pub(crate) fn make_effort(rt: &impl Abort, workers: u32, budget: u64) -> Effort {
    assert!(rt; 1 <= workers && workers <= 16);
    assert!(rt; 1 <= budget && budget <= 1000);
    Effort::new(workers, budget)
}

// The shared frontier of one tree, and a pass for each worker.
pub(crate) fn share(
    rt: &impl Abort,
    alloc: Global,
    forest: &Forest,
    root: u32,
    deadline: u32,
    effort: Effort,
) -> Result<(SharedFrontier, Vec<FrontierPass>), Memory>
    ensures forest { IfOk result (λ r. forest.now ≡ r.0.setting.forest) }
    ensures count { IfOk result (λ r. length r.1.items ≡ r.0.passes) }
    ensures passes { IfOk result (λ r. EachPlace (λ place p. IsPassOfFrontier r.0 p) r.1.items) }
{
    check(rt, forest, root, deadline);
    let (shared, passes) = SharedFrontier::start(alloc, forest, &[root], WCET, deadline, effort)?;
    Ok((shared, passes.into_vec()))
}

// What a crew finds.
pub(crate) fn work<G: Gate, R: Abort + Threads + Wait + Sync>(
    crew: &Crew<'_, G, R>,
    forest: &Forest,
    root: u32,
    deadline: u32,
) -> Result<(Frontier, FrontierReply), Memory> {
    check(crew.rt, forest, root, deadline);
    refine(crew, forest, &[root], WCET, deadline)
}

// Sees that these are the terms of a frontier over the forest.
fn check(rt: &impl Abort, forest: &Forest, root: u32, deadline: u32)
    ensures roots { AreChosen deadline forest.now.pool (root ∷ []) }
    ensures deadline { (1 ≤ deadline) × (deadline ≤ 1000000) }
{
    let functions = forest.all();
    assert!(rt; (root as usize) < functions.len());
    assert!(rt; deadline as u64 <= functions[root as usize].bound());
    assert!(rt; 1 <= deadline && deadline <= 1000);
}

// A worker's turn: it takes a combination, or settles the one that its pass holds.
fn turn<R: Wait>(
    rt: &R,
    shared: &SharedFrontier,
    forest: &Forest,
    pass: &mut FrontierPass,
) -> (FrontierStep, FrontierAnswer)
    requires forest { forest.now ≡ shared.now.setting.forest }
    requires pass { IsPassOfFrontier shared.now pass.old }
    ensures { IsPassOfFrontier shared.now pass.new }
{
    match pass.held() {
        None => (FrontierStep::Take, shared.take(rt, forest, pass)),
        Some(_) => {
            let step = shared.choose_step(forest, pass);
            (step, shared.settle(rt, forest, pass, step))
        }
    }
}

// Turns the passes in this order, and hands them back with how many of the turns went as they are to go, up to the first that didn't.
pub(crate) fn follow<R: Wait>(
    rt: &R,
    shared: &SharedFrontier,
    forest: &Forest,
    passes: Vec<FrontierPass>,
    plays: &[Play],
) -> (usize, Vec<FrontierPass>)
    requires forest { forest.now ≡ shared.now.setting.forest }
    requires count { length passes.items ≡ shared.now.passes }
    requires passes { EachPlace (λ place p. IsPassOfFrontier shared.now p) passes.items }
    ensures count { length result.1.items ≡ shared.now.passes }
    ensures passes { EachPlace (λ place p. IsPassOfFrontier shared.now p) result.1.items }
{
    let mut passes = passes;
    let followed = play_all(rt, shared, forest, passes.as_mut_slice(), plays);
    (followed, passes)
}

// Turns the passes in this order, and answers how many of the turns went so.
fn play_all<R: Wait>(
    rt: &R,
    shared: &SharedFrontier,
    forest: &Forest,
    passes: &mut [FrontierPass],
    plays: &[Play],
) -> usize
    requires forest { forest.now ≡ shared.now.setting.forest }
    requires passes { EachPlace (λ place p. IsPassOfFrontier shared.now p) passes.old }
    ensures count { length passes.new ≡ length passes.old }
    ensures passes { EachPlace (λ place p. IsPassOfFrontier shared.now p) passes.new }
{
    for i in 0..plays.len() {
        let (place, wanted, reply) = plays[i];
        if place >= passes.len() {
            return i;
        }
        let (step, answer) = turn(rt, shared, forest, &mut passes[place]);
        if step != wanted || answer != FrontierAnswer::Step(reply) {
            return i;
        }
    }
    plays.len()
}

// The frontier, once the passes are done with it.
pub(crate) fn close(shared: SharedFrontier, passes: Vec<FrontierPass>) -> Frontier
    requires count { length passes.items ≡ shared.passes }
    requires passes { EachPlace (λ place p. IsPassOfFrontier shared p) passes.items }
    ensures { IsFrontier shared.setting.forest result }
{
    shared.finish(Row::from_vec(passes))
}

// Whether the passes counted so many steps, and hold these combinations.
pub(crate) fn have(passes: &[FrontierPass], counts: &[u64], held: &[Option<u32>]) -> bool {
    if passes.len() != counts.len() || passes.len() != held.len() {
        return false;
    }
    for place in 0..passes.len() {
        let pass = &passes[place];
        if pass.count() != counts[place] || pass.held() != held[place] {
            return false;
        }
    }
    true
}

// Whether these are the states of the combinations, in order.
pub(crate) fn has_states(frontier: &Frontier, states: &[CombinationState]) -> bool {
    if frontier.count() as usize != states.len() {
        return false;
    }
    for id in 0..frontier.count() {
        if frontier.state(id) != states[id as usize] {
            return false;
        }
    }
    true
}

// Whether the log has these workers' steps.
pub(crate) fn has_log(frontier: &Frontier, wanted: &[(u32, FrontierStep)]) -> bool {
    let log = frontier.log();
    if log.len() != wanted.len() {
        return false;
    }
    for i in 0..log.len() {
        let entry = log[i];
        if entry.worker != wanted[i].0 || entry.step != wanted[i].1 {
            return false;
        }
    }
    true
}
