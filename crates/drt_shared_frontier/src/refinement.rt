//! Working a frontier to its end.

ghost use Rattle.std.specs.Prelude.{◌≡◌, ℕ, ◌≤◌, IfOk, length};
ghost use Rattle.drt_model.specs.Numbers.{most_time};
ghost use Rattle.drt_pool.specs.Turns.{EachPlace, IsEndOfTurns};
ghost use Rattle.drt_refine.specs.Drive.{StopsAt};
ghost use Rattle.drt_refine.specs.Eager.{IsEager};
ghost use Rattle.drt_refine.specs.View.{IsFrontier, setting_of, state_of};
ghost use Rattle.drt_steps.specs.Time.{AreChosen};
ghost use Rattle.drt_shared_frontier.specs.Passes.{IsPassOfFrontier};

use crate::pass::FrontierPass;
use crate::shared::SharedFrontier;
use drt_crew::Crew;
use drt_frontier_board::FrontierAnswer;
use drt_model::{Memory, Row};
use drt_pool::{Gate, Turn, Work, run_all};
use drt_refine::{Frontier, FrontierReply};
use drt_tree::Forest;
use std::sync::Wait;
use std::thread::Threads;

// The worker as which the caller goes on where all others have stopped.
const DRIVER: u32 = 0;

// What all workers work on.
#[derive(Drop)]
pub(crate) struct Refinement<'a> {
    shared: &'a SharedFrontier,
    forest: &'a Forest,
}

impl Work for Refinement<'_> {
    type Pass = FrontierPass;

    ghost fits = { λ work place pass. (work.forest.now ≡ work.shared.now.setting.forest) × IsPassOfFrontier work.shared.now pass };

    ghost ended = { λ work place pass. Unit {0} };

    // A turn takes a combination, or settles the one that the pass holds.
    fn turn<R: Wait>(&self, rt: &R, pass: &mut FrontierPass) -> Turn {
        let answer = match pass.held() {
            None => self.shared.take(rt, self.forest, pass),
            Some(_) => {
                let step = self.shared.choose_step(self.forest, pass);
                self.shared.settle(rt, self.forest, pass, step)
            }
        };
        turn_after(answer)
    }
}

// A worker stops where the frontier has come to an end, and where it holds something else for the worker than its pass.
fn turn_after(answer: FrontierAnswer) -> Turn {
    match answer {
        FrontierAnswer::Step(FrontierReply::Taken(_)) => Turn::More,
        FrontierAnswer::Step(FrontierReply::Busy(_)) => Turn::More,
        FrontierAnswer::Step(FrontierReply::Passed) => Turn::More,
        FrontierAnswer::Step(FrontierReply::Halved(_, _)) => Turn::More,
        FrontierAnswer::Step(FrontierReply::Finished) => Turn::Stop,
        FrontierAnswer::Step(FrontierReply::Failed(_)) => Turn::Stop,
        FrontierAnswer::Step(FrontierReply::Spent) => Turn::Stop,
        FrontierAnswer::Strange(_) => Turn::Stop,
    }
}

/// Works the frontier of a job of this wcet and deadline (in ticks) and of the trees with these roots, until there is no combination
/// left, one has failed or the crew's steps are spent, and answers the frontier and where it came to an end: Finished, Failed or Spent.
///
/// A step of a frontier is shorter than handing on its lock (`bench/refine`), so workers share a frontier only where the gate wants all
/// of them to begin at once: where its `alone` is 0. They take combinations and settle them, and the caller goes on from what they
/// leave. Otherwise, and where there is one worker, the caller drives a frontier of its own without a lock, and the gate sees no turn
/// of it.
pub fn refine<G: Gate, R: Threads + Wait + Sync>(
    crew: &Crew<'_, G, R>,
    forest: &Forest,
    roots: &[u32],
    wcet: u32,
    deadline: u32,
) -> Result<(Frontier, FrontierReply), Memory>
    requires few { length roots.now ≤ 31 }
    requires roots { AreChosen deadline forest.now.pool roots.now }
    requires wcet { (1 ≤ wcet) × (wcet ≤ most_time) }
    requires deadline { (1 ≤ deadline) × (deadline ≤ most_time) }
    ensures setting { IfOk result (λ r. setting_of forest.now r.0
        ≡ record { forest = forest.now; roots = roots.now; wcet = wcet; deadline = deadline; budget = crew.now.effort.budget }) }
    ensures frontier { IfOk result (λ r. IsFrontier forest.now r.0) }
    ensures eager { IfOk result (λ r. IsEager (setting_of forest.now r.0) r.0.log) }
    ensures stops { IfOk result (λ r. StopsAt (setting_of forest.now r.0) (state_of r.0) r.1) }
{
    if crew.effort.workers() == 1 || crew.gate.alone() > 0 {
        return drive_alone(crew, forest, roots, wcet, deadline);
    }
    let (shared, passes) = SharedFrontier::start(
        crew.alloc,
        forest,
        roots,
        wcet,
        deadline,
        crew.effort,
    )?;
    let passes = run_passes(crew, &shared, forest, passes);
    let mut frontier = shared.finish(passes);
    let reply = frontier.drive(forest, DRIVER);
    Ok((frontier, reply))
}

// The caller drives a frontier of its own.
fn drive_alone<G, R>(
    crew: &Crew<'_, G, R>,
    forest: &Forest,
    roots: &[u32],
    wcet: u32,
    deadline: u32,
) -> Result<(Frontier, FrontierReply), Memory>
    requires few { length roots.now ≤ 31 }
    requires roots { AreChosen deadline forest.now.pool roots.now }
    requires wcet { (1 ≤ wcet) × (wcet ≤ most_time) }
    requires deadline { (1 ≤ deadline) × (deadline ≤ most_time) }
    ensures setting { IfOk result (λ r. setting_of forest.now r.0
        ≡ record { forest = forest.now; roots = roots.now; wcet = wcet; deadline = deadline; budget = crew.now.effort.budget }) }
    ensures frontier { IfOk result (λ r. IsFrontier forest.now r.0) }
    ensures eager { IfOk result (λ r. IsEager (setting_of forest.now r.0) r.0.log) }
    ensures stops { IfOk result (λ r. StopsAt (setting_of forest.now r.0) (state_of r.0) r.1) }
{
    let budget = crew.effort.budget();
    let mut alone = Frontier::start(crew.alloc, forest, roots, wcet, deadline, budget)?;
    let reply = alone.drive(forest, DRIVER);
    Ok((alone, reply))
}

// All workers work, each through its pass, until each has stopped.
fn run_passes<G: Gate, R: Threads + Wait + Sync>(
    crew: &Crew<'_, G, R>,
    shared: &SharedFrontier,
    forest: &Forest,
    passes: Row<FrontierPass>,
) -> Row<FrontierPass>
    requires forest { forest.now ≡ shared.now.setting.forest }
    requires count { length passes ≤ 16 }
    requires passes { EachPlace (λ place p. IsPassOfFrontier shared.now p) passes }
    ensures count { length result ≡ length passes }
    ensures passes { EachPlace (λ place p. IsPassOfFrontier shared.now p) result }
{
    let mut passes = passes.into_vec();
    let work = Refinement { shared, forest };
    run_all(crew.rt, &work, passes.as_mut_slice(), crew.gate);
    Row::from_vec(passes)
}
