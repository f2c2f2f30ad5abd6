//! Driving a frontier to its end.

ghost use Rattle.std.specs.Prelude.{◌≡◌, ◌<◌, length, slice_get, Some};
ghost use Rattle.drt_worklist.specs.Places.{first};
ghost use Rattle.drt_refine.specs.Combination.{Combination, is_combination_taken};
ghost use Rattle.drt_refine.specs.Drive.{DrivesFrontier, StopsAt, Settles, FrontierTurn, ends_frontier};
ghost use Rattle.drt_refine.specs.Eager.{IsEager};
ghost use Rattle.drt_refine.specs.View.{IsFrontier, setting_of, state_of};
ghost use Rattle.drt_refine.specs.declared.step.CombinationState.TheVariants.{Taken as TakenBy};

use crate::frontier::Frontier;
use crate::place::choose_place;
use crate::step::{CombinationState, FrontierReply, FrontierStep};
use drt_steps::least_time;
use drt_tree::Forest;

impl Frontier {
    /// Goes on with a frontier that one caller owns, until it is finished, a combination has failed or its budget is spent.
    /// It first settles each taken combination for the worker that holds it. Then it takes combinations as `worker` and
    /// settles them in the same way. A combination passes with the least time that passes; where none does, it is split at
    /// its widest place, and fails where its nodes are leaves.
    pub fn drive(&mut self, forest: &Forest, worker: u32) -> FrontierReply
        requires frontier { IsFrontier forest.now self.old }
        ensures frontier { IsFrontier forest.now self.new }
        ensures drives { DrivesFrontier forest.now worker self.old self.new }
        ensures eager { IsEager (setting_of forest.now self.old) self.old.log → IsEager (setting_of forest.now self.old) self.new.log }
        ensures stops { StopsAt (setting_of forest.now self.new) (state_of self.new) result }
    {
        loop {
            let reply = self.turn(forest, worker);
            if ends(reply) {
                return reply;
            }
        }
    }

    // A driver's turn: it settles the first taken combination for the worker that holds it, and takes one where none is.
    fn turn(&mut self, forest: &Forest, worker: u32) -> FrontierReply
        requires frontier { IsFrontier forest.now self.old }
        ensures frontier { IsFrontier forest.now self.new }
        ensures turn { FrontierTurn forest.now worker self.old self.new result }
    {
        match self.first_taken() {
            None => self.apply(forest, worker, FrontierStep::Take),
            Some(id) => {
                let holder = self.holder(id);
                let step = self.choose_step(forest, id);
                self.apply(forest, holder, step)
            }
        }
    }

    // The worker that holds the first taken combination.
    fn holder(&self, id: u32) -> u32
        requires { first is_combination_taken self.now.combinations ≡ Some id }
        ensures { (c : Combination) → slice_get self.now.combinations id ≡ Some c → c.state ≡ TakenBy result }
    {
        match self.states.at(id) {
            CombinationState::Taken(worker) => worker,
            CombinationState::Pending => unreachable!(),
            CombinationState::Passed(_) => unreachable!(),
            CombinationState::Split { .. } => unreachable!(),
            CombinationState::Failed => unreachable!(),
        }
    }

    // The step that settles a combination.
    fn choose_step(&self, forest: &Forest, id: u32) -> FrontierStep
        requires frontier { IsFrontier forest.now self.now }
        requires within { id < length self.now.combinations }
        ensures { (c : Combination) → slice_get self.now.combinations id ≡ Some c → Settles (setting_of forest.now self.now) id c result }
    {
        let nodes = self.combination(id);
        let wcet = self.wcet as u64;
        let deadline = self.deadline as u64;
        match least_time(wcet, deadline, forest.all(), nodes) {
            Some(time) => FrontierStep::Pass { id, time },
            None => match choose_place(forest, nodes) {
                Some(place) => FrontierStep::Split { id, place },
                None => FrontierStep::Fail { id },
            },
        }
    }
}

// Whether the reply ends a driver's work.
fn ends(reply: FrontierReply) -> bool
    ensures { result ≡ ends_frontier reply }
{
    match reply {
        FrontierReply::Taken(_) => false,
        FrontierReply::Busy(_) => false,
        FrontierReply::Finished => true,
        FrontierReply::Passed => false,
        FrontierReply::Halved(_, _) => false,
        FrontierReply::Failed(_) => true,
        FrontierReply::Spent => true,
    }
}
