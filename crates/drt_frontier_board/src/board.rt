//! The frontier that a lock guards.

ghost use Rattle.std.specs.Prelude.{◌≡◌, ◌≢◌, ℕ, ◌<◌, MatchBool, Some, true, [], length};
ghost use Rattle.drt_refine.specs.Eager.{IsEager};
ghost use Rattle.drt_refine.specs.Facts.{AreInPlace};
ghost use Rattle.drt_refine.specs.View.{IsFrontier};
ghost use Rattle.drt_frontier_board.specs.FrontierBoard.{terms_of, CanMake, IsFrontierCall, IsFrontierStepMade, IsCopied};
ghost use Rattle.drt_frontier_board.specs.Finds.{IsFoundCombination, is_expected_combination, is_that_combination};
ghost use Rattle.drt_frontier_board.specs.Replies.{taken_by};
ghost use Rattle.drt_frontier_board.specs.declared.answer.FrontierFound.{FrontierFound as Found};

use crate::answer::{FrontierAnswer, FrontierFound};
use crate::terms::Terms;
use drt_lock::Guarded;
use drt_refine::{Frontier, FrontierReply, FrontierStep};
use drt_tree::Forest;
use std::marker::Model;
use std::snapshot::Snapshot;

/// A frontier over the forest that it was started with. Its log is eager.
#[derive(Drop)]
pub struct FrontierBoard {
    forest: Snapshot<Forest>,
    frontier: Frontier,
}

impl Model for FrontierBoard {
    ghost use Rattle.drt_refine.specs.Eager.{IsEager};
    ghost use Rattle.drt_refine.specs.View.{IsFrontier};
    ghost use Rattle.drt_frontier_board.specs.FrontierBoard.{BoardOf, terms_of};

    ghost Value = { BoardOf };

    ghost view = { λ b. record { forest = b.forest.value; frontier = b.frontier } };

    ghost invariant = { λ b. IsFrontier b.forest.value b.frontier × IsEager (terms_of (record { forest = b.forest.value; frontier = b.frontier })) b.frontier.log };
}

impl Guarded for FrontierBoard {
    type Fixed = Terms;

    ghost use Rattle.std.specs.Prelude.{length};
    ghost use Rattle.drt_frontier_board.specs.FrontierBoard.{terms_of};

    ghost fixed = { λ b. terms_of b };

    ghost entries = { λ b. length b.frontier.log };
}

impl FrontierBoard {
    /// A board of the forest and a frontier over it, of which no step was made.
    pub fn new(forest: &Forest, frontier: Frontier) -> FrontierBoard
        requires frontier { IsFrontier forest.now frontier }
        requires empty { frontier.log ≡ [] }
        ensures { result ≡ record { forest = forest.now; frontier = frontier } }
    {
        FrontierBoard {
            forest: Snapshot::of(forest),
            frontier,
        }
    }

    /// The frontier, with the log of all steps that were made.
    pub fn into_frontier(self) -> Frontier
        ensures frontier { result ≡ self.frontier }
        ensures run { IsFrontier self.forest result }
        ensures eager { IsEager (terms_of self) result.log }
    {
        self.frontier
    }

    /// One call of a worker that holds what its pass says, with a copy of its nodes, and wants to make a step. It looks at the
    /// frontier, and makes the step where the frontier holds the same. Where it took a combination, the copy becomes that of its
    /// nodes.
    pub fn call(
        &mut self,
        forest: &Forest,
        worker: u32,
        held: Option<u32>,
        nodes: &mut Vec<u32>,
        step: FrontierStep,
    ) -> FrontierAnswer
        requires forest { forest.now ≡ self.old.forest }
        requires nodes { AreInPlace (terms_of self.old) nodes.old.items }
        requires can { CanMake (terms_of self.old) held nodes.old.items step }
        ensures { IsFrontierCall self.old self.new worker held nodes.old.items nodes.new.items step result }
    {
        let found = self.find(worker, held, nodes.as_slice());
        if !expects(held, found) {
            return FrontierAnswer::Strange(found);
        }
        let reply = self.apply(forest, worker, held, nodes.as_slice(), step);
        self.copy_taken(reply, nodes);
        FrontierAnswer::Step(reply)
    }

    // What the frontier holds for the worker, beside what the worker's pass says.
    fn find(&self, worker: u32, held: Option<u32>, nodes: &[u32]) -> FrontierFound
        ensures { IsFoundCombination self.now.frontier.combinations worker held nodes.now result }
    {
        match self.frontier.held_by(worker) {
            None => FrontierFound {
                held: None,
                same: false,
            },
            Some(id) => FrontierFound {
                held: Some(id),
                same: is_copy(held, nodes, self.frontier.combination(id)),
            },
        }
    }

    // Makes the step.
    fn apply(
        &mut self,
        forest: &Forest,
        worker: u32,
        held: Option<u32>,
        nodes: &[u32],
        step: FrontierStep,
    ) -> FrontierReply
        requires forest { forest.now ≡ self.old.forest }
        requires can { CanMake (terms_of self.old) held nodes.now step }
        requires expected { (f : Found) × IsFoundCombination self.old.frontier.combinations worker held nodes.now f × (is_expected_combination held f ≡ true) }
        ensures { IsFrontierStepMade self.old self.new worker held step result }
    {
        self.frontier.apply(forest, worker, step)
    }

    // Copies the nodes of a combination that was taken.
    fn copy_taken(&self, reply: FrontierReply, nodes: &mut Vec<u32>)
        requires taken { (k : ℕ) → taken_by reply ≡ Some k → k < length self.now.frontier.combinations }
        requires nodes { AreInPlace (terms_of self.now) nodes.old.items }
        ensures nodes { AreInPlace (terms_of self.now) nodes.new.items }
        ensures copied { IsCopied self.now.frontier.combinations (taken_by reply) nodes.old.items nodes.new.items }
    {
        if let Some(id) = taken_by(reply) {
            nodes.copy_from_slice(self.frontier.combination(id));
        }
    }
}

/// Whether a worker that says it holds that, with a copy of nodes, holds something and has a copy of these nodes.
pub fn is_copy(held: Option<u32>, nodes: &[u32], its: &[u32]) -> bool
    ensures { MatchBool result ((k : ℕ) × (held ≡ Some k) × (nodes.now ≡ its.now)) ((k : ℕ) → held ≡ Some k → nodes.now ≢ its.now) }
{
    match held {
        None => false,
        Some(_) => nodes == its,
    }
}

// Whether what was found is what the pass holds.
fn expects(held: Option<u32>, found: FrontierFound) -> bool
    ensures { result ≡ is_expected_combination held found }
{
    match held {
        None => found.held.is_none(),
        Some(id) => is_number(id, found.held) && found.same,
    }
}

/// Whether the number is that one.
pub fn is_number(id: u32, number: Option<u32>) -> bool
    ensures { result ≡ is_that_combination id number }
{
    match number {
        None => false,
        Some(k) => k == id,
    }
}

// The combination that a reply says was taken.
fn taken_by(reply: FrontierReply) -> Option<u32>
    ensures { result ≡ taken_by reply }
{
    match reply {
        FrontierReply::Taken(id) => Some(id),
        FrontierReply::Busy(_) => None,
        FrontierReply::Finished => None,
        FrontierReply::Passed => None,
        FrontierReply::Halved(_, _) => None,
        FrontierReply::Failed(_) => None,
        FrontierReply::Spent => None,
    }
}
