//! The steps of the machine on a frontier's lists.

ghost use Rattle.std.specs.Prelude.{◌≡◌, ℕ, ◌+◌, ◌≤◌, ◌<◌, ◌++◌, ◌∷◌, [], Some, None, true, false, length, slice_get, slice_set, take, drop, vec_capacity};
ghost use Rattle.drt_worklist.specs.Places.{first, changed};
ghost use Rattle.drt_refine.specs.Combination.{Combination, with_state, is_combination_pending, is_pending_combination, is_combination_taken, is_taken_combination, is_failed};
ghost use Rattle.drt_refine.specs.Machine.{halves};
ghost use Rattle.drt_refine.specs.View.{IsFrontier, CanApply, IsFrontierStep, moved};
ghost use Rattle.drt_refine.specs.declared.step.CombinationState.TheVariants.{Taken as TakenBy};
ghost use Rattle.drt_refine.specs.declared.step.FrontierStep.TheVariants.{Take, Split};
ghost use Rattle.drt_refine.specs.declared.step.FrontierReply.TheVariants.{Halved};

use crate::frontier::Frontier;
use crate::step::{CombinationState, FrontierEntry, FrontierReply, FrontierStep};
use drt_tree::Forest;
use drt_worklist::push_within;

impl Frontier {
    // Makes a step.
    pub(crate) fn make(&mut self, forest: &Forest, worker: u32, step: FrontierStep) -> FrontierReply
        requires frontier { IsFrontier forest.now self.old }
        requires can { CanApply forest.now self.old worker step }
        ensures { IsFrontierStep forest.now self.old self.new worker step result }
    {
        match self.first_failed() {
            Some(id) => FrontierReply::Failed(id),
            None => match step {
                FrontierStep::Take => self.take(worker),
                FrontierStep::Pass { id, time } => {
                    if self.is_full() {
                        FrontierReply::Spent
                    } else {
                        self.settle(worker, id, CombinationState::Passed(time), step);
                        FrontierReply::Passed
                    }
                }
                FrontierStep::Fail { id } => {
                    if self.is_full() {
                        FrontierReply::Spent
                    } else {
                        self.settle(worker, id, CombinationState::Failed, step);
                        FrontierReply::Failed(id)
                    }
                }
                FrontierStep::Split { id, place } => {
                    if self.is_full() {
                        FrontierReply::Spent
                    } else {
                        self.split(forest, worker, id, place)
                    }
                }
            },
        }
    }

    // The step Take, where none has failed.
    fn take(&mut self, worker: u32) -> FrontierReply
        requires { first is_failed self.old.combinations ≡ None }
        ensures { (forest : _) → IsFrontierStep forest self.old self.new worker Take result }
    {
        match self.first_pending() {
            None => match self.first_taken() {
                None => FrontierReply::Finished,
                Some(id) => {
                    if self.is_full() {
                        FrontierReply::Spent
                    } else {
                        FrontierReply::Busy(id)
                    }
                }
            },
            Some(id) => {
                if self.is_full() {
                    FrontierReply::Spent
                } else {
                    self.hold(worker, id);
                    FrontierReply::Taken(id)
                }
            }
        }
    }

    // The worker takes the first pending combination.
    fn hold(&mut self, worker: u32, id: u32)
        requires room { length self.old.log < self.old.budget }
        requires pending { first is_combination_pending self.old.combinations ≡ Some id }
        ensures { self.new ≡ moved self.old (record { combinations = changed id (with_state (TakenBy worker)) self.old.combinations; log = self.old.log ++ record { worker = worker; step = Take } ∷ [] }) }
    {
        self.states.take(id, worker);
        let step = FrontierStep::Take;
        push_within(&mut self.log, FrontierEntry { worker, step });
    }

    // The combination, which the worker holds, is settled by a state for good.
    fn settle(&mut self, worker: u32, id: u32, state: CombinationState, step: FrontierStep)
        requires room { length self.old.log < self.old.budget }
        requires held { (c : Combination) × (slice_get self.old.combinations id ≡ Some c) × (is_combination_taken c ≡ true) }
        requires settled { (is_pending_combination state ≡ false) × (is_taken_combination state ≡ false) }
        requires none { first is_failed self.old.combinations ≡ None }
        ensures { self.new ≡ moved self.old (record { combinations = changed id (with_state state) self.old.combinations; log = self.old.log ++ record { worker = worker; step = step } ∷ [] }) }
    {
        self.states.settle(id, state);
        push_within(&mut self.log, FrontierEntry { worker, step });
    }

    // The step Split, where none has failed and the log isn't full.
    fn split(&mut self, forest: &Forest, worker: u32, id: u32, place: u32) -> FrontierReply
        requires frontier { IsFrontier forest.now self.old }
        requires can { CanApply forest.now self.old worker (Split id place) }
        requires none { first is_failed self.old.combinations ≡ None }
        requires room { length self.old.log < self.old.budget }
        ensures { IsFrontierStep forest.now self.old self.new worker (Split id place) result }
    {
        let node = self.node_at(id, place);
        match forest.children(node) {
            Some((left, right)) => self.halve(worker, id, place, left, right),
            None => unreachable!(),
        }
    }

    // The node at a place of a combination.
    fn node_at(&self, id: u32, place: u32) -> u32
        requires { (c : Combination) × (n : ℕ) × (slice_get self.now.combinations id ≡ Some c) × (length c.nodes ≡ length self.now.roots) × (slice_get c.nodes place ≡ Some n) }
        ensures { (c : Combination) → slice_get self.now.combinations id ≡ Some c → slice_get c.nodes place ≡ Some result }
    {
        self.nodes[id as usize * self.roots.len() + place as usize]
    }

    // A taken combination is split at a place into two with these nodes there.
    fn halve(&mut self, worker: u32, id: u32, place: u32, left: u32, right: u32) -> FrontierReply
        requires room { length self.old.log < self.old.budget }
        requires held { (c : Combination) × (slice_get self.old.combinations id ≡ Some c) × (is_combination_taken c ≡ true) × (length c.nodes ≡ length self.old.roots) }
        requires none { first is_failed self.old.combinations ≡ None }
        ensures new { (c : Combination) → slice_get self.old.combinations id ≡ Some c → self.new ≡ moved self.old (record {
          combinations = halves self.old.combinations id place (slice_set c.nodes place left) (slice_set c.nodes place right);
          log = self.old.log ++ record { worker = worker; step = Split id place } ∷ [];
        }) }
        ensures reply { result ≡ Halved (length self.old.combinations) (length self.old.combinations + 1) }
    {
        let width = self.roots.len();
        let start = id as usize * width;
        copy_with(&mut self.nodes, start, width, place as usize, left);
        copy_with(&mut self.nodes, start, width, place as usize, right);
        let (left, right) = self.states.split(id, place);
        let step = FrontierStep::Split { id, place };
        push_within(&mut self.log, FrontierEntry { worker, step });
        FrontierReply::Halved(left, right)
    }
}

// Appends a copy of a part of the list, with the element at a place of it changed.
fn copy_with(items: &mut Vec<u32>, start: usize, width: usize, place: usize, item: u32)
    requires part { start + width ≤ length items.old.items }
    requires room { length items.old.items + width ≤ vec_capacity items.old }
    ensures items { items.new.items ≡ items.old.items ++ slice_set (take width (drop start items.old.items)) place item }
    ensures capacity { vec_capacity items.old ≤ vec_capacity items.new }
{
    for k in 0..width {
        let copied = if k == place { item } else { items[start + k] };
        push_within(items, copied);
    }
}
