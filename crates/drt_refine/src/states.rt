//! The states of the combinations.
//!
//! A combination is pending, then taken, and then settled for good, and the least pending one is taken. So the pending
//! ones are those from a number on, and nothing is searched. The taken ones are as few as the workers.

ghost use Rattle.std.specs.Prelude.{◌≡◌, ℕ, ◌+◌, ◌≤◌, ◌<◌, ◌++◌, ◌∷◌, [], true, false, Some, None, length, slice_get, set, IfOk, vec_capacity, not, ◌==◌};
ghost use Rattle.drt_effort.specs.Efforts.{most_budget};
ghost use Rattle.drt_worklist.specs.Places.{first, places};
ghost use Rattle.drt_refine.specs.Combination.{is_pending_combination, is_taken_combination, is_held_state, is_failed_state};
ghost use Rattle.drt_refine.specs.declared.step.CombinationState.TheVariants.{Pending, Taken, Split};
ghost use Rattle.std.specs.List.{filter};

use crate::step::CombinationState;
use drt_worklist::push_within;
use std::alloc::{AllocError as Memory, Global};
use std::marker::Model;

/// The states of the combinations, each at its combination's number, with room for all that a frontier can have.
#[derive(Drop)]
pub(crate) struct States {
    items: Vec<CombinationState>,
    // How many were taken: those from here on are pending.
    next: u32,
    // The numbers of the taken ones, in order.
    taken: Vec<u32>,
    // The first that failed.
    failed: Option<u32>,
    room: usize,
}

impl Model for States {
    ghost use Rattle.std.specs.Prelude.{◌+◌, ◌≤◌, ◌<◌, length, vec_capacity};
    ghost use Rattle.drt_effort.specs.Efforts.{most_budget};
    ghost use Rattle.drt_refine.specs.States.{CombinationStock, AreSorted};

    ghost Value = { CombinationStock };

    ghost view = { λ s. record { items = s.items.items; room = s.room } };

    ghost invariant = { λ s.
        AreSorted s.items.items s.next s.taken.items s.failed
        × (length s.items.items ≤ s.room)
        × (s.room ≤ most_budget + 1)
        × (s.room ≤ vec_capacity s.items)
        × (s.room ≤ vec_capacity s.taken) };
}

impl States {
    // One pending state, and room for `room` of them.
    pub(crate) fn new(alloc: Global, room: usize) -> Result<States, Memory>
        requires { (1 ≤ room) × (room ≤ most_budget + 1) }
        ensures items { IfOk result (λ states. states.items ≡ Pending ∷ []) }
        ensures room { IfOk result (λ states. states.room ≡ room) }
    {
        let mut items = Vec::with_capacity(alloc, room)?;
        push_within(&mut items, CombinationState::Pending);
        Ok(States {
            items,
            next: 0,
            taken: Vec::with_capacity(alloc, room)?,
            failed: None,
            room,
        })
    }

    // How many there are.
    pub(crate) fn count(&self) -> u32
        ensures value { result ≡ length self.now.items }
        ensures small { result ≤ most_budget + 1 }
    {
        self.items.len() as u32
    }

    // The state of that number.
    pub(crate) fn at(&self, id: u32) -> CombinationState
        requires { id < length self.now.items }
        ensures { slice_get self.now.items id ≡ Some result }
    {
        self.items[id as usize]
    }

    // The first that is pending.
    pub(crate) fn first_pending(&self) -> Option<u32>
        ensures { result ≡ first is_pending_combination self.now.items }
    {
        if self.next < self.count() {
            Some(self.next)
        } else {
            None
        }
    }

    // The first that is taken.
    pub(crate) fn first_taken(&self) -> Option<u32>
        ensures { result ≡ first is_taken_combination self.now.items }
    {
        self.taken.first().copied()
    }

    // The first that failed.
    pub(crate) fn first_failed(&self) -> Option<u32>
        ensures { result ≡ first is_failed_state self.now.items }
    {
        self.failed
    }

    // The first that the worker holds.
    pub(crate) fn held_by(&self, worker: u32) -> Option<u32>
        ensures { result ≡ first (is_held_state worker) self.now.items }
    {
        for j in 0..self.taken.len() {
            let id = self.taken[j];
            if is_held(self.items[id as usize], worker) {
                return Some(id);
            }
        }
        None
    }

    // The first pending one is taken by a worker.
    pub(crate) fn take(&mut self, id: u32, worker: u32)
        requires { first is_pending_combination self.old.items ≡ Some id }
        ensures items { self.new.items ≡ set self.old.items id (Taken worker) }
        ensures room { self.new.room ≡ self.old.room }
    {
        self.items[id as usize] = CombinationState::Taken(worker);
        push_within(&mut self.taken, id);
        self.next += 1;
    }

    // A taken one is settled by a state for good. None has failed before.
    pub(crate) fn settle(&mut self, id: u32, state: CombinationState)
        requires taken { (s : _) × (slice_get self.old.items id ≡ Some s) × (is_taken_combination s ≡ true) }
        requires settled { (is_pending_combination state ≡ false) × (is_taken_combination state ≡ false) }
        requires none { first is_failed_state self.old.items ≡ None }
        ensures items { self.new.items ≡ set self.old.items id state }
        ensures room { self.new.room ≡ self.old.room }
    {
        self.items[id as usize] = state;
        forget(&mut self.taken, id);
        if has_failed(state) {
            self.failed = Some(id);
        }
    }

    // A taken one is split at a place into two, which are pending and have the next numbers. None has failed before.
    pub(crate) fn split(&mut self, id: u32, place: u32) -> (u32, u32)
        requires taken { (s : _) × (slice_get self.old.items id ≡ Some s) × (is_taken_combination s ≡ true) }
        requires none { first is_failed_state self.old.items ≡ None }
        requires room { length self.old.items + 2 ≤ self.old.room }
        ensures items { self.new.items ≡ set self.old.items id (Split place (length self.old.items) (length self.old.items + 1)) ++ Pending ∷ Pending ∷ [] }
        ensures room { self.new.room ≡ self.old.room }
        ensures left { result.0 ≡ length self.old.items }
        ensures right { result.1 ≡ length self.old.items + 1 }
    {
        let left = self.count();
        let right = left + 1;
        self.settle(id, CombinationState::Split { place, left, right });
        self.push();
        self.push();
        (left, right)
    }

    // One more that is pending.
    fn push(&mut self)
        requires { length self.old.items < self.old.room }
        ensures items { self.new.items ≡ self.old.items ++ Pending ∷ [] }
        ensures room { self.new.room ≡ self.old.room }
    {
        push_within(&mut self.items, CombinationState::Pending);
    }
}

// Whether the worker holds it.
fn is_held(state: CombinationState, worker: u32) -> bool
    ensures { result ≡ is_held_state worker state }
{
    match state {
        CombinationState::Taken(holder) => holder == worker,
        CombinationState::Pending => false,
        CombinationState::Passed(_) => false,
        CombinationState::Split { .. } => false,
        CombinationState::Failed => false,
    }
}

// Whether it failed.
fn has_failed(state: CombinationState) -> bool
    ensures { result ≡ is_failed_state state }
{
    match state {
        CombinationState::Failed => true,
        CombinationState::Pending => false,
        CombinationState::Taken(_) => false,
        CombinationState::Passed(_) => false,
        CombinationState::Split { .. } => false,
    }
}

// Takes a number out of a list.
fn forget(numbers: &mut Vec<u32>, number: u32)
    ensures items { numbers.new.items ≡ filter (λ k. not (k == number)) numbers.old.items }
    ensures capacity { vec_capacity numbers.new ≡ vec_capacity numbers.old }
{
    numbers.retain(
        |k: &u32| -> bool
            ensures { result ≡ not (k.now == number) }
        { *k != number },
    );
}
