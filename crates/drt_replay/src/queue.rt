//! Queues of jobs in order of keys.
ghost use Rattle.std.specs.Prelude.{◌≡◌, ◌+◌, ◌<◌, ◌≤◌, [], ◌∷◌, length, All, IfOk, MatchOption, IsPermutation};
ghost use Rattle.drt_replay.specs.Queue.{IsFirstKey, IsPopped, entry};

use std::alloc::{AllocError as Memory, Global};
use std::cmp::Reverse;
use std::collections::BinaryHeap;
use std::marker::Model;

/// What a job is ordered by: three numbers, the weightiest first, and then its place in the list of jobs.
#[derive(Debug, Clone, Copy, PartialEq, Eq, PartialOrd, Ord)]
pub struct Key {
    pub first: u64,
    pub second: u64,
    pub third: u64,
    pub place: usize,
}

/// Keys of which the least comes out first. Contracts see the keys, in no order that matters, and how many
/// there is room for.
#[derive(Drop)]
pub struct Queue {
    heap: BinaryHeap<Reverse<Key>>,
}

impl Model for Queue {
    ghost use Rattle.std.specs.BinaryHeap.{IsHeap, heap_items, heap_capacity};
    ghost use Rattle.drt_replay.specs.Queue.{HeldKeys, compare};

    ghost Value = { HeldKeys };

    ghost view = { λ q. record { items = heap_items q.heap; room = heap_capacity q.heap } };

    ghost invariant = { λ q. IsHeap compare (heap_items q.heap) };
}

impl Queue {
    /// An empty queue with room for so many keys.
    pub fn with_room(alloc: Global, room: usize) -> Result<Queue, Memory>
        ensures { IfOk result (λ q. q ≡ record { items = []; room = room }) }
    {
        let heap = BinaryHeap::with_capacity(alloc, room)?;
        Ok(Queue { heap })
    }

    /// The entry of the least key; none where the queue is empty.
    pub fn first(&self) -> Option<&Reverse<Key>>
        ensures { MatchOption result (self.now.items ≡ []) (λ r. IsFirstKey self.now.items r.now.0) }
    {
        self.heap.peek()
    }

    /// Takes the entry of the least key out; none where the queue is empty.
    pub fn pop(&mut self) -> Option<Reverse<Key>>
        ensures { MatchOption result ((self.new ≡ self.old) × (self.old.items ≡ [])) (λ r. IsPopped self.old self.new r.0) }
    {
        self.heap.pop()
    }

    /// Puts a key in.
    pub fn push(&mut self, key: Key)
        requires { length self.old.items < self.old.room }
        ensures items { IsPermutation (entry key ∷ self.old.items) self.new.items }
        ensures room { self.old.room ≤ self.new.room }
    {
        match self.heap.push(Reverse(key)) {
            Ok(()) => {}
            Err(_) => unreachable!(),
        }
    }
}
