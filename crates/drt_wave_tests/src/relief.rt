//! A gate at which one worker waits while another one works in its place.

use drt_pool::Gate;
use std::sync::atomic::{AtomicBool, AtomicU64, Ordering};
use std::thread;

/// How often a worker looks for the other one, where that comes, before it gives up.
pub(crate) const PATIENCE: u32 = 1_000_000;

/// It holds a turn of some number of the first worker until the second worker has come to a turn of another number. It may hold the first turn of
/// the second worker until the first one has come to its turn, too.
#[derive(Drop)]
pub(crate) struct Relief {
    // Whether it holds both workers. Then the caller has no turn alone, so that both begin at once.
    holds_both: bool,
    // The turn in which the first worker waits, and the one of the second worker until which it does.
    wait: u64,
    until: u64,
    // How often a worker looks for the other one before it gives up.
    looks: u32,
    // How many turns each of the two has come to.
    come: [AtomicU64; 2],
    is_missed: AtomicBool,
}

impl Relief {
    /// One that holds both workers: the first in its turn of number `wait`, until the second has come to its turn of number `until`.
    pub(crate) fn at(wait: u64, until: u64) -> Relief {
        Relief::new(true, wait, until, PATIENCE)
    }

    /// One that holds the first worker alone, in its turn of number `wait`, until the second comes to its first turn, for so many looks. The caller
    /// has some turn alone.
    pub(crate) fn behind(wait: u64, looks: u32) -> Relief {
        Relief::new(false, wait, 0, looks)
    }

    fn new(holds_both: bool, wait: u64, until: u64, looks: u32) -> Relief {
        Relief {
            holds_both,
            wait,
            until,
            looks,
            come: [AtomicU64::new(0), AtomicU64::new(0)],
            is_missed: AtomicBool::new(false),
        }
    }

    /// How many turns the first worker came to, where neither gave up.
    pub(crate) fn first_turns(&self) -> Option<u64> {
        if self.is_missed.load(Ordering::SeqCst) {
            return None;
        }
        Some(self.come[0].load(Ordering::SeqCst))
    }

    // Waits until the worker of this place has come to the turn.
    fn wait_for(&self, place: usize, turn: u64) {
        for _ in 0..self.looks {
            if self.has_come(place, turn) {
                return;
            }
            thread::yield_now();
        }
        self.is_missed.store(true, Ordering::SeqCst);
    }

    // Whether the worker of this place has come to the turn.
    fn has_come(&self, place: usize, turn: u64) -> bool {
        match self.come.get(place) {
            Some(come) => come.load(Ordering::SeqCst) > turn,
            None => false,
        }
    }
}

impl Gate for Relief {
    fn before(&self, worker: u32, turn: u64) {
        if worker > 1 {
            return;
        }
        self.come[worker as usize].fetch_add(1, Ordering::SeqCst);
        if worker == 0 && turn == self.wait {
            self.wait_for(1, self.until);
        }
        if worker == 1 && turn == 0 && self.holds_both {
            self.wait_for(0, self.wait);
        }
    }

    fn alone(&self) -> u64 {
        if self.holds_both { 0 } else { 1 }
    }
}
