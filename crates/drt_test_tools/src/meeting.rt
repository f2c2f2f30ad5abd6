//! A gate for tests, at which two workers meet.

ghost use Rattle.std.specs.Prelude.{◌≡◌};

use drt_pool::Gate;
use std::sync::atomic::{AtomicBool, AtomicU64, Ordering};
use std::thread;

/// How often a worker looks for the other one before it gives up.
const LOOKS: u32 = 1_000_000;

/// It holds the turn of one number of each of the first two workers until the other has come to its own as often.
#[derive(Drop)]
pub struct Meeting {
    alone: u64,
    turn: u64,
    come: [AtomicU64; 2],
    is_missed: AtomicBool,
}

impl Meeting {
    /// One that holds turns of that number, and leaves the caller none alone.
    pub fn at(turn: u64) -> Meeting
        ensures { (result.alone ≡ 0) × (result.turn ≡ turn) }
    {
        Meeting::new(0, turn)
    }

    /// One that holds first turns, and leaves so many turns to the caller alone.
    pub fn behind(alone: u64) -> Meeting
        ensures { (result.alone ≡ alone) × (result.turn ≡ 0) }
    {
        Meeting::new(alone, 0)
    }

    fn new(alone: u64, turn: u64) -> Meeting
        ensures { (result.alone ≡ alone) × (result.turn ≡ turn) }
    {
        Meeting {
            alone,
            turn,
            come: [AtomicU64::new(0), AtomicU64::new(0)],
            is_missed: AtomicBool::new(false),
        }
    }

    /// How often each of the two came, where both came as often and neither gave up, and else 0.
    pub fn times_met(&self) -> u64 {
        let first = self.come[0].load(Ordering::SeqCst);
        let second = self.come[1].load(Ordering::SeqCst);
        if self.is_missed.load(Ordering::SeqCst) || first != second {
            return 0;
        }
        first
    }
}

impl Gate for Meeting {
    fn before(&self, worker: u32, turn: u64) {
        if turn != self.turn || worker > 1 {
            return;
        }
        let place = worker as usize;
        let times = self.come[place].fetch_add(1, Ordering::SeqCst);
        for _ in 0..LOOKS {
            if self.come[1 - place].load(Ordering::SeqCst) > times {
                return;
            }
            thread::yield_now();
        }
        self.is_missed.store(true, Ordering::SeqCst);
    }

    fn alone(&self) -> u64 {
        self.alone
    }
}
