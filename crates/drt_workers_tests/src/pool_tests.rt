//! Passes that count down.

ghost use Rattle.std.specs.Prelude.{◌≡◌, ℕ};

use drt_pool::{Gate, OpenGate, Turn, Work, run_all};
use drt_test_tools::Meeting;
use std::sync::Wait;
use std::sync::atomic::{AtomicBool, AtomicU64, Ordering};

// A pass is the number of turns that are left before the one that stops.
struct Countdown;

impl Work for Countdown {
    type Pass = u64;

    ghost fits = { λ work place pass. Unit {0} };

    ghost ended = { λ work place pass. pass ≡ 0 };

    fn turn<R: Wait>(&self, _rt: &R, pass: &mut u64) -> Turn {
        if *pass == 0 {
            return Turn::Stop;
        }
        *pass -= 1;
        Turn::More
    }
}

// It leaves the caller so many turns, and sees that the turns of each pass come in order.
#[derive(Drop)]
struct Recorder {
    alone: u64,
    turns: [AtomicU64; 3],
    is_broken: AtomicBool,
}

impl Recorder {
    fn new(alone: u64) -> Recorder {
        Recorder {
            alone,
            turns: [AtomicU64::new(0), AtomicU64::new(0), AtomicU64::new(0)],
            is_broken: AtomicBool::new(false),
        }
    }

    // Whether the passes had so many turns, each of them in order.
    fn saw(&self, turns: [u64; 3]) -> bool {
        !self.is_broken.load(Ordering::SeqCst)
            && self.turns[0].load(Ordering::SeqCst) == turns[0]
            && self.turns[1].load(Ordering::SeqCst) == turns[1]
            && self.turns[2].load(Ordering::SeqCst) == turns[2]
    }
}

impl Gate for Recorder {
    fn before(&self, worker: u32, turn: u64) {
        match self.turns.get(worker as usize) {
            Some(turns) => {
                if turns.fetch_add(1, Ordering::SeqCst) != turn {
                    self.is_broken.store(true, Ordering::SeqCst);
                }
            }
            None => self.is_broken.store(true, Ordering::SeqCst),
        }
    }

    fn alone(&self) -> u64 {
        self.alone
    }
}

#[test]
fn each_pass_is_turned_until_it_stops_however_long_the_caller_is_alone(rt: HostRuntime) {
    for alone in [0u64, 1, 3, 4, 5, 6, 4_000] {
        let gate = Recorder::new(alone);
        let mut passes = [4u64, 0, 7];
        run_all(&rt, &Countdown, &mut passes, &gate);
        assert!(rt;
            passes == [0, 0, 0] && gate.saw([5, 1, 8]),
            "alone for {alone}"
        );
    }
}

#[test]
fn the_open_gate_turns_short_and_long_passes(rt: HostRuntime) {
    let mut passes = [3u64, 9_000, 1, 10_000];
    run_all(&rt, &Countdown, &mut passes, &OpenGate);
    assert!(rt; passes == [0, 0, 0, 0]);
    let mut passes = [9_000u64; 16];
    run_all(&rt, &Countdown, &mut passes, &OpenGate);
    assert!(rt; passes == [0; 16]);
    let mut passes: [u64; 0] = [];
    run_all(&rt, &Countdown, &mut passes, &OpenGate);
}

#[test]
fn two_workers_turn_at_the_same_time(rt: HostRuntime) {
    let gate = Meeting::at(0);
    let mut passes = [5u64, 6];
    run_all(&rt, &Countdown, &mut passes, &gate);
    assert!(rt; passes == [0, 0] && gate.times_met() == 1);
}
