//! The machine, and what a worker does with it.

ghost use Rattle.std.specs.Prelude.{◌≡◌, ◌+◌, ◌<◌, MatchBool, length};
ghost use Rattle.drt_lock.specs.Seats.{HoldsMachine, Rests};
ghost use Rattle.drt_workers_tests.specs.declared.tally.Tally.{Tally};

use atomic_table::Seat;
use drt_lock::{Guarded, Lock, SeatView};
use std::sync::Wait;

// How many notes the machine takes.
const MOST: u64 = 1_000_000;

/// A machine that notes the number of each worker that steps it. It was started with a number, too.
#[derive(Drop)]
pub(crate) struct Tally {
    pub(crate) start: u64,
    pub(crate) notes: Vec<u32>,
}

impl Guarded for Tally {
    type Fixed = u64;

    ghost use Rattle.std.specs.Prelude.{length};

    ghost fixed = { λ t. t.start };

    ghost entries = { λ t. length t.notes.items };
}

impl Tally {
    // Notes a number. False where there is no memory for it.
    fn note(&mut self, number: u32) -> bool
        ensures start { self.new.start ≡ self.old.start }
        ensures notes { MatchBool result (length self.new.notes.items ≡ length self.old.notes.items + 1) (length self.new.notes.items ≡ length self.old.notes.items) }
    {
        match self.notes.push(number) {
            Ok(()) => true,
            Err(_) => false,
        }
    }
}

/// The seat of a worker.
pub(crate) type TallySeat = Seat<Tally, SeatView<u64>>;

// Has a number noted by the machine that is out with the seat.
fn take_note(lock: &Lock<Tally>, seat: &mut TallySeat, number: u32) -> bool
    requires name { seat.old.table_id ≡ lock.now.name }
    requires machine { (y : Tally) × HoldsMachine y seat.old.me }
    ensures name { (seat.new.table_id ≡ seat.old.table_id) × (seat.new.me.0 ≡ seat.old.me.0) }
    ensures machine { (y : Tally) → HoldsMachine y seat.old.me → (z : Tally) × HoldsMachine z seat.new.me × (z.start ≡ y.start)
        × MatchBool result (length z.notes.items ≡ length y.notes.items + 1) (length z.notes.items ≡ length y.notes.items) }
{
    let tally = seat.slot_mut(lock.slots(), 0);
    tally.note(number)
}

/// One step of a worker: it waits for the lock, has its number noted, and counts that. Answers how many notes there were before.
pub(crate) fn step<R: Wait>(rt: &R, lock: &Lock<Tally>, seat: &mut TallySeat, number: u32) -> u64
    requires name { seat.old.table_id ≡ lock.now.name }
    requires seat { (0 < seat.old.me.0.parts) × Rests lock.now.fixed seat.old.me.0.parts seat.old.me.0.count seat.old.me }
    ensures name { seat.new.table_id ≡ lock.now.name }
    ensures seat { Rests lock.now.fixed seat.old.me.0.parts seat.new.me.0.count seat.new.me }
{
    let noted = lock.enter(rt, seat);
    if noted >= MOST {
        lock.leave(seat);
        return noted;
    }
    if !take_note(lock, seat, number) {
        lock.leave(seat);
        return noted;
    }
    lock.count(seat);
    lock.leave(seat);
    noted
}
