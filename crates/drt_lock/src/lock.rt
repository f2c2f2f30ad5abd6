//! The lock. Each step is taken by a seat.

ghost use Rattle.std.specs.Prelude.{◌≡◌, ℕ, ◌+◌, ◌-◌, ◌^◌, ◌<◌, ◌≤◌, IfOk, IfSome, IfNone, MatchBool};
ghost use Rattle.drt_lock.specs.Seats.{Knows, IsAtWork, Rests, HoldsMachine};
ghost use Rattle.drt_lock.specs.Rule.{with_grip, all_parts};
ghost use Rattle.drt_lock.specs.declared.view.Grip.TheVariants.{Away, Locked};

use crate::rule::{Count, Cut, Glue, Grab, Guarded, Leave, Rule, Take};
use crate::view::SeatView;
use atomic_table::{Refused, Seat, Shared, Table};
use crossbeam_utils::Backoff;
use std::alloc::{AllocError, Global};
use std::marker::Model;
use std::snapshot::Snapshot;
use std::sync::Wait;
use std::sync::atomic::{AtomicU64, Ordering};

/// The word that is 1 while a seat has the lock.
const HELD: usize = 0;

/// The word that is the length of the log.
const LOGGED: usize = 1;

/// A lock round a machine. Contracts see its name and the fixed values of its machine.
#[derive(Drop)]
pub struct Lock<M: Guarded + Drop> {
    table: Table<M, SeatView<M::Fixed>, Snapshot<M::Fixed>, Rule, Global>,
    // How many threads sleep, or are about to.
    asleep: AtomicU64,
}

impl<M: Guarded + Drop> Model for Lock<M> {
    ghost use Rattle.std.specs.Prelude.{◌≡◌};
    ghost use Rattle.drt_lock.specs.Seats.{LockOf};

    ghost Value = { LockOf M.Fixed };

    ghost view = { λ s. record { name = s.table.shared.table_id; fixed = s.table.shared.key.value } };

    ghost invariant = { λ s. (s.table.shared.table_id.words ≡ 2) × (s.table.shared.table_id.slots ≡ 1) };
}

impl<M: Guarded + Drop> Lock<M> {
    /// A lock round a machine whose log is empty, and the seat that has every part.
    pub fn new(
        alloc: Global,
        machine: M,
        fixed: Snapshot<M::Fixed>,
    ) -> Result<(Lock<M>, Seat<M, SeatView<M::Fixed>>), AllocError>
        requires fixed { M.fixed machine ≡ fixed.value }
        requires empty { M.entries machine ≡ 0 }
        ensures fixed { IfOk result (λ r. r.0.fixed ≡ fixed.value) }
        ensures name { IfOk result (λ r. r.1.table_id ≡ r.0.name) }
        ensures seat { IfOk result (λ r. Rests fixed.value all_parts 0 r.1.me) }
    {
        let mut slots = Vec::with_capacity(alloc, 1)?;
        slots.push_reserved(machine);
        match Table::new(alloc, &[0, 0], slots, &fixed) {
            Ok((table, seat)) => Ok((
                Lock {
                    table,
                    asleep: AtomicU64::new(0),
                },
                seat,
            )),
            Err(Refused { slots: _ }) => Err(AllocError),
        }
    }

    /// Gives one part to a new seat.
    pub fn split(&self, seat: &mut Seat<M, SeatView<M::Fixed>>) -> Seat<M, SeatView<M::Fixed>>
        requires name { seat.old.table_id ≡ self.now.name }
        requires seat { (1 < seat.old.me.0.parts) × Rests self.now.fixed seat.old.me.0.parts seat.old.me.0.count seat.old.me }
        ensures name { (seat.new.table_id ≡ self.now.name) × (result.table_id ≡ self.now.name) }
        ensures seat { Rests self.now.fixed (seat.old.me.0.parts - 1) seat.old.me.0.count seat.new.me }
        ensures new { Rests self.now.fixed 1 0 result.me }
    {
        self.table.shared.split_seat::<Cut>(seat)
    }

    /// Takes in the parts and the count of another seat.
    pub fn join(&self, seat: &mut Seat<M, SeatView<M::Fixed>>, other: Seat<M, SeatView<M::Fixed>>)
        requires name { (seat.old.table_id ≡ self.now.name) × (other.table_id ≡ self.now.name) }
        requires seat { (0 < seat.old.me.0.parts) × Rests self.now.fixed seat.old.me.0.parts seat.old.me.0.count seat.old.me }
        requires other { Rests self.now.fixed other.me.0.parts other.me.0.count other.me }
        ensures name { seat.new.table_id ≡ self.now.name }
        ensures seat { Rests self.now.fixed (seat.old.me.0.parts + other.me.0.parts) (seat.old.me.0.count + other.me.0.count) seat.new.me }
    {
        self.table.shared.join_seat::<Glue>(seat, other);
    }

    /// Waits for the lock, and takes the machine out. Answers the length of its log.
    pub fn enter<R: Wait>(&self, rt: &R, seat: &mut Seat<M, SeatView<M::Fixed>>) -> u64
        requires name { seat.old.table_id ≡ self.now.name }
        requires seat { (0 < seat.old.me.0.parts) × Rests self.now.fixed seat.old.me.0.parts seat.old.me.0.count seat.old.me }
        ensures name { seat.new.table_id ≡ self.now.name }
        ensures knows { Knows self.now.fixed seat.old.me.0.parts seat.old.me.0.count seat.new.me.0 }
        ensures work { IsAtWork seat.new.me.0 × (seat.new.me.0.read ≡ result) × (seat.old.me.0.count ≤ result) }
        ensures machine { (y : M) × HoldsMachine y seat.new.me × (M.fixed y ≡ self.now.fixed) × (M.entries y ≡ result) }
    {
        self.grab(rt, seat);
        self.table.shared.load::<Take<M>>(seat, LOGGED)
    }

    /// Takes the machine out where the lock is free, and doesn't wait where it isn't. Answers the length of its log, or None where another seat has
    /// the lock.
    pub fn try_enter(&self, seat: &mut Seat<M, SeatView<M::Fixed>>) -> Option<u64>
        requires name { seat.old.table_id ≡ self.now.name }
        requires seat { (0 < seat.old.me.0.parts) × Rests self.now.fixed seat.old.me.0.parts seat.old.me.0.count seat.old.me }
        ensures name { seat.new.table_id ≡ self.now.name }
        ensures knows { IfSome result (λ read. Knows self.now.fixed seat.old.me.0.parts seat.old.me.0.count seat.new.me.0) }
        ensures work { IfSome result (λ read. IsAtWork seat.new.me.0 × (seat.new.me.0.read ≡ read) × (seat.old.me.0.count ≤ read)) }
        ensures machine { IfSome result (λ read. (y : M) × HoldsMachine y seat.new.me × (M.fixed y ≡ self.now.fixed) × (M.entries y ≡ read)) }
        ensures left { IfNone result (seat.new.me ≡ seat.old.me) }
    {
        if !self.try_grab(seat) {
            return None;
        }
        Some(self.table.shared.load::<Take<M>>(seat, LOGGED))
    }

    // Takes the lock if it is free. It looks first, so a thread that waits only reads.
    fn try_grab(&self, seat: &mut Seat<M, SeatView<M::Fixed>>) -> bool
        requires name { seat.old.table_id ≡ self.now.name }
        requires seat { (0 < seat.old.me.0.parts) × (seat.old.me.0.grip ≡ Away) }
        ensures name { seat.new.table_id ≡ self.now.name }
        ensures seat { MatchBool result (seat.new.me ≡ (with_grip seat.old.me.0 Locked, seat.old.me.1)) (seat.new.me ≡ seat.old.me) }
    {
        if self.table.shared.peek(HELD) != 0 {
            return false;
        }
        self.table.shared.compare_exchange::<Grab>(seat, HELD, 0, 1) == 0
    }

    // Waits until the seat has the lock.
    fn grab<R: Wait>(&self, rt: &R, seat: &mut Seat<M, SeatView<M::Fixed>>)
        requires name { seat.old.table_id ≡ self.now.name }
        requires seat { (0 < seat.old.me.0.parts) × (seat.old.me.0.grip ≡ Away) }
        ensures name { seat.new.table_id ≡ self.now.name }
        ensures seat { seat.new.me ≡ (with_grip seat.old.me.0 Locked, seat.old.me.1) }
    {
        let backoff = Backoff::new();
        for _ in rt.forever() {
            if self.try_grab(seat) {
                return;
            }
            if backoff.is_completed() {
                self.sleep(rt);
                backoff.reset();
            } else {
                backoff.snooze();
            }
        }
        unreachable!()
    }

    // Sleeps while the lock is another's. It first says so, and the word is compared after that, so one who frees the lock
    // sees a sleeper or is seen by it.
    fn sleep<R: Wait>(&self, rt: &R) {
        self.asleep.fetch_add(1, Ordering::SeqCst);
        self.table.shared.park(rt, HELD, 1);
        self.asleep.fetch_sub(1, Ordering::SeqCst);
    }

    /// Counts a step that the machine logged.
    pub fn count(&self, seat: &mut Seat<M, SeatView<M::Fixed>>)
        requires name { seat.old.table_id ≡ self.now.name }
        requires work { IsAtWork seat.old.me.0 × (seat.old.me.0.read + 1 < 2 ^ 64) }
        ensures name { seat.new.table_id ≡ self.now.name }
        ensures knows { (seat.new.me.0.fixed ≡ seat.old.me.0.fixed) × (seat.new.me.0.parts ≡ seat.old.me.0.parts) × (seat.new.me.0.count ≡ seat.old.me.0.count + 1) }
        ensures work { IsAtWork seat.new.me.0 × (seat.new.me.0.read ≡ seat.old.me.0.read + 1) }
        ensures machine { seat.new.me.1 ≡ seat.old.me.1 }
    {
        self.table.shared.fetch_add::<Count>(seat, LOGGED, 1);
    }

    /// Where a seat that has the machine borrows it, as slot 0.
    pub fn slots(&self) -> &Shared<M, SeatView<M::Fixed>, Snapshot<M::Fixed>, Rule>
        ensures { result.now.table_id ≡ self.now.name }
    {
        &self.table.shared
    }

    /// Puts the machine back, and frees the lock.
    pub fn leave(&self, seat: &mut Seat<M, SeatView<M::Fixed>>)
        requires name { seat.old.table_id ≡ self.now.name }
        requires work { IsAtWork seat.old.me.0 × Knows self.now.fixed seat.old.me.0.parts seat.old.me.0.count seat.old.me.0 }
        requires machine { (y : M) × HoldsMachine y seat.old.me × (M.fixed y ≡ self.now.fixed) × (M.entries y ≡ seat.old.me.0.read) }
        ensures name { seat.new.table_id ≡ self.now.name }
        ensures seat { Rests self.now.fixed seat.old.me.0.parts seat.old.me.0.count seat.new.me }
    {
        self.table.shared.store::<Leave>(seat, HELD, 0);
        if self.asleep.load(Ordering::SeqCst) > 0 {
            self.table.shared.wake_one(HELD);
        }
    }

    /// The machine, once the seat has every part. Its log is as long as what the seats counted.
    pub fn close(self, seat: Seat<M, SeatView<M::Fixed>>) -> M
        requires name { seat.table_id ≡ self.name }
        requires seat { Rests self.fixed all_parts seat.me.0.count seat.me }
        ensures fixed { M.fixed result ≡ self.fixed }
        ensures entries { M.entries result ≡ seat.me.0.count }
    {
        let Lock { table, .. } = self;
        let mut closed = table.close_with(seat);
        let machine = closed.take(0);
        closed.free();
        machine
    }
}
