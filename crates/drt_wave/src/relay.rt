//! What the workers of a table share.
ghost use Rattle.std.specs.Prelude.{◌≡◌, IfOk, IfErr, IfSome};
ghost use Rattle.drt_lock.specs.Seats.{HoldsMachine, Rests};
ghost use Rattle.drt_wave.specs.Shifts.{IsShift};
ghost use Rattle.drt_wave.specs.Seats.{HasRoomForLanes};

use crate::desk::{Desk, Shift};
use crate::drawing::turn_some;
use crate::lane::LaneSeat;
use crate::table::WaveTable;
use atomic_table::Seat;
use crossbeam_utils::Backoff;
use drt_lock::{Lock, SeatView};
use drt_pool::{Turn, Work};
use std::sync::Wait;
use std::sync::atomic::{AtomicU64, Ordering};
use std::thread;

/// How often a turn looks whether the next wave is open.
const LOOKS: u32 = 64;

/// The seat by which a worker has the lock.
pub(crate) type LockSeat<'a> = Seat<Desk<'a>, SeatView<WaveTable>>;

/// A table, and the desk where its workers take their seats.
#[derive(Drop)]
pub(crate) struct Relay<'a> {
    pub(crate) table: &'a WaveTable,
    pub(crate) lock: Lock<Desk<'a>>,
    /// The wave that is open. It is there only so that who looks for a wave needn't take the lock.
    pub(crate) open: AtomicU64,
    ghost of_table: { lock.fixed ≡ table.now },
}

/// What a worker has.
#[derive(Drop)]
pub(crate) struct Hand<'a> {
    pub(crate) lock_seat: LockSeat<'a>,
    /// The wave that it works, with a seat.
    pub(crate) held: Option<Shift>,
    /// Room for a seat, where it has none.
    pub(crate) room: Option<Vec<LaneSeat>>,
    /// The first wave that it may work.
    pub(crate) next: u64,
}

impl<'a> Work for Relay<'a> {
    type Pass = Hand<'a>;

    ghost fits = { λ relay place hand. (hand.lock_seat.table_id ≡ relay.lock.name) × Rests relay.lock.fixed 1 0 hand.lock_seat.me
        × IfSome hand.held (λ shift. IsShift relay.table.now shift.wave shift.seat)
        × IfSome hand.room (λ room. HasRoomForLanes relay.table.now room) };

    ghost ended = { λ relay place hand. Unit {0} };

    // A turn draws blocks for the seat in hand, or looks for a seat. None waits: where the lock is another's, the next turn tries again.
    fn turn<R: Wait>(&self, _rt: &R, hand: &mut Hand<'a>) -> Turn {
        match hand.held.take() {
            Some(shift) => {
                self.work(hand, shift);
                Turn::More
            }
            None => self.seek(hand),
        }
    }
}

impl<'a> Relay<'a> {
    // Draws blocks of the wave and works them. Where a number is past the wave's end the seat is given back.
    fn work(&self, hand: &mut Hand<'a>, shift: Shift)
        requires name { hand.old.lock_seat.table_id ≡ self.now.lock.name }
        requires seat { Rests self.now.lock.fixed 1 0 hand.old.lock_seat.me }
        requires shift { IsShift self.now.table.now shift.wave shift.seat }
        requires room { IfSome hand.old.room (λ room. HasRoomForLanes self.now.table.now room) }
        ensures name { hand.new.lock_seat.table_id ≡ self.now.lock.name }
        ensures seat { Rests self.now.lock.fixed 1 0 hand.new.lock_seat.me }
        ensures held { IfSome hand.new.held (λ s. IsShift self.now.table.now s.wave s.seat) }
        ensures room { IfSome hand.new.room (λ room. HasRoomForLanes self.now.table.now room) }
    {
        let mut shift = shift;
        if turn_some(self.table, &mut shift.seat, shift.wave) {
            hand.held = Some(shift);
            return;
        }
        self.hand_in(hand, shift);
    }

    // Gives a seat back under the lock, and has the room of it. Where the lock is another's the seat stays in hand.
    fn hand_in(&self, hand: &mut Hand<'a>, shift: Shift)
        requires name { hand.old.lock_seat.table_id ≡ self.now.lock.name }
        requires seat { Rests self.now.lock.fixed 1 0 hand.old.lock_seat.me }
        requires shift { IsShift self.now.table.now shift.wave shift.seat }
        requires room { IfSome hand.old.room (λ room. HasRoomForLanes self.now.table.now room) }
        ensures name { hand.new.lock_seat.table_id ≡ self.now.lock.name }
        ensures seat { Rests self.now.lock.fixed 1 0 hand.new.lock_seat.me }
        ensures held { IfSome hand.new.held (λ s. IsShift self.now.table.now s.wave s.seat) }
        ensures room { IfSome hand.new.room (λ room. HasRoomForLanes self.now.table.now room) }
    {
        let Some(_entries) = self.lock.try_enter(&mut hand.lock_seat) else {
            thread::yield_now();
            hand.held = Some(shift);
            return;
        };
        let next = shift.wave as u64 + 1;
        let (room, open) = self.give_back(&mut hand.lock_seat, shift);
        // Told before the lock is left, so that it never falls back to an earlier wave.
        self.open.store(open, Ordering::SeqCst);
        self.lock.leave(&mut hand.lock_seat);
        hand.next = next;
        hand.held = None;
        hand.room = room;
    }

    // Gives a seat back to the desk that is out with the lock's seat. Who finds all parts back there works on. Answers the wave that is
    // open then.
    fn give_back(&self, seat: &mut LockSeat<'a>, shift: Shift) -> (Option<Vec<LaneSeat>>, u64)
        requires name { seat.old.table_id ≡ self.now.lock.name }
        requires desk { HoldsMachine self.now.lock.fixed seat.old.me }
        requires shift { IsShift self.now.lock.fixed shift.wave shift.seat }
        ensures name { seat.new.table_id ≡ seat.old.table_id }
        ensures me { seat.new.me ≡ seat.old.me }
        ensures room { IfSome result.0 (λ room. HasRoomForLanes self.now.lock.fixed room) }
    {
        let desk = seat.slot_mut(self.lock.slots(), 0);
        let room = desk.give_back(shift);
        desk.work_on();
        (room, desk.open_wave() as u64)
    }

    // Looks for the next wave, and takes a seat for it. Stop where all waves are worked.
    fn seek(&self, hand: &mut Hand<'a>) -> Turn
        requires name { hand.old.lock_seat.table_id ≡ self.now.lock.name }
        requires seat { Rests self.now.lock.fixed 1 0 hand.old.lock_seat.me }
        requires room { IfSome hand.old.room (λ room. HasRoomForLanes self.now.table.now room) }
        ensures name { hand.new.lock_seat.table_id ≡ self.now.lock.name }
        ensures seat { Rests self.now.lock.fixed 1 0 hand.new.lock_seat.me }
        ensures held { IfSome hand.new.held (λ s. IsShift self.now.table.now s.wave s.seat) }
        ensures room { IfSome hand.new.room (λ room. HasRoomForLanes self.now.table.now room) }
    {
        hand.held = None;
        if !self.is_open(hand.next) {
            return Turn::More;
        }
        // A worker without a seat has room for one.
        let Some(room) = hand.room.take() else {
            return Turn::Stop;
        };
        let Some(_entries) = self.lock.try_enter(&mut hand.lock_seat) else {
            thread::yield_now();
            hand.room = Some(room);
            return Turn::More;
        };
        let (is_done, taken) = self.take(&mut hand.lock_seat, hand.next, room);
        self.lock.leave(&mut hand.lock_seat);
        match taken {
            Ok(shift) => hand.held = Some(shift),
            Err(room) => hand.room = Some(room),
        }
        if is_done { Turn::Stop } else { Turn::More }
    }

    // Takes a seat from the desk that is out with the lock's seat, or has the room for it back, and says whether all waves are worked.
    fn take(
        &self,
        seat: &mut LockSeat<'a>,
        next: u64,
        room: Vec<LaneSeat>,
    ) -> (bool, Result<Shift, Vec<LaneSeat>>)
        requires name { seat.old.table_id ≡ self.now.lock.name }
        requires desk { HoldsMachine self.now.lock.fixed seat.old.me }
        requires room { HasRoomForLanes self.now.lock.fixed room }
        ensures name { seat.new.table_id ≡ seat.old.table_id }
        ensures me { seat.new.me ≡ seat.old.me }
        ensures shift { IfOk result.1 (λ s. IsShift self.now.lock.fixed s.wave s.seat) }
        ensures room { IfErr result.1 (λ back. HasRoomForLanes self.now.lock.fixed back) }
    {
        let desk = seat.slot_mut(self.lock.slots(), 0);
        let taken = desk.take(next, room);
        (desk.is_done(), taken)
    }

    // Looks for a while whether the wave is open.
    fn is_open(&self, wave: u64) -> bool {
        let backoff = Backoff::new();
        for _look in 0..LOOKS {
            if self.open.load(Ordering::SeqCst) >= wave {
                return true;
            }
            backoff.snooze();
        }
        false
    }
}
