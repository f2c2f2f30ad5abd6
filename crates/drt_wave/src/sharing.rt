//! Tables that several workers share.
ghost use Rattle.std.specs.Prelude.{◌≡◌, ◌+◌, ◌<◌, ◌≤◌, [], length, vec_capacity, IfOk, IfSome, None};
ghost use Rattle.drt_lock.specs.Rule.{all_parts};
ghost use Rattle.drt_lock.specs.Seats.{Rests};
ghost use Rattle.drt_pool.specs.Turns.{EachPlace};
ghost use Rattle.drt_wave.specs.Cells.{net_of};
ghost use Rattle.drt_wave.specs.Shifts.{IsAtWork};
ghost use Rattle.drt_wave.specs.Seats.{draws_of, KnowsTo, IsOfTable, HasRoomForLanes};

use crate::crew::Crew;
use crate::desk::Desk;
use crate::relay::{Hand, LockSeat, Relay};
use crate::seat::WaveSeat;
use crate::table::WaveTable;
use drt_lock::Lock;
use drt_model::Memory;
use drt_pool::{Gate, run_all};
use std::alloc::Global;
use std::snapshot::Snapshot;
use std::sync::Wait;
use std::sync::atomic::AtomicU64;
use std::thread::Threads;

/// The gate of a table, which has its own number of turns for the caller alone.
#[derive(Drop)]
struct WaveGate<'a, G: Gate> {
    gate: &'a G,
    alone: u64,
}

impl<G: Gate> Gate for WaveGate<'_, G> {
    fn before(&self, worker: u32, turn: u64) {
        self.gate.before(worker, turn);
    }

    fn alone(&self) -> u64 {
        self.alone
    }
}

// Gives out so many hands, one part of the lock's seat and room for a seat of the table to each.
fn deal<'a>(
    alloc: Global,
    table: &WaveTable,
    lock: &Lock<Desk<'a>>,
    owner: &mut LockSeat<'a>,
    hands: &mut Vec<Hand<'a>>,
    count: u32,
) -> Result<(), Memory>
    requires name { owner.old.table_id ≡ lock.now.name }
    requires owner { (count ≤ 16) × Rests lock.now.fixed all_parts 0 owner.old.me }
    requires room { (hands.old.items ≡ []) × (count ≤ vec_capacity hands.old) }
    ensures name { IfOk result (λ u. owner.new.table_id ≡ lock.now.name) }
    ensures owner { IfOk result (λ u. (owner.new.me.0.parts + count ≡ all_parts) × Rests lock.now.fixed owner.new.me.0.parts 0 owner.new.me) }
    ensures count { IfOk result (λ u. length hands.new.items ≡ count) }
    ensures each { IfOk result (λ u. EachPlace (λ place hand. (hand.lock_seat.table_id ≡ lock.now.name) × Rests lock.now.fixed 1 0 hand.lock_seat.me
        × (hand.held ≡ None) × IfSome hand.room (λ room. HasRoomForLanes table.now room)) hands.new.items) }
{
    'hands: for _hand in 0..count {
        let room = table.room(alloc)?;
        let lock_seat = lock.split(owner);
        hands.push_reserved(Hand {
            lock_seat,
            held: None,
            room: Some(room),
            next: 0,
        });
    }
    Ok(())
}

// Takes the parts of the hands together, and has the desk again.
fn gather<'a>(lock: Lock<Desk<'a>>, owner: LockSeat<'a>, hands: Vec<Hand<'a>>) -> Desk<'a>
    requires name { owner.table_id ≡ lock.name }
    requires owner { (0 < owner.me.0.parts) × (owner.me.0.parts + length hands.items ≡ all_parts) × Rests lock.fixed owner.me.0.parts 0 owner.me }
    requires each { EachPlace (λ place hand. (hand.lock_seat.table_id ≡ lock.name) × Rests lock.fixed 1 0 hand.lock_seat.me) hands.items }
    ensures { result ≡ lock.entry.fixed }
{
    let mut owner = owner;
    let mut hands = hands;
    'hands: while let Some(hand) = hands.pop() {
        let Hand { lock_seat, .. } = hand;
        lock.join(&mut owner, lock_seat);
    }
    lock.close(owner)
}

// Works the waves of a desk by several workers, which begin once. Each takes a seat for a wave and gives it back at the wave's end.
fn work_desk<'a, G: Gate, R: Threads + Wait + Sync>(
    rt: &R,
    alloc: Global,
    table: &'a WaveTable,
    desk: Desk<'a>,
    workers: u32,
    gate: &G,
) -> Result<Desk<'a>, Memory>
    requires desk { desk ≡ table.now }
    requires workers { workers ≤ 16 }
    ensures { IfOk result (λ worked. worked ≡ table.now) }
{
    let open = desk.open_wave() as u64;
    let mut hands = Vec::with_capacity(alloc, workers as usize)?;
    let (lock, mut owner) = Lock::new(alloc, desk, Snapshot::of(table))?;
    deal(alloc, table, &lock, &mut owner, &mut hands, workers)?;
    let relay = Relay {
        table,
        lock,
        open: AtomicU64::new(open),
    };
    run_all(rt, &relay, hands.as_mut_slice(), gate);
    let Relay { lock, .. } = relay;
    Ok(gather(lock, owner, hands))
}

/// Works a table to its end by several workers, and answers the seat that has taken in what all did. None where a part is still out,
/// which can't be.
pub(crate) fn share_table<G: Gate, R: Threads + Wait + Sync>(
    rt: &R,
    alloc: Global,
    table: &WaveTable,
    owner: WaveSeat,
    crew: Crew,
    gate: &G,
) -> Result<Option<WaveSeat>, Memory>
    requires owner { IsAtWork table.now 0 all_parts owner }
    requires draws { draws_of owner ≡ [] }
    requires crew { (1 ≤ crew.count) × (crew.count ≤ 16) }
    ensures seat { IfOk result (λ o. IfSome o (λ seat. IsOfTable table.now seat)) }
    ensures known { IfOk result (λ o. IfSome o (λ seat. KnowsTo (net_of table.now.plan).waves seat)) }
{
    let mut desk = Desk::open(table, owner, crew);
    let gate = WaveGate {
        gate,
        alone: desk.turns_alone(),
    };
    let desk = work_desk(rt, alloc, table, desk, crew.count, &gate)?;
    Ok(desk.into_seat())
}
