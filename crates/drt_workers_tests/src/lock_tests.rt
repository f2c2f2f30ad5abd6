//! Seats that step one after another, and in threads of their own.

ghost use Rattle.std.specs.Prelude.{◌≡◌, ◌+◌, ◌<◌, ◌≤◌, All, IfOk, length};
ghost use Rattle.drt_lock.specs.Seats.{Rests};

use crate::tally::{Tally, TallySeat, step};
use drt_lock::{Kept, Lock};
use std::alloc::Global;
use std::snapshot::Snapshot;
use std::sync::Wait;
use std::test::Fail;
use std::thread;
use std::thread::Threads;

const START: u64 = 7;

// How often each of two threads steps.
const STEPS: usize = 2_000;

// The lock round a machine without notes, and the seat that has every part.
fn begin(alloc: Global) -> Result<(Lock<Tally>, TallySeat), Fail>
    ensures name { IfOk result (λ r. r.1.table_id ≡ r.0.name) }
    ensures seat { IfOk result (λ r. Rests r.0.fixed 1024 0 r.1.me) }
{
    let tally = Tally {
        start: START,
        notes: Vec::new(alloc),
    };
    Ok(Lock::new(alloc, tally, Snapshot::of(&START))?)
}

// A worker's steps, by its own seat.
fn step_often<R: Wait>(rt: &R, lock: &Lock<Tally>, mut seat: TallySeat, number: u32) -> TallySeat
    requires name { seat.table_id ≡ lock.now.name }
    requires seat { (0 < seat.me.0.parts) × Rests lock.now.fixed seat.me.0.parts seat.me.0.count seat.me }
    ensures name { result.table_id ≡ lock.now.name }
    ensures seat { Rests lock.now.fixed seat.me.0.parts result.me.0.count result.me }
{
    for _ in 0..STEPS {
        step(rt, lock, &mut seat, number);
    }
    seat
}

// The steps of two workers, each in a thread of its own where one can be had.
fn step_both<R: Threads + Wait + Sync>(
    rt: &R,
    lock: &Lock<Tally>,
    first: TallySeat,
    second: TallySeat,
) -> (TallySeat, TallySeat)
    requires names { (first.table_id ≡ lock.now.name) × (second.table_id ≡ lock.now.name) }
    requires first { (0 < first.me.0.parts) × Rests lock.now.fixed first.me.0.parts first.me.0.count first.me }
    requires second { (0 < second.me.0.parts) × Rests lock.now.fixed second.me.0.parts second.me.0.count second.me }
    ensures names { (result.0.table_id ≡ lock.now.name) × (result.1.table_id ≡ lock.now.name) }
    ensures first { Rests lock.now.fixed first.me.0.parts result.0.me.0.count result.0.me }
    ensures second { Rests lock.now.fixed second.me.0.parts result.1.me.0.count result.1.me }
{
    thread::join(
        rt,
        move || -> TallySeat
            requires { (first.table_id ≡ lock.now.name) × (0 < first.me.0.parts) × Rests lock.now.fixed first.me.0.parts first.me.0.count first.me }
            ensures { (result.table_id ≡ lock.entry.now.name) × Rests lock.entry.now.fixed first.me.0.parts result.me.0.count result.me }
        { step_often(rt, lock, first, 1) },
        move || -> TallySeat
            requires { (second.table_id ≡ lock.now.name) × (0 < second.me.0.parts) × Rests lock.now.fixed second.me.0.parts second.me.0.count second.me }
            ensures { (result.table_id ≡ lock.entry.now.name) × Rests lock.entry.now.fixed second.me.0.parts result.me.0.count result.me }
        { step_often(rt, lock, second, 2) },
    )
}

// How often the machine noted a number.
fn times(tally: &Tally, number: u32) -> usize {
    tally
        .notes
        .as_slice()
        .iter()
        .filter(|noted| **noted == number)
        .count()
}

// What the machine noted of two workers in threads.
fn note_both<R: Threads + Wait + Sync>(rt: &R, alloc: Global) -> Result<Tally, Fail> {
    let (lock, mut first) = begin(alloc)?;
    let second = lock.split(&mut first);
    let (mut first, second) = step_both(rt, &lock, first, second);
    lock.join(&mut first, second);
    Ok(lock.close(first))
}

// Whether it noted so many steps of each, and no others.
fn has_noted_both<R: Threads + Wait + Sync>(rt: &R, alloc: Global) -> Result<bool, Fail> {
    let tally = note_both(rt, alloc)?;
    let are_all = tally.notes.len() == 2 * STEPS;
    Ok(are_all && times(&tally, 1) == STEPS && times(&tally, 2) == STEPS)
}

#[test]
fn two_threads_step_as_often_as_each_of_them_does(rt: HostRuntime) -> Result<(), Fail> {
    assert!(rt; has_noted_both(&rt, rt.alloc())?);
    Ok(())
}

#[test]
fn what_is_kept_is_given_back(rt: HostRuntime) -> Result<(), Fail> {
    let kept = Kept::new(rt.alloc(), START)?;
    assert!(rt; kept.into_inner() == START);
    Ok(())
}

// What the machine noted of two seats in turn, and how many notes there were before each step.
fn note_in_turn<R: Wait>(rt: &R, alloc: Global) -> Result<(Tally, [u64; 4]), Fail> {
    let (lock, mut first) = begin(alloc)?;
    let mut second = lock.split(&mut first);
    let before = [
        step(rt, &lock, &mut first, 1),
        step(rt, &lock, &mut second, 2),
        step(rt, &lock, &mut second, 2),
        step(rt, &lock, &mut first, 1),
    ];
    lock.join(&mut first, second);
    Ok((lock.close(first), before))
}

// Whether each of two seats' steps was noted, in order.
fn has_noted_in_turn<R: Wait>(rt: &R, alloc: Global) -> Result<bool, Fail> {
    let (tally, before) = note_in_turn(rt, alloc)?;
    let are_noted = tally.notes.as_slice() == [1, 2, 2, 1].as_slice();
    Ok(are_noted && before == [0, 1, 2, 3] && tally.start == START)
}

#[test]
fn two_seats_step_in_turn(rt: HostRuntime) -> Result<(), Fail> {
    assert!(rt; has_noted_in_turn(&rt, rt.alloc())?);
    Ok(())
}

// Whether a seat that tries gets the lock once another one has left it. An error where that one doesn't get the free lock, or the seat gets the
// lock while that one has it.
fn enters_after_another(alloc: Global) -> Result<bool, Fail> {
    let (lock, mut first) = begin(alloc)?;
    let mut second = lock.split(&mut first);
    let Some(_noted) = lock.try_enter(&mut first) else {
        return Err("the lock is free".into());
    };
    match lock.try_enter(&mut second) {
        Some(_noted) => Err("the lock is another's".into()),
        None => {
            lock.leave(&mut first);
            Ok(lock.try_enter(&mut second).is_some())
        }
    }
}

#[test]
fn a_seat_enters_a_lock_only_where_it_is_free(rt: HostRuntime) -> Result<(), Fail> {
    assert!(rt; enters_after_another(rt.alloc())?);
    Ok(())
}
