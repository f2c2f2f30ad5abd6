//! Turning all passes.

ghost use Rattle.std.specs.Prelude.{◌≡◌, ◌+◌, ◌<◌, ◌≤◌, length, true};
ghost use denote.Param.Send.{IsSync, IsSend};
ghost use Rattle.drt_pool.specs.Turns.{AtPlace, EachPlace};

use crate::gate::Gate;
use crate::work::{Turn, Work};
use std::sync::Wait;
use std::thread;
use std::thread::{Threads, available_parallelism};

/// The most passes of one run.
const MOST: usize = 16;

// How passes are shared among workers: how often the first one was turned before, and how many each worker turns.
#[derive(Clone, Copy)]
struct Share {
    turned: u64,
    size: usize,
}

/// Turns each pass until it answers Stop. The caller turns the first pass alone for as many turns as the gate leaves it.
/// Where it stops within them the caller turns the others too, one after another; else the passes are shared among workers, and
/// the caller waits for them. There are no more workers than processors, or one for each pass where the gate leaves the caller no
/// turn alone. Where one worker would turn all passes, the caller does; where no thread can be had, it does that worker's work.
pub fn run_all<W: Work, G: Gate, R: Threads + Wait + Sync>(
    rt: &R,
    work: &W,
    passes: &mut [W::Pass],
    gate: &G,
)
    requires count { length passes.old ≤ 16 }
    requires fits { EachPlace (W.fits work.now) passes.old }
    ensures count { length passes.new ≡ length passes.old }
    ensures fits { EachPlace (W.fits work.now) passes.new }
    ensures ended { EachPlace (W.ended work.now) passes.new }
{
    if passes.is_empty() {
        return;
    }
    let alone = gate.alone();
    if begin(rt, work, &mut passes[0], gate, alone) {
        turn_others(rt, work, passes, gate);
    } else {
        turn_beside(rt, work, passes, gate, alone);
    }
}

// Turns the first pass so many times, or until it answers Stop, and says whether it did.
fn begin<W: Work, G: Gate, R: Wait>(
    rt: &R,
    work: &W,
    pass: &mut W::Pass,
    gate: &G,
    alone: u64,
) -> bool
    requires { W.fits work.now 0 pass.old }
    ensures fits { W.fits work.now 0 pass.new }
    ensures ended { result ≡ true → W.ended work.now 0 pass.new }
{
    for turn in 0..alone {
        gate.before(0, turn);
        if work.turn(rt, pass) == Turn::Stop {
            return true;
        }
    }
    false
}

// Turns the passes after the first, one after another.
fn turn_others<W: Work, G: Gate, R: Wait>(rt: &R, work: &W, passes: &mut [W::Pass], gate: &G)
    requires some { 0 < length passes.old }
    requires count { length passes.old ≤ 16 }
    requires fits { EachPlace (W.fits work.now) passes.old }
    requires first { AtPlace (W.ended work.now) 0 passes.old }
    ensures count { length passes.new ≡ length passes.old }
    ensures fits { EachPlace (W.fits work.now) passes.new }
    ensures ended { EachPlace (W.ended work.now) passes.new }
{
    for place in 1..passes.len() {
        turn_all(rt, work, &mut passes[place], gate, place, 0);
    }
}

// Turns all passes, each by a worker of its own where there may be as many. The first one was turned so many times.
fn turn_beside<W: Work, G: Gate, R: Threads + Wait + Sync>(
    rt: &R,
    work: &W,
    passes: &mut [W::Pass],
    gate: &G,
    turned: u64,
)
    requires some { 0 < length passes.old }
    requires count { length passes.old ≤ 16 }
    requires fits { EachPlace (W.fits work.now) passes.old }
    ensures count { length passes.new ≡ length passes.old }
    ensures fits { EachPlace (W.fits work.now) passes.new }
    ensures ended { EachPlace (W.ended work.now) passes.new }
{
    let size = passes.len().div_ceil(worker_limit(rt, turned));
    if passes.len() <= size {
        turn_group(rt, work, gate, turned, 0, passes);
        return;
    }
    turn_groups(rt, work, gate, Share { turned, size }, passes);
}

// Turns passes, each `share.size` of them by a worker of their own, from the last on. The caller begins all workers and then waits for
// them: a new thread may be put on the processor of who began it, and there it waits for as long as that one works.
#[cycle(groups)]
fn turn_groups<W: Work, G: Gate, R: Threads + Wait + Sync>(
    rt: &R,
    work: &W,
    gate: &G,
    share: Share,
    passes: &mut [W::Pass],
)
    requires size { 0 < share.size }
    requires count { length passes.old ≤ 16 }
    requires fits { EachPlace (W.fits work.now) passes.old }
    ensures count { length passes.new ≡ length passes.old }
    ensures fits { EachPlace (W.fits work.now) passes.new }
    ensures ended { EachPlace (W.ended work.now) passes.new }
{
    if !passes.is_empty() {
        let (first, last) = passes.split_at_mut(passes.len().saturating_sub(share.size));
        turn_both(rt, work, gate, share, first, last);
    }
}

// Turns the last passes in a new thread, or last where none can be had, and meanwhile those before them.
#[cycle(groups)]
fn turn_both<W: Work, G: Gate, R: Threads + Wait + Sync>(
    rt: &R,
    work: &W,
    gate: &G,
    share: Share,
    first: &mut [W::Pass],
    last: &mut [W::Pass],
)
    requires size { 0 < share.size }
    requires count { length first.old + length last.old ≤ 16 }
    requires first_fits { EachPlace (W.fits work.now) first.old }
    requires last_fits { EachPlace (λ i pass. W.fits work.now (length first.old + i) pass) last.old }
    ensures first_count { length first.new ≡ length first.old }
    ensures first_fits { EachPlace (W.fits work.now) first.new }
    ensures first_ended { EachPlace (W.ended work.now) first.new }
    ensures last_count { length last.new ≡ length last.old }
    ensures last_fits { EachPlace (λ i pass. W.fits work.now (length first.old + i) pass) last.new }
    ensures last_ended { EachPlace (λ i pass. W.ended work.now (length first.old + i) pass) last.new }
{
    let from = first.len();
    let mut here = ||
        requires { IsSync R.row × IsSync W.row × IsSync G.row × IsSend W.Pass.row × (0 < share.size) × (length first.now ≤ 16)
            × EachPlace (W.fits work.now) first.now }
        ensures { (length first.exit.now ≡ length first.entry.now) × EachPlace (W.fits work.entry.now) first.exit.now
            × EachPlace (W.ended work.entry.now) first.exit.now }
    { turn_groups(rt, work, gate, share, first) };
    let mut beside = ||
        requires { IsSync R.row × IsSync W.row × IsSync G.row × IsSend W.Pass.row × (from + length last.now ≤ 16)
            × EachPlace (λ i pass. W.fits work.now (from + i) pass) last.now }
        ensures { (length last.exit.now ≡ length last.entry.now) × EachPlace (λ i pass. W.fits work.entry.now (from + i) pass) last.exit.now
            × EachPlace (λ i pass. W.ended work.entry.now (from + i) pass) last.exit.now }
    { turn_group(rt, work, gate, share.turned, from, last) };
    thread::join_mut(rt, &mut beside, &mut here);
}

// Turns passes that begin at place `from`, one after another.
fn turn_group<W: Work, G: Gate, R: Wait>(
    rt: &R,
    work: &W,
    gate: &G,
    turned: u64,
    from: usize,
    passes: &mut [W::Pass],
)
    requires places { from + length passes.old ≤ 16 }
    requires fits { EachPlace (λ i pass. W.fits work.now (from + i) pass) passes.old }
    ensures count { length passes.new ≡ length passes.old }
    ensures fits { EachPlace (λ i pass. W.fits work.now (from + i) pass) passes.new }
    ensures ended { EachPlace (λ i pass. W.ended work.now (from + i) pass) passes.new }
{
    for i in 0..passes.len() {
        let place = from + i;
        let turns = if place == 0 { turned } else { 0 };
        turn_all(rt, work, &mut passes[i], gate, place, turns);
    }
}

// How many workers may be begun: as many as there are processors, or one for each pass where the gate may wait for another
// worker.
fn worker_limit<R: Threads>(rt: &R, alone: u64) -> usize
    ensures { 0 < result }
{
    if alone == 0 {
        return MOST;
    }
    match available_parallelism(rt) {
        Ok(processors) => processors.get(),
        Err(_) => 1,
    }
}

// Turns the pass of a place until it answers Stop. The first of these turns has the number `from`.
fn turn_all<W: Work, G: Gate, R: Wait>(
    rt: &R,
    work: &W,
    pass: &mut W::Pass,
    gate: &G,
    place: usize,
    from: u64,
)
    requires place { place < 16 }
    requires fits { W.fits work.now place pass.old }
    ensures fits { W.fits work.now place pass.new }
    ensures ended { W.ended work.now place pass.new }
{
    let mut turn = from;
    for _ in rt.forever() {
        gate.before(place as u32, turn);
        if work.turn(rt, pass) == Turn::Stop {
            return;
        }
        turn = turn.saturating_add(1);
    }
    unreachable!()
}
