//! From event to event: many ticks at once.
ghost use Rattle.std.specs.Prelude.{◌≡◌, ℕ, ◌+◌, ◌-◌, ◌^◌, ◌<◌, ◌≤◌, ◌==◌, if◌then◌else◌, [], All, MatchOption, length, slice_index, slice_set};
ghost use Rattle.std.specs.Bool.{MatchBool};
ghost use Rattle.drt_model.specs.Trace.{job_at, pick};
ghost use Rattle.drt_replay.specs.Board.{IsLeft, AreFinishes};
ghost use Rattle.drt_replay.specs.Events.{AreLater, IsCleared, IsFirstLeft, IsStretchFrom, IsLater, IsMoved, IsQueued, IsReadyKey, IsReleased, IsStretch, count_of, ready_key};

use crate::jobs::Jobs;
use crate::queue::{Key, Queue};
use crate::stretch::Stretch;
use drt_model::Policy;

/// How far the jobs have come: what is left of each need, the finishes of the jobs with nothing left, the stretches of jobs that wait
/// for their release, and the released ones in order of the policy.
#[derive(Drop)]
pub struct Progress {
    pub left: Vec<u64>,
    pub finishes: Vec<u64>,
    pub waiting: Vec<Stretch>,
    pub ready: Queue,
}

/// A run of the processor on one job, or its rest: until so many ticks have run.
#[derive(Debug, Clone, Copy, PartialEq, Eq)]
pub struct Run {
    pub until: u64,
    pub job: Option<usize>,
}

/// Runs ticks up to the next event, at most until `t` have run: the place of the job that had them, and none where the processor is idle.
pub fn advance(policy: Policy, jobs: &Jobs, progress: &mut Progress, ticks: u64, t: u64) -> Run
    requires ahead { ticks < t }
    requires needs { (j : ℕ) → j < length jobs.now → 1 ≤ (job_at jobs.now j).need }
    requires left { IsLeft policy jobs.now ticks progress.old.left.items }
    requires finishes { AreFinishes policy jobs.now ticks progress.old.left.items progress.old.finishes.items }
    requires queued { IsQueued policy jobs.now ticks progress.old.left.items progress.old.waiting.items progress.old.ready }
    ensures forward { ticks < result.until }
    ensures in_time { result.until ≤ t }
    ensures ran { (i : ℕ) → ticks ≤ i → i < result.until → pick policy jobs.now i ≡ result.job }
    ensures left { IsLeft policy jobs.now result.until progress.new.left.items }
    ensures finishes { AreFinishes policy jobs.now result.until progress.new.left.items progress.new.finishes.items }
    ensures queued { IsQueued policy jobs.now result.until progress.new.left.items progress.new.waiting.items progress.new.ready }
{
    release(
        policy,
        jobs,
        &mut progress.waiting,
        &mut progress.ready,
        ticks,
    );
    let next = next_release(jobs, &progress.waiting, ticks, t);
    match first_ready(&mut progress.ready, &progress.left) {
        Some(j) => {
            let count = run_job(&mut progress.left, &mut progress.finishes, j, ticks, next);
            Run {
                until: ticks + count,
                job: Some(j),
            }
        }
        None => Run {
            until: next,
            job: None,
        },
    }
}

// Moves the jobs that are released by `now` from the waiting to the ready.
fn release(policy: Policy, jobs: &Jobs, waiting: &mut [Stretch], ready: &mut Queue, now: u64)
    requires waits { All (IsStretch jobs.now) waiting.old }
    requires readies { All (λ r. IsReadyKey policy jobs.now now r.0) ready.old.items }
    requires room { count_of waiting.old + length ready.old.items ≤ ready.old.room }
    ensures moved { IsMoved policy jobs.now now waiting.old ready.old waiting.new ready.new }
    ensures later { AreLater jobs.now waiting.new now }
{
    for i in 0..waiting.len() {
        waiting[i] = release_from(policy, jobs, waiting[i], ready, now);
    }
}

// Moves the jobs of a stretch that are released by `now` to the ready, and answers with what waits on.
fn release_from(
    policy: Policy,
    jobs: &Jobs,
    stretch: Stretch,
    ready: &mut Queue,
    now: u64,
) -> Stretch
    requires waits { IsStretch jobs.now stretch }
    requires readies { All (λ r. IsReadyKey policy jobs.now now r.0) ready.old.items }
    requires room { stretch.end - stretch.next + length ready.old.items ≤ ready.old.room }
    ensures moved { IsReleased policy jobs.now now stretch ready.old result ready.new }
    ensures later { IsLater jobs.now now result }
{
    let end = stretch.end;
    let mut next = stretch.next;
    while next < end && jobs.time(next) <= now {
        ready.push(ready_key(policy, jobs, next));
        next += 1;
    }
    Stretch { next, end }
}

/// The key of a released job: its rank under the policy.
pub fn ready_key(policy: Policy, jobs: &Jobs, j: usize) -> Key
    requires { j < length jobs.now }
    ensures { result ≡ ready_key policy jobs.now j }
{
    let job = jobs.job(j);
    match policy {
        Policy::Edf => Key {
            first: job.deadline,
            second: u64::from(job.task),
            third: job.time,
            place: j,
        },
        Policy::Fixed => Key {
            first: u64::from(job.priority),
            second: job.time,
            third: 0,
            place: j,
        },
    }
}

// The first release that waits, or t where that comes first; no job that waits is released by `now`.
fn next_release(jobs: &Jobs, waiting: &[Stretch], now: u64, t: u64) -> u64
    requires ahead { now < t }
    requires waits { All (IsStretch jobs.now) waiting.now }
    requires later { AreLater jobs.now waiting.now now }
    ensures later { now < result }
    ensures in_time { result ≤ t }
    ensures calm { All (IsStretchFrom jobs.now result) waiting.now }
{
    let mut next = t;
    for stretch in waiting {
        if stretch.next < stretch.end {
            next = next.min(jobs.time(stretch.next));
        }
    }
    next
}

// The place of the first ready job with something left; done jobs before it leave the queue.
fn first_ready(ready: &mut Queue, left: &[u64]) -> Option<usize>
    requires { All (λ r. r.0.place < length left.now) ready.old.items }
    ensures cleared { IsCleared left.now ready.old ready.new }
    ensures found { MatchOption result (ready.new.items ≡ []) (IsFirstLeft left.now ready.new) }
{
    while let Some(entry) = ready.first() {
        let j = entry.0.place;
        if left[j] > 0 {
            return Some(j);
        }
        let _ = ready.pop();
    }
    None
}

// Runs job j until it is done or `next` comes, and says for how many ticks.
fn run_job(left: &mut [u64], finishes: &mut [u64], j: usize, now: u64, next: u64) -> u64
    requires in_left { j < length left.old }
    requires in_finishes { j < length finishes.old }
    requires some_left { 0 < slice_index left.old j }
    requires ahead { now < next }
    ensures some { 0 < result }
    ensures in_time { now + result ≤ next }
    ensures at_most { result ≤ slice_index left.old j }
    ensures left { left.new ≡ slice_set left.old j (slice_index left.old j - result) }
    ensures finishes { finishes.new ≡ (if slice_index left.old j == result then slice_set finishes.old j (now + result) else finishes.old) }
{
    let count = left[j].min(next - now);
    left[j] -= count;
    if left[j] == 0 {
        finishes[j] = now + count;
    }
    count
}
