//! The tick machine as a plain program: slow, and the reference that faster replays are tested against.
ghost use Rattle.std.specs.Prelude.{◌≡◌, ◌<◌, ◌^◌, [], ◌∷◌, IfOk, length};
ghost use Rattle.std.specs.Option.{ForSome};
ghost use Rattle.drt_model.specs.Trace.{trace, best, better, goes_before, is_before, is_pending, pending, rank, ticks_of, is_pick_of};

use crate::jobs::{Job, Policy};
use crate::row::Row;
use std::alloc::{AllocError, Global};

/// The picks of the first `ticks` ticks: at each place the place of the job that runs, or `None` where
/// the processor is idle. Each tick looks at all jobs and all earlier picks.
pub fn plain_trace(
    alloc: Global,
    policy: Policy,
    jobs: &[Job],
    ticks: u32,
) -> Result<Row<Option<u32>>, AllocError>
    requires { length jobs.now < 2 ^ 32 }
    ensures { IfOk result (λ picks. picks ≡ trace policy jobs.now ticks) }
{
    let mut picks = Vec::new(alloc);
    for _tick in 0..ticks {
        let next = best_pending(policy, jobs, picks.as_slice());
        picks.push(next)?;
    }
    Ok(Row::from_vec(picks))
}

// The best of the jobs that are pending after these picks.
fn best_pending(policy: Policy, jobs: &[Job], picks: &[Option<u32>]) -> Option<u32>
    requires { length jobs.now < 2 ^ 32 }
    ensures { result ≡ best policy jobs.now (pending jobs.now picks.now) }
{
    let mut found = None;
    for j in (0..jobs.len() as u32).rev() {
        if is_pending(jobs, picks, j) {
            found = Some(better(policy, jobs, j, found));
        }
    }
    found
}

// Whether job j is released by now and has had fewer ticks than its need.
#[tactic(auto, unfolding(crate::specs::Trace::is_pending))]
fn is_pending(jobs: &[Job], picks: &[Option<u32>], j: u32) -> bool
    requires { j < length jobs.now }
    ensures { result ≡ is_pending jobs.now picks.now j }
{
    let job = jobs[j as usize];
    let released = job.time <= picks.len() as u64;
    let lacks = (ticks_of(j, picks) as u64) < job.need;
    released && lacks
}

// How many of the picks are of job j.
fn ticks_of(j: u32, picks: &[Option<u32>]) -> usize
    ensures { result ≡ ticks_of j picks.now }
{
    picks.iter().filter(|pick| is_pick_of(j, **pick)).count()
}

fn is_pick_of(j: u32, pick: Option<u32>) -> bool
    ensures { result ≡ is_pick_of j pick }
{
    match pick {
        Some(k) => k == j,
        None => false,
    }
}

// Job j, unless the other is there and goes before it.
#[tactic(auto, unfolding(crate::specs::Trace::better))]
fn better(policy: Policy, jobs: &[Job], j: u32, other: Option<u32>) -> u32
    requires here { j < length jobs.now }
    requires other { ForSome other (λ k. k < length jobs.now) }
    ensures value { result ≡ better policy jobs.now j other }
    ensures in_range { result < length jobs.now }
{
    match other {
        Some(k) => {
            if goes_before(policy, jobs, k, j) {
                k
            } else {
                j
            }
        }
        None => j,
    }
}

/// Whether the job at place `j` goes before that at place `k` under the policy.
#[tactic(auto, using(std::proofs::lemmas::Bool::Decides::nat_tests), unfolding(crate::specs::Trace::is_before, crate::specs::Trace::goes_before))]
pub fn goes_before(policy: Policy, jobs: &[Job], j: u32, k: u32) -> bool
    requires first { j < length jobs.now }
    requires second { k < length jobs.now }
    ensures { result ≡ goes_before policy jobs.now j k }
{
    let a = jobs[j as usize];
    let b = jobs[k as usize];
    match policy {
        Policy::Edf => a.deadline < b.deadline || a.deadline == b.deadline && comes_first(a, b),
        Policy::Fixed => a.priority < b.priority || a.priority == b.priority && a.time < b.time,
    }
}

// Whether the first job is of a task of lower number, or of the same task and earlier.
#[tactic(auto, using(std::proofs::lemmas::Bool::Decides::nat_tests), unfolding(crate::specs::Trace::is_before))]
fn comes_first(a: Job, b: Job) -> bool
    ensures { result ≡ is_before (a.task ∷ a.time ∷ []) (b.task ∷ b.time ∷ []) }
{
    a.task < b.task || a.task == b.task && a.time < b.time
}
