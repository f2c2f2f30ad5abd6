//! Which jobs are late, and which of them counts as the first.
ghost use Rattle.std.specs.Prelude.{◌≡◌, ◌↔◌, ℕ, ◌<◌, ◌≤◌, IsTrue, MatchOption, length};
ghost use Rattle.std.specs.Option.{ForSome};
ghost use Rattle.drt_model.specs.Misses.{index_of, IsJob};
ghost use Rattle.drt_replay.specs.Board.{IsLateBy, IsEarlier};

use crate::jobs::Jobs;
use drt_model::Job;

/// Whether the job is late.
pub fn is_late(job: Job, finish: Option<u64>, ticks: u64) -> bool
    ensures { IsTrue result ↔ IsLateBy job finish ticks }
{
    match finish {
        Some(n) => job.deadline <= ticks && job.deadline < n,
        None => job.deadline <= ticks,
    }
}

/// Of two late jobs, the one that counts as the earlier; j stands behind the other.
pub fn earlier(jobs: &Jobs, first: Option<usize>, j: usize) -> usize
    requires here { j < length jobs.now }
    requires before { ForSome first (λ k. k < j) }
    ensures in_range { result ≤ j }
    ensures cases { MatchOption first (result ≡ j) (λ k. IsEarlier jobs.now k j result) }
{
    match first {
        Some(k) => {
            let (at_j, at_k) = (jobs.job(j), jobs.job(k));
            if at_j.deadline < at_k.deadline
                || at_j.deadline == at_k.deadline && at_j.task < at_k.task
            {
                j
            } else {
                k
            }
        }
        None => j,
    }
}

/// The place of job j among the jobs of its task.
pub fn index_of(jobs: &Jobs, j: usize) -> usize
    requires { j < length jobs.now }
    ensures value { result ≡ index_of jobs.now j }
    ensures at_most { result ≤ j }
{
    let task = jobs.task(j);
    let mut count = 0;
    for k in 0..j {
        if jobs.task(k) == task {
            count += 1;
        }
    }
    count
}

/// The place of the job that the task and the index name.
pub fn place_of(jobs: &Jobs, task: u32, index: u32) -> usize
    requires { (j : ℕ) × IsJob jobs.now task index j }
    ensures in_range { result < length jobs.now }
    ensures only { (j : ℕ) → IsJob jobs.now task index j → j ≡ result }
{
    let mut seen = 0;
    for j in 0..jobs.count() {
        if jobs.task(j) == task {
            if seen == index as usize {
                return j;
            }
            seen += 1;
        }
    }
    unreachable!();
}
