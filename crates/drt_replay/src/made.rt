//! What a board starts with.
ghost use Rattle.std.specs.Prelude.{◌≡◌, ℕ, ◌+◌, ◌<◌, ◌≤◌, IfOk, length};
ghost use Rattle.drt_replay.specs.Events.{AreWaiting, Ascend};

use crate::jobs::Jobs;
use crate::stretch::Stretch;
use drt_model::Memory;
use std::alloc::Global;

/// Room for the finish of each of so many jobs.
pub fn no_finishes(alloc: Global, count: usize) -> Result<Vec<u64>, Memory>
    ensures { IfOk result (λ finishes. length finishes.items ≡ count) }
{
    let mut finishes = Vec::new(alloc);
    for _job in 0..count {
        finishes.push(0)?;
    }
    Ok(finishes)
}

/// Stretches in which each job waits for its release. Legal releases have at most one stretch a task.
pub fn all_waiting(alloc: Global, jobs: &Jobs) -> Result<Vec<Stretch>, Memory>
    ensures { IfOk result (λ waiting. AreWaiting jobs.now (length jobs.now) waiting.items) }
{
    let count = jobs.count();
    let mut waiting = Vec::new(alloc);
    let mut next = 0;
    while next < count {
        let end = stretch_end(jobs, next);
        waiting.push(Stretch { next, end })?;
        next = end;
    }
    Ok(waiting)
}

// Where the releases from a place on stop to ascend.
fn stretch_end(jobs: &Jobs, start: usize) -> usize
    requires { start < length jobs.now }
    ensures some { start < result }
    ensures within { result ≤ length jobs.now }
    ensures ascend { Ascend jobs.now start result }
{
    let count = jobs.count();
    for end in start + 1..count {
        if jobs.time(end) < jobs.time(end - 1) {
            return end;
        }
    }
    count
}
