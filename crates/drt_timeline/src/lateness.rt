//! How late a job finishes that misses its deadline.
ghost use Rattle.std.specs.Prelude.{◌≡◌, ◌+◌, ◌^◌, ◌<◌, ◌≤◌, All, IfOk, length};
ghost use Rattle.drt_model.specs.Numbers.{most_time};
ghost use Rattle.drt_model.specs.Legal.{IsLegal};
ghost use Rattle.drt_model.specs.Schedulable.{jobs_of};
ghost use Rattle.drt_model.specs.Trace.{IsFinish, Misses, job_at};

use drt_model::{Memory, Policy, Release, TaskSet};
use drt_replay::Board;
use std::alloc::Global;

// All jobs have finished after so many ticks: none is released after 10^18, and fewer than 2^32 jobs need at most 10^6 each.
const ALL_FINISHED: u64 = 4_611_686_018_427_387_904;

/// How many ticks after its deadline a job finishes that misses it, where the releases run on. They are legal, at times of at most
/// 10^18 ticks.
pub fn lateness_of(
    alloc: Global,
    set: &TaskSet,
    policy: Policy,
    releases: &[Release],
    job: usize,
) -> Result<u64, Memory>
    requires legal { IsLegal set.now.tasks releases.now }
    requires times { All (λ r. r.time ≤ 10 ^ 18) releases.now }
    requires few { length releases.now < 2 ^ 32 }
    requires here { job < length releases.now }
    requires misses { Misses policy (jobs_of set.now.tasks releases.now) job }
    ensures { IfOk result (λ ticks. IsFinish policy (jobs_of set.now.tasks releases.now) job ((job_at (jobs_of set.now.tasks releases.now) job).deadline + ticks)) }
{
    needs_are_small(set, releases);
    let mut board = Board::start(alloc, set, policy, releases)?;
    board.run_until(ALL_FINISHED);
    let Some(finish) = board.finish_at(job) else {
        unreachable!();
    };
    Ok(finish - board.job(job).deadline)
}

// Each of legal releases needs at most 10^6 ticks, as its vertex does.
fn needs_are_small(set: &TaskSet, releases: &[Release])
    requires { IsLegal set.now.tasks releases.now }
    ensures { All (λ r. r.need ≤ most_time) releases.now }
{
    set.keep_limits();
}
