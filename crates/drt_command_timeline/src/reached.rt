//! Whether a response is reached.
ghost use Rattle.std.specs.Prelude.{◌≡◌, ◌^◌, ◌<◌, ◌≤◌, ◌↔◌, ◌&&◌, ◌==◌, ℕ, All, IfOk, IsTrue, MatchOption, Some, None, length};
ghost use Rattle.std.specs.List.{find};
ghost use Rattle.drt_model.specs.Legal.{IsLegal};
ghost use Rattle.drt_model.specs.Schedulable.{jobs_of};
ghost use Rattle.drt_model.specs.Trace.{IsFinish};
ghost use Rattle.drt_model.specs.declared.jobs.Policy.TheVariants.{Fixed};
ghost use Rattle.drt_responses.specs.Ranges.{IsInRangeResponse};
ghost use Rattle.drt_command_timeline.specs.Reached.{IsReachedResponse, IsStart};
ghost use Rattle.drt_command_timeline.specs.Response.{response_of};

use drt_model::{Memory, Policy, Release, TaskSet, legal};
use drt_replay::Board;
use drt_responses::Response;
use std::alloc::Global;

// The greatest response time that is looked at, in ticks: 2^62.
const MOST_TICKS: u64 = 4_611_686_018_427_387_904;

// The first response of this vertex of this task.
pub(crate) fn response_of(responses: &[Response], task: usize, vertex: usize) -> Option<&Response>
    ensures { MatchOption result (response_of task vertex responses.now ≡ None) (λ r. response_of task vertex responses.now ≡ Some r.now) }
{
    for response in responses {
        if response.task as usize == task && response.vertex as usize == vertex {
            return Some(response);
        }
    }
    None
}

// Whether the response is reached by its releases.
pub(crate) fn is_reached(alloc: Global, set: &TaskSet, response: &Response) -> Result<bool, Memory>
    requires { IsInRangeResponse response.now }
    ensures { IfOk result (λ reached. IsTrue reached ↔ IsReachedResponse set.now.tasks response.now) }
{
    let releases = response.releases.as_slice();
    if response.ticks > MOST_TICKS || !legal(set, releases) {
        return Ok(false);
    }
    if !starts(releases, response.task, response.vertex) {
        return Ok(false);
    }
    finishes(alloc, set, releases, response.task, response.ticks)
}

// Whether the first release of the task is of this vertex, at time 0.
fn starts(releases: &[Release], task: u32, vertex: u32) -> bool
    ensures { IsTrue result ↔ ((j : ℕ) × IsStart task vertex releases.now j) }
{
    for release in releases {
        if release.task == task {
            return release.vertex == vertex && release.time == 0;
        }
    }
    false
}

// Whether the job of the first release of the task finishes after exactly these ticks.
fn finishes(
    alloc: Global,
    set: &TaskSet,
    releases: &[Release],
    task: u32,
    ticks: u64,
) -> Result<bool, Memory>
    requires legal { IsLegal set.now.tasks releases.now }
    requires times { All (λ r. r.time ≤ 10 ^ 18) releases.now }
    requires few { length releases.now < 2 ^ 32 }
    requires start { (v j : ℕ) × IsStart task v releases.now j }
    ensures { IfOk result (λ done. (v j : ℕ) → IsStart task v releases.now j → IsTrue done ↔ IsFinish Fixed (jobs_of set.now.tasks releases.now) j ticks) }
{
    let mut board = Board::start(alloc, set, Policy::Fixed, releases)?;
    board.run_until(ticks);
    match board.finish_time(task, 0) {
        Some(time) => Ok(time == ticks),
        None => Ok(false),
    }
}
