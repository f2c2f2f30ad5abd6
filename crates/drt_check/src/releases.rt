//! The rules of releases that are to miss.
ghost use Rattle.std.specs.Prelude.{◌≡◌, ℕ, ◌+◌, ◌≤◌, ◌↔◌, All, IfOk, IsTrue, MatchOption};
ghost use Rattle.drt_model.specs.Legal.{IsLegal};
ghost use Rattle.drt_model.specs.Misses.{IsLeastMiss};
ghost use Rattle.drt_model.specs.Schedulable.{deadline_of, jobs_of};
ghost use Rattle.drt_claims.specs.Ranges.{AreInRangeReleases, IsInRangeRelease};
ghost use Rattle.drt_check.specs.Named.{IsReleasePlace, NamesJob};
ghost use Rattle.drt_model.specs.Numbers.{most_ticks};

use drt_model::{Memory, Miss, Policy, Release, Task, TaskSet};
use drt_replay::Board;
use std::alloc::Global;

/// Whether the miss names a job of these legal releases with its deadline, that job misses, and no job that misses has an
/// earlier deadline.
pub fn is_least_miss(
    alloc: Global,
    set: &TaskSet,
    policy: Policy,
    releases: &[Release],
    miss: Miss,
) -> Result<bool, Memory>
    requires legal { IsLegal set.now.tasks releases.now }
    requires in_range { AreInRangeReleases releases.now miss }
    ensures { IfOk result (λ holds. IsTrue holds ↔ IsLeastMiss policy (jobs_of set.now.tasks releases.now) miss) }
{
    if !is_named(set.tasks(), releases, miss) {
        return Ok(false);
    }
    let mut board = Board::start(alloc, set, policy, releases)?;
    board.run_until(miss.deadline);
    Ok(is_least_now(&board, miss))
}

// Whether the miss is a least one. The board has run until its deadline.
fn is_least_now(board: &Board, miss: Miss) -> bool
    requires now { board.now.ticks ≡ miss.deadline }
    requires named { NamesJob board.now.jobs miss }
    ensures { IsTrue result ↔ IsLeastMiss board.now.policy board.now.jobs miss }
{
    match board.finish_time(miss.task, miss.index) {
        Some(_) => false,
        None => match board.first_miss() {
            Some(first) => first.deadline >= miss.deadline,
            None => false,
        },
    }
}

// Whether the miss names a job of the releases with its deadline.
fn is_named(tasks: &[Task], releases: &[Release], miss: Miss) -> bool
    requires { All IsInRangeRelease releases.now }
    ensures { IsTrue result ↔ NamesJob (jobs_of tasks.now releases.now) miss }
{
    match place_of(releases, miss.task, miss.index) {
        Some(j) => due(tasks, &releases[j]) == miss.deadline,
        None => false,
    }
}

// When the job of the release is due.
fn due(tasks: &[Task], release: &Release) -> u64
    requires { release.now.time ≤ most_ticks }
    ensures { result ≡ release.now.time + deadline_of tasks.now release.now }
{
    release.time + relative_deadline(tasks, release) as u64
}

// The relative deadline of the vertex that the release names, and 0 where there is no such vertex.
fn relative_deadline(tasks: &[Task], release: &Release) -> u32
    ensures { result ≡ deadline_of tasks.now release.now }
{
    let Some(task) = tasks.get(release.task as usize) else {
        return 0;
    };
    match task.vertices.as_slice().get(release.vertex as usize) {
        Some(vertex) => vertex.deadline,
        None => 0,
    }
}

// The place of the release of this task before which so many of its releases stand.
fn place_of(releases: &[Release], task: u32, index: u32) -> Option<usize>
    ensures { MatchOption result ((j : ℕ) → IsReleasePlace releases.now task index j → ⊥) (IsReleasePlace releases.now task index) }
{
    let mut seen: usize = 0;
    'places: for j in 0..releases.len() {
        if releases[j].task == task {
            if seen == index as usize {
                return Some(j);
            }
            seen += 1;
        }
    }
    None
}
