//! The evidence of a no.
ghost use Rattle.std.specs.Prelude.{◌<◌, ◌≤◌, length, IfOk};
ghost use Rattle.drt_busy.specs.Choice.{AreDueBy, AreWalks, efforts};
ghost use Rattle.drt_horizon.specs.Given.{AreGiven};
ghost use Rattle.drt_horizon.specs.CycleTurns.{cycle_turns_of, turned};
ghost use Rattle.drt_claims.specs.Claims.{graphs_of};
ghost use Rattle.drt_claims.specs.Ranges.{IsEvidenceInRange};
ghost use Rattle.drt_releases.specs.Walks.{walk_at};
ghost use Rattle.drt_edf.specs.Answers.{IsEdfVerdict};
ghost use Rattle.drt_model.specs.Numbers.{most_ticks};

use crate::turns::turns;
use drt_accepted::Accepted;
use drt_busy::{demand_misses, no_assignment_meets};
use drt_claims::Evidence;
use drt_model::{Memory, Policy, Row};
use drt_rates::RatioClaim;
use drt_releases::{all_releases, releases_are_in_range};
use drt_replay::Board;
use std::alloc::Global;

/// The no of walks, one for each task, that are due by `t` and have more work than `t`: their releases as early as the
/// separations allow, and the first job of theirs that misses. `t` is in ticks.
pub(crate) fn refusal(
    alloc: Global,
    set: &Accepted<'_>,
    walks: &[Row<u32>],
    t: u64,
) -> Result<Evidence, Memory>
    requires walks { AreWalks set.now.tasks (walk_at walks.now) }
    requires due { AreDueBy set.now.tasks (walk_at walks.now) t }
    requires excess { t < efforts set.now.tasks (walk_at walks.now) (length set.now.tasks) }
    requires time { t ≤ most_ticks }
    ensures done { IfOk result (λ e. IsEdfVerdict set.now.tasks e) }
    ensures range { IfOk result (λ e. IsEvidenceInRange e) }
{
    demand_misses();
    no_assignment_meets();
    releases_are_in_range();
    set.keep_limits();
    let graphs = set.graphs();
    graphs.keep_limits();
    let releases = all_releases(alloc, graphs, walks, t)?;
    // So many releases would take more than 100 GB.
    if releases.len() > 4294967295 {
        return Err(Memory);
    }
    let mut board = Board::start(alloc, set.set(), Policy::Edf, releases.as_slice())?;
    board.run_until(t);
    let missed = board.first_miss();
    drop(board);
    match missed {
        Some(miss) => Ok(Evidence::EdfNo {
            releases: Row::from_vec(releases),
            miss,
        }),
        None => unreachable!(),
    }
}

/// The no of an overload at the step time `t`, in ticks.
pub(crate) fn overload_refusal(
    alloc: Global,
    set: &Accepted<'_>,
    proofs: &[RatioClaim],
    t: u64,
) -> Result<Evidence, Memory>
    requires given { AreGiven (graphs_of set.now.tasks) proofs.now }
    requires excess { t < turned (cycle_turns_of (graphs_of set.now.tasks) proofs.now) t }
    requires time { t ≤ most_ticks }
    ensures done { IfOk result (λ e. IsEdfVerdict set.now.tasks e) }
    ensures range { IfOk result (λ e. IsEvidenceInRange e) }
{
    let walks = turns(alloc, set.graphs(), proofs, t)?;
    refusal(alloc, set, walks.as_slice(), t)
}
