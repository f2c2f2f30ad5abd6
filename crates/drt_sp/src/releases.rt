//! The releases of the walks that a tuple of leaves names.
ghost use Rattle.std.specs.Prelude.{◌≡◌, ◌≤◌, length, All, IfOk};
ghost use Rattle.drt_model.specs.Numbers.{most_time, most_number};
ghost use Rattle.drt_sp.specs.ChoiceLaws.{leaf_releases};
ghost use Rattle.drt_claims.specs.Ranges.{IsInRangeRelease};
ghost use Rattle.drt_sp.specs.Answers.{IsTupleFor};

use crate::walks::{VertexTuple, job_walks};
use drt_accepted::Accepted;
use drt_model::{Memory, Release, Row};
use drt_releases::{LAST_DEADLINE, all_releases, releases_are_in_range};
use drt_tree::Forest;
use std::alloc::Global;

/// The releases of the walks that a tuple of leaves names, from time 0 and with offsets below `end` ticks, and one of the vertex at
/// 0, in order of tasks. Each needs its whole execution time.
pub fn leaf_releases(
    alloc: Global,
    set: &Accepted<'_>,
    forest: &Forest,
    order: &[u32],
    shown: &VertexTuple,
    end: u32,
) -> Result<Row<Release>, Memory>
    requires tuple { IsTupleFor set.now order.now forest.now shown.now.task shown.now.vertex shown.now.tuple }
    requires end { end ≤ most_time }
    ensures releases { IfOk result (λ releases. releases ≡ leaf_releases set.now.tasks forest.now order.now shown.now.tuple shown.now.task shown.now.vertex end) }
    ensures range { IfOk result (λ releases. All IsInRangeRelease releases) }
    ensures counted { IfOk result (λ releases. length releases ≤ most_number) }
{
    releases_are_in_range();
    forest.show_sound();
    let graphs = set.graphs();
    graphs.keep_limits();
    let walks = job_walks(alloc, set, forest, order, shown, end)?;
    let releases = all_releases(alloc, graphs, walks.as_slice(), LAST_DEADLINE)?;
    // So many releases would take more than 100 GB.
    if releases.len() > 4294967295 {
        return Err(Memory);
    }
    Ok(Row::from_vec(releases))
}
