//! The evidence of a no.
ghost use Rattle.std.specs.Prelude.{◌≡◌, IfOk};
ghost use Rattle.drt_claims.specs.Ranges.{IsEvidenceInRange};
ghost use Rattle.drt_sp.specs.Answers.{IsFailedVertex, IsRefusalEvidence};

use crate::choices::leaves_miss;
use crate::progress::Given;
use crate::releases::leaf_releases;
use crate::walks::VertexTuple;
use drt_claims::Evidence;
use drt_model::{Memory, Miss};
use drt_tree::Forest;
use std::alloc::Global;

/// The no of a vertex that fails: the releases of the walks that its tuple of leaves names, and the miss of the vertex's job.
pub(crate) fn refusal(
    alloc: Global,
    given: &Given<'_>,
    forest: &Forest,
    failed: &VertexTuple,
) -> Result<Evidence, Memory>
    requires { IsFailedVertex given.now.set.now given.now.order.now forest.now failed.now.task failed.now.vertex failed.now.tuple }
    ensures verdict { IfOk result (IsRefusalEvidence given.now.set.now) }
    ensures range { IfOk result IsEvidenceInRange }
{
    leaves_miss();
    forest.show_sound();
    let graphs = given.set.graphs();
    graphs.keep_limits();
    let deadline = graphs.graph(failed.task).vertex(failed.vertex).deadline;
    let releases = leaf_releases(alloc, given.set, forest, given.order, failed, deadline)?;
    Ok(Evidence::FixedNo {
        releases,
        miss: Miss {
            task: failed.task,
            index: 0,
            deadline: u64::from(deadline),
        },
    })
}
