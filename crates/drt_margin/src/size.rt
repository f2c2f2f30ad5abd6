//! How large an analysis was.
use drt_claims::{Evidence, TreeClaim};

// The least number of entries of evidence that is large.
const LARGE: usize = 512;

/// Whether the analysis that gave this evidence was so large that others like it are worth workers of their own.
pub(crate) fn is_large(evidence: &Evidence) -> bool {
    entry_count(evidence) >= LARGE
}

// How many entries of fronts, vertices of walks or states the evidence has. One that isn't a yes counts for nothing.
fn entry_count(evidence: &Evidence) -> usize {
    match evidence {
        Evidence::EdfYes { fronts, .. } => fronts.as_slice().iter().fold(
            0,
            |sum: usize, front| sum.saturating_add(front.as_slice().len()),
        ),
        Evidence::FixedYes { trees, .. } => trees
            .as_slice()
            .iter()
            .fold(0, |sum: usize, tree| sum.saturating_add(step_count(tree))),
        Evidence::FixedStates { searches, .. } => searches.as_slice().iter().fold(
            0,
            |sum: usize, search| sum.saturating_add(search.states.as_slice().len()),
        ),
        _ => 0,
    }
}

// How many vertices the walks of a tree have.
fn step_count(tree: &TreeClaim) -> usize {
    tree.walks.as_slice().iter().fold(
        0,
        |sum: usize, walk| sum.saturating_add(walk.as_slice().len()),
    )
}
