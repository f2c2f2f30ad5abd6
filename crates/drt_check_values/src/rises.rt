//! The releases of a tree's walks, at the places of the walks.
ghost use Rattle.std.specs.Prelude.{◌≡◌, ◌+◌, ◌*◌, ◌<◌, ◌≤◌, ◌++◌, All, IfOk, length, sum_by};
ghost use Rattle.std.specs.List.Sorted.{IsNonDecreasingBy, IsPermutation};
ghost use Rattle.drt_model.specs.Numbers.{most_time};
ghost use Rattle.drt_model.specs.Digraph.{vertex_count};
ghost use Rattle.drt_claims.specs.Ranges.{IsCounted, IsInRangeTree};
ghost use Rattle.drt_claims.specs.Trees.{HasShortWalks, IsShortWalk, IsTree};
ghost use Rattle.drt_check_values.specs.Leaves.{AreFirsts};
ghost use Rattle.drt_check_values.specs.Rises.{AreRises, rise_at, rises_along};

use drt_claims::TreeClaim;
use drt_graph::Graph;
use drt_model::{Memory, Row};
use std::alloc::Global;

/// A release of the walk at a place: past its offset, in ticks, the walk asks for this much more work.
#[derive(Debug, Drop, Clone, Copy, PartialEq, Eq)]
pub(crate) struct Rise {
    pub(crate) offset: u32,
    pub(crate) place: u32,
    pub(crate) work: u32,
}

/// The releases of all walks of a tree, walk by walk, each walk at its place.
pub(crate) fn rises_of(
    alloc: Global,
    graph: &Graph,
    tree: &TreeClaim,
    bound: u32,
    firsts: &[u32],
) -> Result<Vec<Rise>, Memory>
    requires bound { bound ≤ most_time }
    requires short { HasShortWalks bound graph.now tree.now }
    requires tree { IsTree tree.now }
    requires ranges { IsInRangeTree tree.now }
    requires firsts { AreFirsts tree.now firsts.now }
    ensures { IfOk result (λ rises. AreRises graph.now tree.now rises.items) }
{
    let walks = tree.walks.as_slice();
    let mut rises = Vec::with_capacity(alloc, release_count(walks))?;
    'walks: for i in 0..walks.len() {
        add_rises(graph, bound, walks[i].as_slice(), firsts[i], &mut rises)?;
    }
    Ok(rises)
}

/// Puts releases in order of their offsets.
pub(crate) fn put_in_order(rises: &mut Vec<Rise>)
    ensures same { IsPermutation rises.old.items rises.new.items }
    ensures order { IsNonDecreasingBy (λ r. r.offset) rises.new.items }
{
    rises.sort_unstable_by_key(|rise| rise.offset);
}

// How many vertices the walks have together.
fn release_count(walks: &[Row<u32>]) -> usize
    requires few { IsCounted walks.now }
    requires short { All IsCounted walks.now }
    ensures { result ≡ sum_by length walks.now }
{
    let mut count = 0;
    'walks: for i in 0..walks.len() {
        count += walks[i].as_slice().len();
    }
    count
}

// Adds the releases of a walk that spans less than the bound, each as early as its separation allows.
fn add_rises(
    graph: &Graph,
    bound: u32,
    walk: &[u32],
    place: u32,
    rises: &mut Vec<Rise>,
) -> Result<(), Memory>
    requires bound { bound ≤ most_time }
    requires walk { IsShortWalk bound graph.now walk.now }
    ensures { IfOk result (λ none. rises.new.items ≡ rises.old.items ++ rises_along graph.now place walk.now) }
{
    let count = graph.vertex_count();
    if walk.is_empty() {
        return Ok(());
    }
    let mut offset: u32 = 0;
    let mut vertex = walk[0];
    rises.push(rise_at(graph, place, offset, vertex))?;
    'steps: for i in 1..walk.len() {
        let next = walk[i];
        let Some(gap) = graph.separation(vertex, next) else {
            unreachable!();
        };
        offset += gap;
        vertex = next;
        rises.push(rise_at(graph, place, offset, vertex))?;
    }
    Ok(())
}

// The release of a vertex at this offset.
fn rise_at(graph: &Graph, place: u32, offset: u32, vertex: u32) -> Rise
    requires { vertex < vertex_count graph.now }
    ensures { result ≡ rise_at graph.now place offset vertex }
{
    Rise {
        offset,
        place,
        work: graph.vertex(vertex).wcet,
    }
}
