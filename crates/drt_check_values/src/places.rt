//! Where the leaves below the nodes of a tree stand in the order of all its leaves.
ghost use Rattle.std.specs.Prelude.{◌≡◌, IfOk};
ghost use Rattle.drt_claims.specs.Ranges.{IsInRangeTree};
ghost use Rattle.drt_claims.specs.Trees.{IsTree};
ghost use Rattle.drt_check_values.specs.Leaves.{AreFirsts, AreSizes};

use drt_claims::TreeClaim;
use drt_model::Memory;
use std::alloc::Global;

/// For each node the place from which on the leaves below it stand, and how many they are.
#[derive(Debug, Drop)]
pub(crate) struct Places {
    pub(crate) firsts: Vec<u32>,
    pub(crate) sizes: Vec<u32>,
}

/// The places of a tree's nodes.
pub(crate) fn places_of(alloc: Global, tree: &TreeClaim) -> Result<Places, Memory>
    requires tree { IsTree tree.now }
    requires ranges { IsInRangeTree tree.now }
    ensures firsts { IfOk result (λ places. AreFirsts tree.now places.firsts.items) }
    ensures sizes { IfOk result (λ places. AreSizes tree.now places.sizes.items) }
{
    let sizes = sizes_of(alloc, tree)?;
    let firsts = firsts_of(alloc, tree, sizes.as_slice())?;
    Ok(Places { firsts, sizes })
}

// How many leaves there are below each node.
fn sizes_of(alloc: Global, tree: &TreeClaim) -> Result<Vec<u32>, Memory>
    requires tree { IsTree tree.now }
    requires ranges { IsInRangeTree tree.now }
    ensures { IfOk result (λ sizes. AreSizes tree.now sizes.items) }
{
    let walk_count = tree.walks.as_slice().len();
    let pairs = tree.pairs.as_slice();
    let mut sizes = vec![in alloc; 1u32; walk_count + pairs.len()]?;
    'pairs: for i in 0..pairs.len() {
        let pair = pairs[i];
        let size = sizes[pair.left as usize] + sizes[pair.right as usize];
        sizes[walk_count + i] = size;
    }
    Ok(sizes)
}

// The place from which on the leaves below each node stand: from the root down, those below a pair's right part follow those
// below its left one.
fn firsts_of(alloc: Global, tree: &TreeClaim, sizes: &[u32]) -> Result<Vec<u32>, Memory>
    requires tree { IsTree tree.now }
    requires ranges { IsInRangeTree tree.now }
    requires sizes { AreSizes tree.now sizes.now }
    ensures { IfOk result (λ firsts. AreFirsts tree.now firsts.items) }
{
    let walk_count = tree.walks.as_slice().len();
    let pairs = tree.pairs.as_slice();
    let mut firsts = vec![in alloc; 0u32; walk_count + pairs.len()]?;
    'pairs: for i in (0..pairs.len()).rev() {
        let pair = pairs[i];
        let first = firsts[walk_count + i];
        firsts[pair.left as usize] = first;
        firsts[pair.right as usize] = first + sizes[pair.left as usize];
    }
    Ok(firsts)
}
