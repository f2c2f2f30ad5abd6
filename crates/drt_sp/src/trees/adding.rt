//! A tree in the forest, and the same tree as a claim.
ghost use Rattle.std.specs.Prelude.{◌≡◌, ℕ, ◌+◌, ◌-◌, ◌*◌, ◌≤◌, ◌<◌, IfOk, None, Some, length};
ghost use Rattle.drt_model.specs.Numbers.{most_number};
ghost use Rattle.drt_tree.specs.Leaf.{leaves_of};
ghost use Rattle.drt_tree.specs.Shape.{IsTreeAdded};
ghost use Rattle.drt_tree.specs.Tree.{HaveOneBound, IsForest, children};
ghost use Rattle.drt_sp.specs.TaskTrees.{pair_of, pairs_from, walks_from};

use crate::trees::TaskTree;
use drt_claims::{Pair, TreeClaim};
use drt_model::{Memory, Row};
use drt_request::RequestLabel;
use drt_tree::Forest;
use std::alloc::Global;
use std::sync::Arc;

// The walks of so many leaves from `low` on.
fn walks_from(alloc: Global, forest: &Forest, low: u32, count: u32) -> Result<Row<Row<u32>>, Memory>
    requires within { low + count ≤ length forest.now.nodes }
    requires room { low + count ≤ most_number }
    requires leaves { (k : ℕ) → low ≤ k → k < low + count → children forest.now k ≡ None }
    ensures { IfOk result (λ walks. walks ≡ walks_from forest.now low count) }
{
    let mut walks = Vec::new(alloc);
    'leaves: for leaf in low..low + count {
        let walk = Vec::from_slice(alloc, forest.walk(leaf).as_slice())?;
        walks.push(Row::from_vec(walk))?;
    }
    Ok(Row::from_vec(walks))
}

// The children of a pair, numbered from `low` on.
fn pair_of(forest: &Forest, low: u32, node: u32) -> Pair
    requires within { node < length forest.now.nodes }
    requires children { (l : ℕ) × (r : ℕ) × (children forest.now node ≡ Some (l, r)) × (low ≤ l) × (low ≤ r) }
    ensures { result ≡ pair_of low (children forest.now node) }
{
    match forest.children(node) {
        Some((left, right)) => Pair {
            left: left - low,
            right: right - low,
        },
        None => unreachable!(),
    }
}

// The children of so many pairs from `first` on, numbered from `low` on.
fn pairs_from(
    alloc: Global,
    forest: &Forest,
    low: u32,
    first: u32,
    count: u32,
) -> Result<Row<Pair>, Memory>
    requires within { first + count ≤ length forest.now.nodes }
    requires room { first + count ≤ most_number }
    requires children { (k : ℕ) → first ≤ k → k < first + count → (l : ℕ) × (r : ℕ) × (children forest.now k ≡ Some (l, r)) × (low ≤ l) × (low ≤ r) }
    ensures { IfOk result (λ pairs. pairs ≡ pairs_from forest.now low first count) }
{
    let mut pairs = Vec::new(alloc);
    'pairs: for node in first..first + count {
        pairs.push(pair_of(forest, low, node))?;
    }
    Ok(Row::from_vec(pairs))
}

/// Puts the tree of some labels and their walks into the forest, and gives it as it is written.
pub(crate) fn add_tree(
    alloc: Global,
    labels: &[Arc<RequestLabel>],
    walks: &[Row<u32>],
    forest: &mut Forest,
) -> Result<TaskTree, Memory>
    requires same { length labels.now ≡ length walks.now }
    requires some { 1 ≤ length labels.now }
    requires bound { HaveOneBound forest.old.pool (leaves_of labels.now walks.now) }
    requires room { length forest.old.nodes + 2 * length labels.now ≤ most_number }
    ensures forest { IsForest forest.old }
    ensures added { IfOk result (λ tree. IsTreeAdded forest.old forest.new (leaves_of labels.now walks.now) tree.top) }
    ensures low { IfOk result (λ tree. tree.low ≡ length forest.old.nodes) }
    ensures walks { IfOk result (λ tree. tree.claim.walks ≡ walks_from forest.new tree.low (length labels.now)) }
    ensures pairs { IfOk result (λ tree. tree.claim.pairs ≡ pairs_from forest.new tree.low (tree.low + length labels.now) (length labels.now - 1)) }
{
    let low = forest.all().len() as u32;
    let count = labels.len() as u32;
    let top = forest.add(alloc, labels, walks)?;
    let claim = TreeClaim {
        walks: walks_from(alloc, forest, low, count)?,
        pairs: pairs_from(alloc, forest, low, low + count, count - 1)?,
    };
    Ok(TaskTree { low, top, claim })
}
