//! One tree over leaves that lie in the forest.
ghost use Rattle.std.specs.Prelude.{◌≡◌, ℕ, ◌+◌, ◌≤◌, ◌<◌, ◌*◌, ◌++◌, length, map, None, IfOk};
ghost use Rattle.std.specs.Result.{OnErr, OnOk};
ghost use Rattle.drt_model.specs.Numbers.{most_number};
ghost use Rattle.drt_tree.specs.Tree.{IsForest, Grows, HaveOneBound, children, plain, leaf_node, leaf_steps};
ghost use Rattle.drt_tree.specs.Shape.{IsTreeAdded, IsBuilt};
ghost use Rattle.drt_tree.specs.Leaf.{leaves_of};

use crate::leaf::{Leaf, gather, sort_leaves};
use crate::node::Node;
use drt_model::Row;
use drt_request::RequestLabel;
use drt_steps::Steps;
use std::alloc::{AllocError as Memory, Global};
use std::sync::Arc;

// Puts the tree over `count` leaves from `low` behind the nodes, and gives its root. The left part has half of the
// leaves, rounded up; its pairs come first, then those of the right part, and then the pair of both.
fn build(
    alloc: Global,
    nodes: &mut Vec<Node>,
    pool: &mut Vec<Steps>,
    low: u32,
    count: u32,
) -> Result<u32, Memory>
    requires forest { IsForest (plain nodes.old.items pool.old.items) }
    requires some { 1 ≤ count }
    requires within { low + count ≤ length nodes.old.items }
    requires leaves { (k : ℕ) → low ≤ k → k < low + count → children (plain nodes.old.items pool.old.items) k ≡ None }
    requires room { length nodes.old.items + count ≤ 4294967296 }
    ensures grows { Grows (plain nodes.old.items pool.old.items) (plain nodes.new.items pool.new.items) }
    ensures built { IfOk result (λ root. IsBuilt (plain nodes.old.items pool.old.items) (plain nodes.new.items pool.new.items) low count root) }
{
    if count == 1 {
        return Ok(low);
    }
    let rest = count / 2;
    let half = count - rest;
    let left = build(alloc, nodes, pool, low, half)?;
    let right = build(alloc, nodes, pool, low + half, rest)?;
    let root = nodes.len() as u32;
    let most = Steps::max_of(alloc, &pool[left as usize], &pool[right as usize])?;
    pool.push(most)?;
    nodes.push(Node {
        children: Some((left, right)),
        leaves: count,
        walk: Row::from_vec(Vec::new(alloc)),
    })?;
    Ok(root)
}

// Puts leaves behind the nodes, in their order.
fn place(nodes: &mut Vec<Node>, pool: &mut Vec<Steps>, leaves: Vec<Leaf>) -> Result<(), Memory>
    ensures grows { Grows (plain nodes.old.items pool.old.items) (plain nodes.new.items pool.new.items) }
    ensures nodes { OnOk result (nodes.new.items ≡ nodes.old.items ++ map leaf_node leaves.items) }
    ensures pool { OnOk result (pool.new.items ≡ pool.old.items ++ map leaf_steps leaves.items) }
{
    for leaf in leaves {
        let Leaf { steps, walk } = leaf;
        pool.push(steps)?;
        nodes.push(Node {
            children: None,
            leaves: 1,
            walk,
        })?;
    }
    Ok(())
}

// Puts the tree of some labels and their walks behind the nodes, and gives its root. Without memory a part of it may
// be there.
fn grow_tree(
    alloc: Global,
    nodes: &mut Vec<Node>,
    pool: &mut Vec<Steps>,
    labels: &[Arc<RequestLabel>],
    walks: &[Row<u32>],
) -> Result<u32, Memory>
    requires forest { IsForest (plain nodes.old.items pool.old.items) }
    requires same { length labels.now ≡ length walks.now }
    requires some { 1 ≤ length labels.now }
    requires bound { HaveOneBound pool.old.items (leaves_of labels.now walks.now) }
    requires room { length nodes.old.items + 2 * length labels.now ≤ most_number }
    ensures grows { Grows (plain nodes.old.items pool.old.items) (plain nodes.new.items pool.new.items) }
    ensures added { IfOk result (λ root. IsTreeAdded (plain nodes.old.items pool.old.items) (plain nodes.new.items pool.new.items) (leaves_of labels.now walks.now) root) }
{
    let mut leaves = gather(alloc, labels, walks)?;
    sort_leaves(&mut leaves)?;
    let low = nodes.len() as u32;
    let count = leaves.len() as u32;
    place(nodes, pool, leaves)?;
    build(alloc, nodes, pool, low, count)
}

/// Puts the tree of some labels and their walks behind the nodes, and gives its root. Without memory all is as before.
pub fn add_tree(
    alloc: Global,
    nodes: &mut Vec<Node>,
    pool: &mut Vec<Steps>,
    labels: &[Arc<RequestLabel>],
    walks: &[Row<u32>],
) -> Result<u32, Memory>
    requires forest { IsForest (plain nodes.old.items pool.old.items) }
    requires same { length labels.now ≡ length walks.now }
    requires some { 1 ≤ length labels.now }
    requires bound { HaveOneBound pool.old.items (leaves_of labels.now walks.now) }
    requires room { length nodes.old.items + 2 * length labels.now ≤ most_number }
    ensures forest { IsForest (plain nodes.new.items pool.new.items) }
    ensures added { IfOk result (λ root. IsTreeAdded (plain nodes.old.items pool.old.items) (plain nodes.new.items pool.new.items) (leaves_of labels.now walks.now) root) }
    ensures err { OnErr result (plain nodes.new.items pool.new.items ≡ plain nodes.old.items pool.old.items) }
{
    let old_nodes = nodes.len();
    let old_pool = pool.len();
    match grow_tree(alloc, nodes, pool, labels, walks) {
        Ok(root) => Ok(root),
        Err(error) => {
            nodes.truncate(old_nodes);
            pool.truncate(old_pool);
            Err(error)
        }
    }
}
