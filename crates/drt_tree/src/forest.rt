//! The trees of a file.
ghost use Rattle.std.specs.Prelude.{◌≡◌, ℕ, ◌+◌, ◌*◌, ◌≤◌, ◌<◌, [], length, Some, None, IfOk};
ghost use Rattle.std.specs.Result.{OnErr};
ghost use Rattle.drt_model.specs.Numbers.{most_number};
ghost use Rattle.drt_steps.specs.Values.{value_at};
ghost use Rattle.drt_tree.specs.Leaf.{leaves_of};
ghost use Rattle.drt_tree.specs.Shape.{IsTreeAdded};
ghost use Rattle.drt_tree.specs.Tree.{IsForest, IsUnder, HaveOneBound, children, leaves, walk, node_values_in};

use crate::build::add_tree;
use crate::node::Node;
use drt_model::Row;
use drt_request::RequestLabel;
use drt_steps::Steps;
use std::alloc::{AllocError as Memory, Global};
use std::marker::Model;
use std::sync::Arc;

/// The nodes of all trees of a file in one list, and the function of each.
#[derive(Drop)]
pub struct Forest {
    nodes: Vec<Node>,
    pool: Vec<Steps>,
}

impl Model for Forest {
    ghost use Rattle.drt_tree.specs.Tree.{Plain, IsForest};

    ghost Value = { Plain };

    ghost view = { λ f. record { nodes = f.nodes.items; pool = f.pool.items } };

    ghost invariant = { λ f. IsForest (record { nodes = f.nodes.items; pool = f.pool.items }) };
}

impl Forest {
    /// The forest with no node.
    pub fn empty(alloc: Global) -> Forest
        ensures nodes { result.nodes ≡ [] }
        ensures pool { result.pool ≡ [] }
    {
        Forest {
            nodes: Vec::new(alloc),
            pool: Vec::new(alloc),
        }
    }

    /// Builds one tree and gives its root. The leaf of each label has the label's function and the walk at its place.
    /// The leaves are put in order: by their values at the bound, at the time before it and so on, and then by their
    /// walks. The tree is then built by halving, the larger half first. Without memory the forest is as before.
    pub fn add(
        &mut self,
        alloc: Global,
        labels: &[Arc<RequestLabel>],
        walks: &[Row<u32>],
    ) -> Result<u32, Memory>
        requires same { length labels.now ≡ length walks.now }
        requires some { 1 ≤ length labels.now }
        requires bound { HaveOneBound self.old.pool (leaves_of labels.now walks.now) }
        requires room { length self.old.nodes + 2 * length labels.now ≤ most_number }
        ensures added { IfOk result (λ root. IsTreeAdded self.old self.new (leaves_of labels.now walks.now) root) }
        ensures err { OnErr result (self.new ≡ self.old) }
    {
        add_tree(alloc, &mut self.nodes, &mut self.pool, labels, walks)
    }

    /// Does nothing: it shows what every forest is.
    pub fn show_sound(&self)
        ensures { IsForest self.now }
    {
        let _nodes = self.nodes.as_slice();
    }

    /// The two children of a pair, and `None` for a leaf.
    pub fn children(&self, node: u32) -> Option<(u32, u32)>
        requires { node < length self.now.nodes }
        ensures value { result ≡ children self.now node }
        ensures forest { IsForest self.now }
    {
        self.nodes[node as usize].children
    }

    /// The function of a node.
    pub fn steps(&self, node: u32) -> &Steps
        requires { node < length self.now.nodes }
        ensures value { result.now ≡ node_values_in self.now node }
        ensures forest { IsForest self.now }
    {
        &self.pool[node as usize]
    }

    /// The number of leaves under a node, which is 1 for a leaf.
    pub fn leaves_under(&self, node: u32) -> u32
        requires { node < length self.now.nodes }
        ensures value { result ≡ leaves self.now node }
        ensures forest { IsForest self.now }
    {
        self.nodes[node as usize].leaves
    }

    /// The walk of a leaf.
    pub fn walk(&self, leaf: u32) -> &Row<u32>
        requires within { leaf < length self.now.nodes }
        requires leaf { children self.now leaf ≡ None }
        ensures { result.now ≡ walk self.now leaf }
    {
        &self.nodes[leaf as usize].walk
    }

    /// The functions of all nodes, each at its node's number.
    pub fn all(&self) -> &[Steps]
        ensures value { result.now ≡ self.now.pool }
        ensures forest { IsForest self.now }
        ensures below { (leaf n t : ℕ) → IsUnder self.now leaf n → value_at (node_values_in self.now leaf) t ≤ value_at (node_values_in self.now n) t }
    {
        &self.pool
    }
}
