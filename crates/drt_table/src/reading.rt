//! What a table shows.

ghost use Rattle.std.specs.Prelude.{◌≡◌, ◌<◌, Some, None, slice_get, length, IfOk, IsTrue};
ghost use Rattle.drt_model.specs.Digraph.{vertex_count};
ghost use Rattle.drt_table.specs.Cover.{IsFront};
ghost use Rattle.drt_table.specs.KeptOrder.{IsFirstKept, IsNextKept};
ghost use Rattle.drt_table.specs.Machine.{is_finished};
ghost use Rattle.drt_table.specs.Node.{NodeOf, is_held_by};
ghost use Rattle.drt_worklist.specs.Places.{first};
ghost use Rattle.drt_table.specs.View.{IsTable, setting_of, state_of};
ghost use Rattle.drt_table.specs.Walk.{IsWalkOf};

use crate::node::Node;
use crate::step::Entry;
use crate::table::Table;
use drt_label::{Label, Memory};
use drt_model::Row;
use std::alloc::Global;

impl<L: Label> Table<L> {
    /// How many nodes there are, those included that were dropped. Their numbers are those from 0 on.
    pub fn node_count(&self) -> usize
        ensures { result ≡ length self.now.nodes }
    {
        self.arena.count()
    }

    /// The node of that number.
    pub fn node(&self, id: u32) -> &Node<L>
        requires { id < length self.now.nodes }
        ensures { slice_get self.now.nodes id ≡ Some result.now }
    {
        self.arena.node(id)
    }

    /// The kept node of a vertex that has the greatest offset, the least number in a tie, if there is a kept one.
    pub fn first_kept(&self, vertex: u32) -> Option<u32>
        requires { vertex < vertex_count self.now.graph }
        ensures { IsFirstKept L.algebra (state_of self.now).nodes vertex result }
    {
        self.arena.first_kept(vertex)
    }

    /// The next kept node of the same vertex, in descending order of offset, if there is a further one.
    pub fn next_kept(&self, id: u32) -> Option<u32>
        requires { (n : NodeOf _) × (slice_get (state_of self.now).nodes id ≡ Some n) × (n.dropped_by ≡ None) }
        ensures { (n : NodeOf _) → slice_get (state_of self.now).nodes id ≡ Some n → IsNextKept L.algebra (state_of self.now).nodes (L.algebra.vertex n.label) id n result }
    {
        self.arena.next_kept(id)
    }

    /// The log, in order. The state is what its replay gives.
    pub fn log(&self) -> &[Entry]
        ensures log { result.now ≡ self.now.log }
        ensures replayed { IsTable L.algebra self.now }
    {
        self.log.as_slice()
    }

    /// The log, in order, where the table is no longer needed.
    pub fn into_log(self) -> Vec<Entry>
        ensures { result.items ≡ self.log }
    {
        let Table { log, .. } = self;
        log
    }

    /// Does nothing: it shows that the log is a run, and that the state is what its replay gives.
    pub fn keep_run(&self)
        ensures { IsTable L.algebra self.now }
    {
        let _log = self.log();
    }

    /// Whether no node is pending and none is taken. Then the kept labels are exactly the labels of in-range walks that
    /// no different one dominates, each once.
    pub fn finished(&self) -> bool
        ensures finished { result ≡ is_finished L.algebra (setting_of self.now) (state_of self.now) }
        ensures front { IsTrue result → IsFront L.algebra (setting_of self.now) (state_of self.now).nodes }
    {
        let next = self.arena.next();
        let holder = self.arena.holder();
        next.is_none() & holder.is_none()
    }

    /// The least node that the worker holds, if there is one.
    pub fn held_by(&self, worker: u32) -> Option<u32>
        ensures { result ≡ first (is_held_by worker) (state_of self.now).nodes }
    {
        self.arena.held_by(worker)
    }

    /// The vertices of the walk whose label the node has, in order.
    pub fn walk(&self, alloc: Global, id: u32) -> Result<Row<u32>, Memory>
        requires { id < length self.now.nodes }
        ensures { IfOk result (λ walk. (n : NodeOf _) → slice_get (state_of self.now).nodes id ≡ Some n → IsWalkOf L.algebra (setting_of self.now) walk n.label) }
    {
        let mut walk = Vec::new(alloc);
        let mut next = Some(id);
        while let Some(i) = next {
            let node = self.arena.node(i);
            walk.push(node.vertex())?;
            next = node.parent();
        }
        walk.reverse();
        Ok(Row::from_vec(walk))
    }
}
