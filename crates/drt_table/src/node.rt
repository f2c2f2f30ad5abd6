//! Nodes of a table.

ghost use Rattle.std.specs.Prelude.{◌≡◌, ℕ, ◌<◌, ◌^◌, ◌++◌, ◌∷◌, [], IfOk, IsTrue, true, false, Some, None};
ghost use Rattle.drt_model.specs.Limits.{IsTime};
ghost use Rattle.drt_table.specs.Node.{Held, is_node_pending, is_taken, is_kept, is_held_by, fresh};
ghost use Rattle.drt_table.specs.Held.{take_by, count_offer, close_node, hand_out, fresh_held, held_offset, drop_held, dominates_held};

use drt_label::{Label, Memory};
use std::alloc::Global;
use std::marker::Model;

/// Where a node stands: it waits, a worker holds it, or it is done. A node that is dropped is done.
#[derive(Clone, Copy, Debug, PartialEq, Eq)]
pub enum NodeState {
    Pending,
    Taken(u32),
    Done,
}

/// A label with a spare of it. It is made before the label is offered, so that nothing has to be copied under a lock: the
/// table keeps the label, and a worker that takes the node is handed the label made of the spare. Contracts see it as the
/// label.
#[derive(Drop)]
pub struct Twin<L: Label> {
    pub(crate) label: L,
    spare: L::Spare,
}

impl<L: Label> Model for Twin<L> {
    ghost Value = { L };

    ghost view = { λ t. t.label };

    ghost invariant = { λ t. L.is_spare t.label t.spare };
}

// Where a node stands, and the later node that dropped it, if any.
#[derive(Clone, Copy)]
enum Stage {
    Pending,
    Taken(u32),
    Done,
    Dropped(u32),
}

/// A label of a walk in a table: the node that it extends, how many of its out-edges were offered, its state, and the
/// later node that dropped it, if any. The spare is there until it is handed out.
#[derive(Drop)]
pub struct Node<L: Label> {
    label: L,
    spare: Option<L::Spare>,
    parent: Option<u32>,
    offered: u32,
    stage: Stage,
}

impl<L: Label> Model for Node<L> {
    ghost use Rattle.std.specs.Prelude.{◌≡◌, IsTrue, IfSome, is_some};
    ghost use Rattle.drt_table.specs.Node.{Held, NodeOf};
    ghost use Rattle.drt_table.specs.Stage.{state_at, dropper, IsSpare};

    ghost Value = { Held L };

    ghost view = { λ n. record {
      node = record { label = n.label; parent = n.parent; offered = n.offered; state = state_at n.stage; dropped_by = dropper n.stage };
      spare = is_some n.spare;
    } };

    ghost invariant = { λ n. IsSpare L.is_spare n.label n.spare (state_at n.stage) };
}

impl<L: Label> Twin<L> {
    /// The label with a spare.
    pub fn new(alloc: Global, label: L) -> Result<Twin<L>, Memory>
        ensures { IfOk result (λ twin. twin ≡ label) }
    {
        let spare = label.make_spare(alloc)?;
        Ok(Twin { label, spare })
    }
}

impl<L: Label> Node<L> {
    // A new pending node.
    pub(crate) fn fresh(twin: Twin<L>, parent: Option<u32>) -> Node<L>
        ensures { result ≡ fresh_held twin parent }
    {
        let Twin { label, spare } = twin;
        Node {
            label,
            spare: Some(spare),
            parent,
            offered: 0,
            stage: Stage::Pending,
        }
    }

    /// The label of the walk.
    pub fn label(&self) -> &L
        ensures { result.now ≡ self.now.node.label }
    {
        &self.label
    }

    /// The node whose label it extends, none for an opening node.
    pub fn parent(&self) -> Option<u32>
        ensures { result ≡ self.now.node.parent }
    {
        self.parent
    }

    /// How many of the label's out-edges were offered.
    pub fn offered(&self) -> u32
        ensures { result ≡ self.now.node.offered }
    {
        self.offered
    }

    /// Whether it waits, is held or is done.
    pub fn state(&self) -> NodeState
        ensures { result ≡ self.now.node.state }
    {
        match self.stage {
            Stage::Pending => NodeState::Pending,
            Stage::Taken(worker) => NodeState::Taken(worker),
            Stage::Done => NodeState::Done,
            Stage::Dropped(_) => NodeState::Done,
        }
    }

    /// The later node that dropped it, none for a kept node.
    pub fn dropped_by(&self) -> Option<u32>
        ensures { result ≡ self.now.node.dropped_by }
    {
        match self.stage {
            Stage::Pending => None,
            Stage::Taken(_) => None,
            Stage::Done => None,
            Stage::Dropped(number) => Some(number),
        }
    }

    pub(crate) fn is_pending(&self) -> bool
        ensures { result ≡ is_node_pending self.now.node }
    {
        match self.stage {
            Stage::Pending => true,
            Stage::Taken(_) => false,
            Stage::Done => false,
            Stage::Dropped(_) => false,
        }
    }

    pub(crate) fn is_taken(&self) -> bool
        ensures { result ≡ is_taken self.now.node }
    {
        match self.stage {
            Stage::Pending => false,
            Stage::Taken(_) => true,
            Stage::Done => false,
            Stage::Dropped(_) => false,
        }
    }

    pub(crate) fn is_held_by(&self, worker: u32) -> bool
        ensures { result ≡ is_held_by worker self.now.node }
    {
        match self.stage {
            Stage::Pending => false,
            Stage::Taken(holder) => holder == worker,
            Stage::Done => false,
            Stage::Dropped(_) => false,
        }
    }

    pub(crate) fn is_kept(&self) -> bool
        ensures { result ≡ is_kept self.now.node }
    {
        match self.stage {
            Stage::Pending => true,
            Stage::Taken(_) => true,
            Stage::Done => true,
            Stage::Dropped(_) => false,
        }
    }

    // The worker that holds the node.
    pub(crate) fn holder(&self) -> u32
        requires { is_taken self.now.node ≡ true }
        ensures { self.now.node.state ≡ NodeState.Taken result }
    {
        match self.stage {
            Stage::Taken(worker) => worker,
            _ => unreachable!(),
        }
    }

    pub(crate) fn take_by(&mut self, worker: u32)
        requires { is_node_pending self.old.node ≡ true }
        ensures { self.new ≡ take_by worker self.old }
    {
        self.stage = Stage::Taken(worker);
    }

    pub(crate) fn count_offer(&mut self)
        requires { self.old.node.offered < 1000 }
        ensures { self.new ≡ count_offer self.old }
    {
        self.offered += 1;
    }

    pub(crate) fn close(&mut self)
        requires { is_taken self.old.node ≡ true }
        ensures { self.new ≡ close_node self.old }
    {
        self.stage = Stage::Done;
    }

    // The label once more, made of the spare, which the node then lacks.
    pub(crate) fn hand_out(&mut self) -> L
        requires there { self.old.spare ≡ true }
        requires taken { is_node_pending self.old.node ≡ false }
        ensures node { self.new ≡ hand_out self.old }
        ensures label { result ≡ self.old.node.label }
    {
        match self.spare.take() {
            Some(spare) => self.label.hand_out(spare),
            None => unreachable!(),
        }
    }

    // The node's label extended by an edge.
    pub(crate) fn extend(
        &self,
        alloc: Global,
        sep: u32,
        target: u32,
        wcet: u32,
    ) -> Result<L, Memory>
        requires extendable { IsTrue (L.algebra.is_extendable self.now.node.label) }
        requires sep { IsTime sep }
        requires wcet { IsTime wcet }
        ensures { IfOk result (λ label. label ≡ L.algebra.extend self.now.node.label sep target wcet) }
    {
        self.label.extend(alloc, sep, target, wcet)
    }

    pub(crate) fn vertex(&self) -> u32
        ensures { result ≡ L.algebra.vertex self.now.node.label }
    {
        self.label.vertex()
    }

    pub(crate) fn offset(&self) -> u64
        ensures { result ≡ held_offset L.algebra self.now }
    {
        self.label.offset()
    }

    // Whether the node is kept and dominates the label.
    pub(crate) fn is_above(&self, label: &L) -> bool
        requires { (bound : ℕ) × IsTrue (L.algebra.is_of label.now bound) × IsTrue (L.algebra.is_of self.now.node.label bound) }
        ensures { result ≡ dominates_held L.algebra label.now self.now }
    {
        self.is_kept() && self.label.dominates(label)
    }

    // Whether the label dominates the node.
    pub(crate) fn is_below(&self, label: &L) -> bool
        requires { (bound : ℕ) × IsTrue (L.algebra.is_of label.now bound) × IsTrue (L.algebra.is_of self.now.node.label bound) }
        ensures { result ≡ L.algebra.dominates label.now self.now.node.label }
    {
        label.dominates(&self.label)
    }

    // Drops the node where it is kept and the label dominates it.
    pub(crate) fn drop_below(&mut self, label: &L, number: u32)
        requires { (bound : ℕ) × IsTrue (L.algebra.is_of label.now bound) × IsTrue (L.algebra.is_of self.old.node.label bound) }
        ensures { self.new ≡ drop_held L.algebra label.now number self.old }
    {
        if self.is_kept() && label.dominates(&self.label) {
            self.stage = Stage::Dropped(number);
        }
    }
}
