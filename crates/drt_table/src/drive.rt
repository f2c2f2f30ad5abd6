//! Driving a table to its end.

ghost use Rattle.std.specs.Prelude.{◌≡◌, ℕ, ◌<◌, Some, slice_get, IfOk};
ghost use Rattle.drt_model.specs.Digraph.{out_degree};
ghost use Rattle.drt_table.specs.Drive.{Drives, StopsAt};
ghost use Rattle.drt_table.specs.Earliest.{earliest};
ghost use Rattle.drt_table.specs.Held.{held_offset};
ghost use Rattle.drt_table.specs.Node.{NodeOf, is_taken};
ghost use Rattle.drt_table.specs.Turn.{Turn, ends};
ghost use Rattle.drt_table.specs.View.{ComesWith, setting_of, state_of};

use crate::node::Twin;
use crate::step::{TableReply, TableStep};
use crate::table::Table;
use drt_label::{Label, Memory};
use drt_model::Edge;
use std::alloc::Global;

impl<L: Label> Table<L> {
    /// Goes on with a table that one caller owns, until it is finished or its budget is spent. It first ends each taken
    /// node for the worker that holds it: it offers the out-edges that are left and closes the node. Then it takes nodes
    /// as `worker` and ends them in the same way. After want of memory the table is given up.
    pub fn drive(mut self, alloc: Global, worker: u32) -> Result<(Table<L>, TableReply), Memory>
        ensures drives { IfOk result (λ end. Drives L.algebra worker self end.0) }
        ensures stops { IfOk result (λ end. StopsAt L.algebra end.0 end.1) }
    {
        loop {
            let reply = self.turn(alloc, worker)?;
            if ends(reply) {
                return Ok((self, reply));
            }
        }
    }

    // A driver's turn: the next step on a taken node for the worker that holds it, and where there is none a Take.
    fn turn(&mut self, alloc: Global, worker: u32) -> Result<TableReply, Memory>
        ensures setting { setting_of self.new ≡ setting_of self.old }
        ensures turn { IfOk result (λ reply. Turn L.algebra worker self.old self.new reply) }
    {
        match self.arena.holder() {
            None => Ok(self.take(worker)),
            Some(id) => self.go_on(alloc, id),
        }
    }

    // The next step on the taken node of least offset, for the worker that holds it.
    fn go_on(&mut self, alloc: Global, id: u32) -> Result<TableReply, Memory>
        requires { earliest (λ h. is_taken h.node) (held_offset L.algebra) self.old.nodes ≡ Some id }
        ensures setting { setting_of self.new ≡ setting_of self.old }
        ensures turn { (w : ℕ) → IfOk result (λ reply. Turn L.algebra w self.old self.new reply) }
    {
        let node = self.arena.node(id);
        let holder = node.holder();
        let edge = node.offered();
        if edge < self.graph.out_degree(node.vertex()) {
            let twin = self.extended(alloc, id, edge)?;
            Ok(self.offer(holder, id, edge, twin))
        } else {
            Ok(self.close(holder, id))
        }
    }

    // The label of a node extended by its out-edge.
    fn extended(&self, alloc: Global, id: u32, edge: u32) -> Result<Twin<L>, Memory>
        requires { (n : NodeOf _) × (slice_get (state_of self.now).nodes id ≡ Some n) × (edge < out_degree self.now.graph (L.algebra.vertex n.label)) }
        ensures { IfOk result (λ twin. ComesWith L.algebra self.now (TableStep.Offer id edge) (Some twin)) }
    {
        let node = self.arena.node(id);
        let Edge { from: _, to, sep } = *self.graph.out_edge(node.vertex(), edge);
        let wcet = self.graph.vertex(to).wcet;
        let label = node.extend(alloc, sep, to, wcet)?;
        Twin::new(alloc, label)
    }
}

// Whether the reply ends a driver's work.
fn ends(reply: TableReply) -> bool
    ensures { result ≡ ends reply }
{
    match reply {
        TableReply::Taken(_) => false,
        TableReply::Busy(_) => false,
        TableReply::Finished => true,
        TableReply::Added(_) => false,
        TableReply::Dominated(_) => false,
        TableReply::OutOfRange => false,
        TableReply::Closed => false,
        TableReply::Spent => true,
    }
}
