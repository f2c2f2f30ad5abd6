//! The table behind the lock.

ghost use Rattle.std.specs.Prelude.{◌≡◌, ◌↔◌, ℕ, ◌≤◌, IfOk, IsTrue, Option, Some, None, true, []};
ghost use Rattle.drt_effort.specs.Efforts.{most_budget};
ghost use Rattle.drt_table.specs.Node.{is_held_by};
ghost use Rattle.drt_table.specs.Taking.{taken_node};
ghost use Rattle.drt_table.specs.View.{IsTable, setting_of, state_of, CanApply, ComesWith};
ghost use Rattle.drt_worklist.specs.Places.{first};
ghost use Rattle.drt_shared.specs.TableBoard.{CanMove, CanHandOut, IsCall, IsLogged, StaysUnlessStepped};
ghost use Rattle.drt_shared.specs.Finds.{found_for, is_label_of, is_expected, is_that_node, TellsFound};
ghost use Rattle.drt_shared.specs.Passes.{AreHeld, IsLabel};
ghost use Rattle.drt_shared.specs.declared.reply.Move.TheVariants.{Take, Offer, Close};
ghost use Rattle.drt_shared.specs.declared.reply.SharedReply.TheVariants.{Step, Halted};

use crate::pass::Holding;
use crate::reply::{Found, Move, SharedReply};
use crate::terms::Terms;
use drt_graph::Graph;
use drt_label::{Label, Memory};
use drt_lock::Guarded;
use drt_table::{Table, TableReply, TableStep, Twin};
use std::alloc::Global;
use std::marker::Model;

/// A table each of whose pending nodes has its spare, so that who takes one gets its label.
#[derive(Drop)]
pub struct TableBoard<L: Label> {
    table: Table<L>,
}

impl<L: Label> Model for TableBoard<L> {
    ghost use Rattle.drt_table.specs.View.{View, IsTable};
    ghost use Rattle.drt_shared.specs.TableBoard.{HasSpares};

    ghost Value = { View L };

    ghost view = { λ b. b.table };

    ghost invariant = { λ b. IsTable L.algebra b.table × HasSpares b.table };
}

impl<L: Label> Guarded for TableBoard<L> {
    type Fixed = Terms;

    ghost use Rattle.std.specs.Prelude.{length};
    ghost use Rattle.drt_table.specs.View.{setting_of};

    ghost fixed = { λ b. setting_of b };

    ghost entries = { λ b. length b.log };
}

impl<L: Label> TableBoard<L> {
    pub(crate) fn start(
        alloc: Global,
        graph: &Graph,
        bound: u64,
        budget: u64,
    ) -> Result<TableBoard<L>, Memory>
        requires bound { IsTrue (L.algebra.takes_bound bound) }
        requires budget { (1 ≤ budget) × (budget ≤ most_budget) }
        ensures setting { IfOk result (λ board. setting_of board ≡ record { graph = graph.now; bound = bound; budget = budget }) }
        ensures log { IfOk result (λ board. board.log ≡ []) }
    {
        let table = Table::start(alloc, graph, bound, budget)?;
        table.keep_run();
        Ok(TableBoard { table })
    }

    pub(crate) fn into_table(self) -> Table<L>
        ensures table { result ≡ self }
        ensures run { IsTable L.algebra result }
    {
        self.table
    }

    /// One call of a worker that holds what its pass says and wants to make a move. Where the search isn't halted it looks at
    /// the table, and makes the move where the table holds the same.
    pub(crate) fn call(
        &mut self,
        is_halted: bool,
        worker: u32,
        holding: &Option<Holding<L>>,
        wanted: Move<Twin<L>>,
    ) -> (SharedReply, Option<Holding<L>>)
        requires held { AreHeld L.algebra (setting_of self.old) holding.now }
        requires can { CanMove L.algebra (setting_of self.old) holding.now wanted }
        ensures call { IsCall L.algebra self.old self.new holding.now wanted result.0 result.1 }
        ensures stays { StaysUnlessStepped result.0 self.old self.new }
        ensures found { TellsFound L.algebra (state_of self.old).nodes worker holding.now result.0 }
        ensures halted { IsTrue is_halted ↔ result.0 ≡ Halted }
    {
        self.table.keep_run();
        if is_halted {
            return (SharedReply::Halted, None);
        }
        let found = self.find(worker, holding);
        if !expects(holding, found) {
            return (SharedReply::Strange(found), None);
        }
        let (reply, taken) = self.make(worker, holding, wanted);
        (SharedReply::Step(reply), taken)
    }

    // What the table holds for the worker, beside what the worker's pass says.
    fn find(&self, worker: u32, holding: &Option<Holding<L>>) -> Found
        requires { AreHeld L.algebra (setting_of self.now) holding.now }
        ensures { result ≡ found_for L.algebra (state_of self.now).nodes worker holding.now }
    {
        match self.table.held_by(worker) {
            None => Found {
                held: None,
                offered: 0,
                same: false,
            },
            Some(id) => {
                let node = self.table.node(id);
                Found {
                    held: Some(id),
                    offered: node.offered(),
                    same: has_label(holding, node.label()),
                }
            }
        }
    }

    // Makes the move.
    fn make(
        &mut self,
        worker: u32,
        holding: &Option<Holding<L>>,
        wanted: Move<Twin<L>>,
    ) -> (TableReply, Option<Holding<L>>)
        requires held { AreHeld L.algebra (setting_of self.old) holding.now }
        requires can { CanMove L.algebra (setting_of self.old) holding.now wanted }
        requires expected { is_expected holding.now (found_for L.algebra (state_of self.old).nodes worker holding.now) ≡ true }
        ensures { IsCall L.algebra self.old self.new holding.now wanted (Step result.0) result.1 }
    {
        match wanted {
            Move::Take => self.take(worker),
            Move::Offer { edge, label } => (self.offer(worker, holding, edge, label), None),
            Move::Close => (self.close(worker, holding), None),
        }
    }
}

impl<L: Label> TableBoard<L> {
    // The step Take of a worker that holds no node. With the node comes its label.
    fn take(&mut self, worker: u32) -> (TableReply, Option<Holding<L>>)
        requires { first (is_held_by worker) (state_of self.old).nodes ≡ None }
        ensures call { (o : Option (Holding L)) → IsCall L.algebra self.old self.new o Take (Step result.0) result.1 }
    {
        let reply = self.apply(worker, TableStep::Take, None);
        match node_taken(reply) {
            None => (reply, None),
            Some(node) => {
                let label = self.hand_out(node);
                (
                    reply,
                    Some(Holding {
                        node,
                        label,
                        offered: 0,
                    }),
                )
            }
        }
    }

    // The step Offer.
    fn offer(
        &mut self,
        worker: u32,
        holding: &Option<Holding<L>>,
        edge: u32,
        label: Twin<L>,
    ) -> TableReply
        requires can { CanMove L.algebra (setting_of self.old) holding.now (Offer edge label) }
        requires expected { is_expected holding.now (found_for L.algebra (state_of self.old).nodes worker holding.now) ≡ true }
        ensures { IsCall L.algebra self.old self.new holding.now (Offer edge label) (Step result) None }
    {
        self.table.keep_run();
        match holding {
            Some(h) => {
                let node = h.node;
                self.apply(worker, TableStep::Offer { node, edge }, Some(label))
            }
            None => unreachable!(),
        }
    }

    // The step Close.
    fn close(&mut self, worker: u32, holding: &Option<Holding<L>>) -> TableReply
        requires can { CanMove L.algebra (setting_of self.old) holding.now Close }
        requires expected { is_expected holding.now (found_for L.algebra (state_of self.old).nodes worker holding.now) ≡ true }
        ensures { IsCall L.algebra self.old self.new holding.now Close (Step result) None }
    {
        match holding {
            Some(h) => self.apply(worker, TableStep::Close { node: h.node }, None),
            None => unreachable!(),
        }
    }

    // One step of the machine.
    fn apply(&mut self, worker: u32, step: TableStep, label: Option<Twin<L>>) -> TableReply
        requires can { CanApply L.algebra self.old worker step }
        requires comes { ComesWith L.algebra self.old step label }
        ensures { IsLogged self.old self.new step result }
    {
        let reply = self.table.apply(worker, step, label);
        self.table.keep_run();
        reply
    }

    // The label of a node that was just taken.
    fn hand_out(&mut self, node: u32) -> L
        requires { CanHandOut self.old node }
        ensures setting { setting_of self.new ≡ setting_of self.old }
        ensures log { self.new.log ≡ self.old.log }
        ensures label { IsLabel L.algebra (setting_of self.old) result }
    {
        let label = self.table.hand_out(node);
        self.table.keep_run();
        label
    }
}

// Whether the label is that of what the pass holds.
fn has_label<L: Label>(holding: &Option<Holding<L>>, label: &L) -> bool
    requires { (bound : ℕ) × IsTrue (L.algebra.is_of label.now bound) × ((h : Holding L) → holding.now ≡ Some h → IsTrue (L.algebra.is_of h.label bound)) }
    ensures { result ≡ is_label_of L.algebra holding.now label.now }
{
    match holding {
        None => false,
        Some(h) => h.label.dominates(label) && label.dominates(&h.label),
    }
}

// Whether what was found is what the pass holds.
fn expects<L: Label>(holding: &Option<Holding<L>>, found: Found) -> bool
    ensures { result ≡ is_expected holding.now found }
{
    match holding {
        None => found.held.is_none(),
        Some(h) => is_node(h.node, found.held) && found.offered == h.offered && found.same,
    }
}

fn is_node(node: u32, held: Option<u32>) -> bool
    ensures { result ≡ is_that_node node held }
{
    match held {
        None => false,
        Some(id) => id == node,
    }
}

// The node that a reply says was taken.
fn node_taken(reply: TableReply) -> Option<u32>
    ensures { result ≡ taken_node reply }
{
    match reply {
        TableReply::Taken(id) => Some(id),
        TableReply::Busy(_) => None,
        TableReply::Finished => None,
        TableReply::Added(_) => None,
        TableReply::Dominated(_) => None,
        TableReply::OutOfRange => None,
        TableReply::Closed => None,
        TableReply::Spent => None,
    }
}
