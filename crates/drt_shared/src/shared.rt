//! The shared table.

ghost use Rattle.std.specs.Prelude.{◌≡◌, ℕ, ◌+◌, ◌^◌, ◌<◌, ◌≤◌, IfOk, IsTrue, MatchBool, true, None, Some, length, option_map};
ghost use Rattle.drt_effort.specs.Efforts.{most_budget};
ghost use Rattle.drt_lock.specs.Seats.{IsAtWork, HoldsMachine};
ghost use Rattle.drt_pool.specs.Turns.{EachPlace};
ghost use Rattle.drt_table.specs.View.{View, IsTable, setting_of};
ghost use Rattle.drt_worklist.specs.Places.{total};
ghost use Rattle.drt_shared.specs.TableBoard.{CanMove, CanCount, IsCall, IsReplyTo};
ghost use Rattle.drt_table.specs.Machine.{Setting};
ghost use Rattle.drt_shared.specs.Finds.{DiffersIfStrange};
ghost use Rattle.drt_shared.specs.Passes.{IsPassOf, IsNewPass, CanOffer, AreHeld, HasMoved, holding_after, holding_by, one_more, is_any_halted as any_halted};
ghost use Rattle.drt_shared.specs.Replies.{ForReply, IsOfTake, IsOfOffer, IsOfClose, logged};
ghost use Rattle.drt_shared.specs.declared.pass.Holding.{Holding};
ghost use Rattle.drt_model.specs.Digraph.{out_degree};

use crate::board::TableBoard;
use crate::pass::{Holding, Pass};
use crate::passes::{deal, gather, is_any_halted};
use crate::reply::{Move, SharedReply};
use crate::terms::Terms;
use atomic_table::Seat;
use drt_graph::Graph;
use drt_label::{Label, Memory};
use drt_lock::{Kept, Lock, SeatView};
use drt_model::Row;
use drt_table::{Table, TableReply, Twin};
use std::alloc::Global;
use std::marker::Model;
use std::snapshot::Snapshot;
use std::sync::Wait;
use std::sync::atomic::{AtomicBool, Ordering};

/// A table that several workers step, each through a pass. Contracts see its name, what it was started with, and how many
/// passes it has. Whenever its lock is free the table's state is the replay of its log, from the opening state of the start.
#[derive(Drop)]
pub struct SharedTable<L: Label> {
    lock: Lock<TableBoard<L>>,
    // The seat with the parts that no pass has.
    owner: Kept<Seat<TableBoard<L>, SeatView<Terms>>>,
    passes: u32,
    // The mark of `halt`.
    halted: AtomicBool,
}

impl<L: Label> Model for SharedTable<L> {
    ghost use Rattle.drt_shared.specs.Passes.{SharedOf};
    ghost use Rattle.drt_shared.specs.Shared.{IsOwner};

    ghost Value = { SharedOf };

    ghost view = { λ s. record { name = s.lock.name; setting = s.lock.fixed; passes = s.passes } };

    ghost invariant = { λ s. IsOwner s.lock.name s.lock.fixed s.passes s.owner };
}

/// What `finish` gives: the table, and whether the search was halted.
#[derive(Drop)]
pub struct SharedEnd<L: Label> {
    pub table: Table<L>,
    pub halted: bool,
}

impl<L: Label> SharedTable<L> {
    /// A table in its opening state, and so many passes, numbered by their places. All room is taken here, so that no step takes
    /// memory. The bound is in ticks, and the budget is how many steps the log may have.
    pub fn start(
        alloc: Global,
        graph: &Graph,
        bound: u64,
        budget: u64,
        passes: u32,
    ) -> Result<(SharedTable<L>, Row<Pass<L>>), Memory>
        requires bound { IsTrue (L.algebra.takes_bound bound) }
        requires budget { (1 ≤ budget) × (budget ≤ most_budget) }
        requires passes { (1 ≤ passes) × (passes ≤ 16) }
        ensures setting { IfOk result (λ r. r.0.setting ≡ record { graph = graph.now; bound = bound; budget = budget }) }
        ensures count { IfOk result (λ r. (r.0.passes ≡ passes) × (length r.1 ≡ passes)) }
        ensures passes { IfOk result (λ r. EachPlace (IsNewPass L.algebra r.0) r.1) }
    {
        let board = TableBoard::start(alloc, graph, bound, budget)?;
        let terms = Terms::new(graph, bound, budget);
        let mut given = Vec::with_capacity(alloc, passes as usize)?;
        let (lock, mut owner) = Lock::new(alloc, board, Snapshot::of(&terms))?;
        deal(&lock, &mut owner, &mut given, passes);
        let owner = Kept::new(alloc, owner)?;
        let shared = SharedTable {
            lock,
            owner,
            passes,
            halted: AtomicBool::new(false),
        };
        Ok((shared, Row::from_vec(given)))
    }

    /// Takes the next node, for a pass that holds none. With the node comes its label.
    pub fn take<R: Wait>(&self, rt: &R, pass: &mut Pass<L>) -> SharedReply
        requires pass { IsPassOf L.algebra self.now pass.old }
        requires free { pass.old.holding ≡ None }
        ensures pass { IsPassOf L.algebra self.now pass.new }
        ensures moved { HasMoved pass.old pass.new result }
        ensures reply { ForReply IsOfTake result }
        ensures strange { DiffersIfStrange pass.old.holding result }
    {
        self.step(rt, pass, Move::Take)
    }

    /// Offers a label for the next out-edge of the node that the pass holds: that node's label, extended by the edge.
    pub fn offer<R: Wait>(
        &self,
        rt: &R,
        pass: &mut Pass<L>,
        edge: u32,
        label: Twin<L>,
    ) -> SharedReply
        requires pass { IsPassOf L.algebra self.now pass.old }
        requires holds { (h : Holding L) × (pass.old.holding ≡ Some h) × CanOffer L.algebra self.now.setting h edge label }
        ensures pass { IsPassOf L.algebra self.now pass.new }
        ensures moved { HasMoved pass.old pass.new result }
        ensures reply { ForReply IsOfOffer result }
        ensures strange { DiffersIfStrange pass.old.holding result }
    {
        self.step(rt, pass, Move::Offer { edge, label })
    }

    /// Closes the node that the pass holds, all whose out-edges were offered.
    pub fn close_node<R: Wait>(&self, rt: &R, pass: &mut Pass<L>) -> SharedReply
        requires pass { IsPassOf L.algebra self.now pass.old }
        requires holds { (h : Holding L) × (pass.old.holding ≡ Some h) × (h.offered ≡ out_degree self.now.setting.graph (L.algebra.vertex h.label)) }
        ensures pass { IsPassOf L.algebra self.now pass.new }
        ensures moved { HasMoved pass.old pass.new result }
        ensures reply { ForReply IsOfClose result }
        ensures strange { DiffersIfStrange pass.old.holding result }
    {
        self.step(rt, pass, Move::Close)
    }

    /// Halts the search: from now on no call makes a step. A worker calls it where the making of a label was refused memory.
    pub fn halt(&self, pass: &mut Pass<L>)
        ensures { pass.new ≡ record pass.old { halted = true } }
    {
        self.halted.store(true, Ordering::SeqCst);
        pass.halted = true;
    }

    /// The table. Its log is a run and has exactly as many entries as the passes count together, and the search was halted
    /// exactly where `halt` was called with one of the passes.
    pub fn finish(self, passes: Row<Pass<L>>) -> SharedEnd<L>
        requires count { length passes ≡ self.passes }
        requires passes { EachPlace (λ place p. IsPassOf L.algebra self p) passes }
        ensures setting { setting_of result.table ≡ self.setting }
        ensures log { length result.table.log ≡ total (λ p. p.count) passes }
        ensures run { IsTable L.algebra result.table }
        ensures halted { result.halted ≡ any_halted passes }
    {
        let halted = is_any_halted(passes.as_slice());
        let SharedTable { lock, owner, .. } = self;
        let table = gather(lock, owner.into_inner(), passes.into_vec());
        SharedEnd { table, halted }
    }
}

impl<L: Label> SharedTable<L> {
    // One call: it waits for the lock, looks whether the pass agrees with the table, makes the move, and counts what is logged.
    fn step<R: Wait>(&self, rt: &R, pass: &mut Pass<L>, wanted: Move<Twin<L>>) -> SharedReply
        requires pass { IsPassOf L.algebra self.now pass.old }
        requires can { CanMove L.algebra self.now.setting pass.old.holding wanted }
        ensures pass { IsPassOf L.algebra self.now pass.new }
        ensures moved { HasMoved pass.old pass.new result }
        ensures reply { ForReply (IsReplyTo wanted) result }
        ensures strange { DiffersIfStrange pass.old.holding result }
    {
        self.lock.enter(rt, &mut pass.seat);
        let (reply, taken) = self.act(&mut pass.seat, pass.number, &pass.holding, wanted);
        pass.count += self.tally(&mut pass.seat, reply);
        self.lock.leave(&mut pass.seat);
        hold(&mut pass.holding, reply, taken);
        reply
    }

    // The call on the table that is out with the seat.
    fn act(
        &self,
        seat: &mut Seat<TableBoard<L>, SeatView<Terms>>,
        worker: u32,
        holding: &Option<Holding<L>>,
        wanted: Move<Twin<L>>,
    ) -> (SharedReply, Option<Holding<L>>)
        requires name { seat.old.table_id ≡ self.now.name }
        requires machine { (y : View L) × HoldsMachine y seat.old.me × (setting_of y ≡ self.now.setting) }
        requires held { AreHeld L.algebra self.now.setting holding.now }
        requires can { CanMove L.algebra self.now.setting holding.now wanted }
        ensures name { (seat.new.table_id ≡ seat.old.table_id) × (seat.new.me.0 ≡ seat.old.me.0) }
        ensures machine { (y : View L) → HoldsMachine y seat.old.me → (z : View L) × HoldsMachine z seat.new.me × IsCall L.algebra y z holding.now wanted result.0 result.1 }
    {
        let is_halted = self.halted.load(Ordering::SeqCst);
        let board = seat.slot_mut(self.lock.slots(), 0);
        board.call(is_halted, worker, holding, wanted)
    }

    // Counts the step where it is logged, and answers how many were.
    fn tally(&self, seat: &mut Seat<TableBoard<L>, SeatView<Terms>>, reply: SharedReply) -> u64
        requires name { seat.old.table_id ≡ self.now.name }
        requires work { IsAtWork seat.old.me.0 × (seat.old.me.0.read + logged reply < 2 ^ 64) }
        ensures result { result ≡ logged reply }
        ensures name { seat.new.table_id ≡ seat.old.table_id }
        ensures knows { (seat.new.me.0.fixed ≡ seat.old.me.0.fixed) × (seat.new.me.0.parts ≡ seat.old.me.0.parts) × (seat.new.me.0.count ≡ seat.old.me.0.count + logged reply) }
        ensures work { IsAtWork seat.new.me.0 × (seat.new.me.0.read ≡ seat.old.me.0.read + logged reply) }
        ensures machine { seat.new.me.1 ≡ seat.old.me.1 }
    {
        if is_logged(reply) {
            self.lock.count(seat);
            1
        } else {
            0
        }
    }
}

// Whether the answer is a reply that the table logs.
fn is_logged(reply: SharedReply) -> bool
    ensures { MatchBool result (logged reply ≡ 1) (logged reply ≡ 0) }
{
    match reply {
        SharedReply::Step(TableReply::Taken(_)) => true,
        SharedReply::Step(TableReply::Busy(_)) => false,
        SharedReply::Step(TableReply::Finished) => false,
        SharedReply::Step(TableReply::Added(_)) => true,
        SharedReply::Step(TableReply::Dominated(_)) => true,
        SharedReply::Step(TableReply::OutOfRange) => true,
        SharedReply::Step(TableReply::Closed) => true,
        SharedReply::Step(TableReply::Spent) => false,
        SharedReply::Halted => false,
        SharedReply::Strange(_) => false,
    }
}

// What a pass holds after an answer.
fn hold<L: Label>(holding: &mut Option<Holding<L>>, reply: SharedReply, taken: Option<Holding<L>>)
    requires { (setting : Setting) × ForReply (λ r. CanCount L.algebra setting r holding.old) reply }
    ensures { holding.new ≡ holding_after reply holding.old taken }
{
    match reply {
        SharedReply::Step(step) => hold_by(holding, step, taken),
        SharedReply::Halted => {}
        SharedReply::Strange(_) => {}
    }
}

// What it holds after a reply of the table.
fn hold_by<L: Label>(holding: &mut Option<Holding<L>>, reply: TableReply, taken: Option<Holding<L>>)
    requires { (setting : Setting) × CanCount L.algebra setting reply holding.old }
    ensures { holding.new ≡ holding_by reply holding.old taken }
{
    match reply {
        TableReply::Taken(_) => *holding = taken,
        TableReply::Busy(_) => {}
        TableReply::Finished => {}
        TableReply::Added(_) => count_offer(holding),
        TableReply::Dominated(_) => count_offer(holding),
        TableReply::OutOfRange => count_offer(holding),
        TableReply::Closed => *holding = None,
        TableReply::Spent => {}
    }
}

// One more out-edge was offered.
fn count_offer<L: Label>(holding: &mut Option<Holding<L>>)
    requires { (h : Holding L) → holding.old ≡ Some h → h.offered < 1000 }
    ensures { holding.new ≡ option_map one_more holding.old }
{
    if let Some(h) = holding {
        h.offered += 1;
    }
}
