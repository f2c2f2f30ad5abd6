//! The shared frontier.

ghost use Rattle.std.specs.Prelude.{◌≡◌, ℕ, ◌+◌, ◌^◌, ◌<◌, ◌≤◌, IfOk, IsTrue, MatchBool, None, Some, length};
ghost use Rattle.drt_model.specs.Numbers.{most_time};
ghost use Rattle.drt_lock.specs.Seats.{IsAtWork, HoldsMachine};
ghost use Rattle.drt_pool.specs.Turns.{EachPlace};
ghost use Rattle.drt_refine.specs.Eager.{IsEager};
ghost use Rattle.drt_refine.specs.Facts.{AreInPlace};
ghost use Rattle.drt_refine.specs.View.{IsFrontier, setting_of};
ghost use Rattle.drt_refine.specs.declared.step.FrontierStep.TheVariants.{Take};
ghost use Rattle.drt_steps.specs.Time.{AreChosen};
ghost use Rattle.drt_worklist.specs.Places.{total};
ghost use Rattle.drt_frontier_board.specs.FrontierBoard.{BoardOf, terms_of, CanMake, CanSettle, IsFrontierCall};
ghost use Rattle.drt_frontier_board.specs.Finds.{FrontierDiffersIfStrange};
ghost use Rattle.drt_shared_frontier.specs.Passes.{IsPassOfFrontier, IsNewPass, HasMoved};
ghost use Rattle.drt_frontier_board.specs.Replies.{ForFrontierReply, IsReplyTo, frontier_logged, held_after, held_by};

use crate::pass::FrontierPass;
use crate::passes::{deal, gather};
use atomic_table::Seat;
use drt_effort::Effort;
use drt_frontier_board::{FrontierAnswer, FrontierBoard, Terms, is_number};
use drt_lock::{Kept, Lock, SeatView};
use drt_model::{Memory, Row};
use drt_refine::{Frontier, FrontierReply, FrontierStep, choose_place};
use drt_steps::least_time;
use drt_tree::Forest;
use std::alloc::Global;
use std::marker::Model;
use std::snapshot::Snapshot;
use std::sync::Wait;

/// A frontier that several workers step, each through a pass. Contracts see its name, what it was started with (its forest, roots,
/// wcet, deadline and budget), and how many passes it has. Whenever its lock is free the frontier's state is the replay of its log,
/// which is eager, from the opening state of the start.
#[derive(Drop)]
pub struct SharedFrontier {
    lock: Lock<FrontierBoard>,
    // The seat with the parts that no pass has.
    owner: Kept<Seat<FrontierBoard, SeatView<Terms>>>,
    passes: u32,
    wcet: u32,
    deadline: u32,
}

impl Model for SharedFrontier {
    ghost use Rattle.drt_shared_frontier.specs.Passes.{SharedFrontierOf};
    ghost use Rattle.drt_shared_frontier.specs.Shared.{IsFrontierOwner, IsStarted};

    ghost Value = { SharedFrontierOf };

    ghost view = { λ s. record { name = s.lock.name; setting = s.lock.fixed; passes = s.passes } };

    ghost invariant = { λ s. IsFrontierOwner s.lock.name s.lock.fixed s.passes s.owner × IsStarted s.lock.fixed s.wcet s.deadline };
}

impl SharedFrontier {
    /// A frontier in its opening state, and a pass for each worker, numbered by their places. All room is taken here, so that no step
    /// takes memory. The wcet and the deadline are in ticks, and the effort's budget is how many steps the log may have.
    pub fn start(
        alloc: Global,
        forest: &Forest,
        roots: &[u32],
        wcet: u32,
        deadline: u32,
        effort: Effort,
    ) -> Result<(SharedFrontier, Row<FrontierPass>), Memory>
        requires few { length roots.now ≤ 31 }
        requires roots { AreChosen deadline forest.now.pool roots.now }
        requires wcet { (1 ≤ wcet) × (wcet ≤ most_time) }
        requires deadline { (1 ≤ deadline) × (deadline ≤ most_time) }
        ensures setting { IfOk result (λ r. r.0.setting
            ≡ record { forest = forest.now; roots = roots.now; wcet = wcet; deadline = deadline; budget = effort.budget }) }
        ensures count { IfOk result (λ r. (r.0.passes ≡ effort.workers) × (length r.1 ≡ effort.workers)) }
        ensures passes { IfOk result (λ r. EachPlace (IsNewPass r.0) r.1) }
    {
        let passes = effort.workers();
        let frontier = Frontier::start(alloc, forest, roots, wcet, deadline, effort.budget())?;
        let terms = Terms::new(forest, &frontier);
        let board = FrontierBoard::new(forest, frontier);
        let (lock, mut owner) = Lock::new(alloc, board, Snapshot::of(&terms))?;
        let given = deal(alloc, &lock, &mut owner, roots, passes)?;
        let owner = Kept::new(alloc, owner)?;
        let shared = SharedFrontier {
            lock,
            owner,
            passes,
            wcet,
            deadline,
        };
        Ok((shared, Row::from_vec(given)))
    }

    /// Takes the next combination, for a pass that holds none. With the combination comes a copy of its nodes.
    pub fn take<R: Wait>(&self, rt: &R, forest: &Forest, pass: &mut FrontierPass) -> FrontierAnswer
        requires forest { forest.now ≡ self.now.setting.forest }
        requires pass { IsPassOfFrontier self.now pass.old }
        requires free { pass.old.held ≡ None }
        ensures pass { IsPassOfFrontier self.now pass.new }
        ensures moved { HasMoved pass.old pass.new result }
        ensures reply { ForFrontierReply (IsReplyTo Take) result }
        ensures strange { FrontierDiffersIfStrange pass.old.held result }
    {
        self.step(rt, forest, pass, FrontierStep::Take)
    }

    /// Settles the combination that the pass holds: it passes with the least time that passes for the pass's copy of its nodes;
    /// where none does it is split at the widest place of the copy, and it fails where the copy's nodes are leaves.
    pub fn settle<R: Wait>(
        &self,
        rt: &R,
        forest: &Forest,
        pass: &mut FrontierPass,
        step: FrontierStep,
    ) -> FrontierAnswer
        requires forest { forest.now ≡ self.now.setting.forest }
        requires pass { IsPassOfFrontier self.now pass.old }
        requires settles { CanSettle self.now.setting pass.old.held pass.old.nodes step }
        ensures pass { IsPassOfFrontier self.now pass.new }
        ensures moved { HasMoved pass.old pass.new result }
        ensures reply { ForFrontierReply (IsReplyTo step) result }
        ensures strange { FrontierDiffersIfStrange pass.old.held result }
    {
        self.step(rt, forest, pass, step)
    }

    /// The frontier. Its log is an eager run and has exactly as many entries as the passes count together.
    pub fn finish(self, passes: Row<FrontierPass>) -> Frontier
        requires count { length passes ≡ self.passes }
        requires passes { EachPlace (λ place p. IsPassOfFrontier self p) passes }
        ensures setting { setting_of self.setting.forest result ≡ self.setting }
        ensures log { length result.log ≡ total (λ p. p.count) passes }
        ensures run { IsFrontier self.setting.forest result }
        ensures eager { IsEager self.setting result.log }
    {
        let SharedFrontier { lock, owner, .. } = self;
        gather(lock, owner.into_inner(), passes.into_vec())
    }

    /// The step that settles the combination that the pass holds, found on the pass's copy and without the lock.
    pub fn choose_step(&self, forest: &Forest, pass: &FrontierPass) -> FrontierStep
        requires forest { forest.now ≡ self.now.setting.forest }
        requires pass { IsPassOfFrontier self.now pass.now }
        requires holds { (id : ℕ) × (pass.now.held ≡ Some id) }
        ensures { CanSettle self.now.setting pass.now.held pass.now.nodes result }
    {
        match pass.held {
            None => unreachable!(),
            Some(id) => self.settling_step(forest, id, pass.nodes.as_slice()),
        }
    }

    // The step that settles a combination of these nodes.
    fn settling_step(&self, forest: &Forest, id: u32, nodes: &[u32]) -> FrontierStep
        requires forest { forest.now ≡ self.now.setting.forest }
        requires nodes { AreInPlace self.now.setting nodes.now }
        ensures { CanSettle self.now.setting (Some id) nodes.now result }
    {
        match least_time(self.wcet as u64, self.deadline as u64, forest.all(), nodes) {
            Some(time) => FrontierStep::Pass { id, time },
            None => match choose_place(forest, nodes) {
                Some(place) => FrontierStep::Split { id, place },
                None => FrontierStep::Fail { id },
            },
        }
    }
}

impl SharedFrontier {
    // One call: it waits for the lock, looks whether the pass agrees with the frontier, makes the step, and counts it where it is
    // logged.
    fn step<R: Wait>(
        &self,
        rt: &R,
        forest: &Forest,
        pass: &mut FrontierPass,
        step: FrontierStep,
    ) -> FrontierAnswer
        requires forest { forest.now ≡ self.now.setting.forest }
        requires pass { IsPassOfFrontier self.now pass.old }
        requires can { CanMake self.now.setting pass.old.held pass.old.nodes step }
        ensures pass { IsPassOfFrontier self.now pass.new }
        ensures moved { HasMoved pass.old pass.new result }
        ensures reply { ForFrontierReply (IsReplyTo step) result }
        ensures strange { FrontierDiffersIfStrange pass.old.held result }
    {
        self.lock.enter(rt, &mut pass.seat);
        let answer = self.act(
            &mut pass.seat,
            forest,
            pass.number,
            pass.held,
            &mut pass.nodes,
            step,
        );
        pass.count += self.tally(&mut pass.seat, pass.held, answer);
        self.lock.leave(&mut pass.seat);
        pass.held = held_after(pass.held, answer);
        answer
    }

    // The call on the frontier that is out with the seat.
    fn act(
        &self,
        seat: &mut Seat<FrontierBoard, SeatView<Terms>>,
        forest: &Forest,
        worker: u32,
        held: Option<u32>,
        nodes: &mut Vec<u32>,
        step: FrontierStep,
    ) -> FrontierAnswer
        requires name { seat.old.table_id ≡ self.now.name }
        requires machine { (y : BoardOf) × HoldsMachine y seat.old.me × (terms_of y ≡ self.now.setting) }
        requires forest { forest.now ≡ self.now.setting.forest }
        requires nodes { AreInPlace self.now.setting nodes.old.items }
        requires can { CanMake self.now.setting held nodes.old.items step }
        ensures name { (seat.new.table_id ≡ seat.old.table_id) × (seat.new.me.0 ≡ seat.old.me.0) }
        ensures machine { (y : BoardOf) → HoldsMachine y seat.old.me → (z : BoardOf) × HoldsMachine z seat.new.me × IsFrontierCall y z worker held nodes.old.items nodes.new.items step result }
    {
        let board = seat.slot_mut(self.lock.slots(), 0);
        board.call(forest, worker, held, nodes, step)
    }

    // Counts the step where it is logged, and answers how many were.
    fn tally(
        &self,
        seat: &mut Seat<FrontierBoard, SeatView<Terms>>,
        held: Option<u32>,
        answer: FrontierAnswer,
    ) -> u64
        requires name { seat.old.table_id ≡ self.now.name }
        requires work { IsAtWork seat.old.me.0 × (seat.old.me.0.read + frontier_logged held answer < 2 ^ 64) }
        ensures result { result ≡ frontier_logged held answer }
        ensures name { seat.new.table_id ≡ seat.old.table_id }
        ensures knows { (seat.new.me.0.fixed ≡ seat.old.me.0.fixed) × (seat.new.me.0.parts ≡ seat.old.me.0.parts) × (seat.new.me.0.count ≡ seat.old.me.0.count + frontier_logged held answer) }
        ensures work { IsAtWork seat.new.me.0 × (seat.new.me.0.read ≡ seat.old.me.0.read + frontier_logged held answer) }
        ensures machine { seat.new.me.1 ≡ seat.old.me.1 }
    {
        if is_logged(held, answer) {
            self.lock.count(seat);
            1
        } else {
            0
        }
    }
}

// Whether the answer is a reply to a step that is logged.
fn is_logged(held: Option<u32>, answer: FrontierAnswer) -> bool
    ensures { MatchBool result (frontier_logged held answer ≡ 1) (frontier_logged held answer ≡ 0) }
{
    match answer {
        FrontierAnswer::Step(FrontierReply::Taken(_)) => true,
        FrontierAnswer::Step(FrontierReply::Busy(_)) => false,
        FrontierAnswer::Step(FrontierReply::Finished) => false,
        FrontierAnswer::Step(FrontierReply::Passed) => true,
        FrontierAnswer::Step(FrontierReply::Halved(_, _)) => true,
        FrontierAnswer::Step(FrontierReply::Failed(id)) => is_number(id, held),
        FrontierAnswer::Step(FrontierReply::Spent) => false,
        FrontierAnswer::Strange(_) => false,
    }
}

// What a pass holds after an answer.
fn held_after(held: Option<u32>, answer: FrontierAnswer) -> Option<u32>
    ensures { result ≡ held_after held answer }
{
    match answer {
        FrontierAnswer::Step(reply) => held_by(held, reply),
        FrontierAnswer::Strange(_) => held,
    }
}

// What it holds after a reply of the frontier.
fn held_by(held: Option<u32>, reply: FrontierReply) -> Option<u32>
    ensures { result ≡ held_by held reply }
{
    match reply {
        FrontierReply::Taken(id) => Some(id),
        FrontierReply::Busy(_) => held,
        FrontierReply::Finished => held,
        FrontierReply::Passed => None,
        FrontierReply::Halved(_, _) => None,
        FrontierReply::Failed(id) => { if is_number(id, held) { None } else { held } }
        FrontierReply::Spent => held,
    }
}
