//! The table and its steps.

ghost use Rattle.std.specs.Prelude.{◌≡◌, ℕ, ◌+◌, ◌≤◌, ◌<◌, ◌++◌, ◌∷◌, [], true, Some, slice_get, length, IfOk, IfSome, IsTrue, map, nat_le, replicate, vec_capacity};
ghost use Rattle.std.specs.Prelude.{None, if◌then◌else◌};
ghost use Rattle.drt_model.specs.Limits.{IsTime};
ghost use Rattle.drt_effort.specs.Efforts.{most_budget};
ghost use Rattle.drt_table.specs.View.{View, IsTable, setting_of, state_of, spares_of, CanApply, ComesWith, IsTableStep};
ghost use Rattle.drt_table.specs.Machine.{opening_state, extended};
ghost use Rattle.drt_worklist.specs.Places.{changed};
ghost use Rattle.drt_table.specs.Node.{NodeOf, Held, is_taken};
ghost use Rattle.drt_table.specs.Held.{hand_out};
ghost use Rattle.drt_table.specs.Taking.{take_reply, taken_node};
ghost use Rattle.drt_model.specs.Digraph.{vertex_count};

use crate::arena::Arena;
use crate::kept::Origin;
use crate::node::Twin;
use crate::shortest::shortest;
use crate::step::{Entry, TableReply, TableStep};
use drt_graph::Graph;
use drt_label::{Label, Memory};
use drt_worklist::push_within;
use std::alloc::Global;
use std::marker::Model;

/// The labels of in-range walks of one graph that were found so far, and the log of the steps that found them.
///
/// Any workers may step it in any order. Contracts see its graph, its bound (in ticks), its budget (in steps), its
/// nodes and its log. It keeps that the log is a run of the table machine, and that the state is the replay of the log.
#[derive(Drop)]
pub struct Table<L: Label> {
    pub(crate) graph: Graph,
    pub(crate) bound: u64,
    pub(crate) budget: u64,
    pub(crate) shortest: Option<u32>,
    pub(crate) arena: Arena<L>,
    pub(crate) log: Vec<Entry>,
}

impl<L: Label> Model for Table<L> {
    ghost use Rattle.std.specs.Prelude.{◌≡◌, ◌+◌, ◌≤◌, length, vec_capacity};
    ghost use Rattle.drt_table.specs.View.{View};
    ghost use Rattle.drt_table.specs.Machine.{shortest as shortest_of};

    ghost Value = { View L };

    ghost use Rattle.drt_table.specs.View.{IsTable};

    ghost view = { λ t. record { graph = t.graph; bound = t.bound; budget = t.budget; nodes = t.arena.nodes; log = t.log.items } };

    ghost invariant = { λ t.
        IsTable L.algebra (record { graph = t.graph; bound = t.bound; budget = t.budget; nodes = t.arena.nodes; log = t.log.items })
        × (t.arena.vertices ≡ length t.graph.vertices)
        × (length t.graph.vertices + t.budget ≤ t.arena.room)
        × (t.budget ≤ vec_capacity t.log)
        × (t.shortest ≡ shortest_of t.graph.out) };
}

// The opening label of a vertex, with a spare, where it is in range.
fn opening_twin<L: Label>(
    alloc: Global,
    v: u32,
    wcet: u32,
    deadline: u32,
    bound: u64,
) -> Result<Option<Twin<L>>, Memory>
    requires bound { IsTrue (L.algebra.takes_bound bound) }
    requires wcet { IsTime wcet }
    requires deadline { IsTime deadline }
    ensures { IfOk result (λ twin. twin ≡
        (if L.algebra.in_range (L.algebra.opening v wcet bound) deadline bound then Some (L.algebra.opening v wcet bound) else None)) }
{
    let label = L::opening(alloc, v, wcet, bound)?;
    if label.in_range(deadline, bound) {
        Ok(Some(Twin::new(alloc, label)?))
    } else {
        Ok(None)
    }
}

// The opening nodes, in an arena with room for `budget` more.
fn opening_arena<L: Label>(
    alloc: Global,
    graph: &Graph,
    bound: u64,
    budget: u64,
) -> Result<Arena<L>, Memory>
    requires bound { IsTrue (L.algebra.takes_bound bound) }
    requires budget { budget ≤ most_budget }
    ensures nodes { IfOk result (λ arena. map (λ h. h.node) arena.nodes ≡ (opening_state L.algebra (record { graph = graph.now; bound = bound; budget = budget })).nodes) }
    ensures spares { IfOk result (λ arena. map (λ h. h.spare) arena.nodes ≡ replicate (length arena.nodes) true) }
    ensures vertices { IfOk result (λ arena. arena.vertices ≡ vertex_count graph.now) }
    ensures room { IfOk result (λ arena. arena.room ≡ vertex_count graph.now + budget) }
{
    let count = graph.vertex_count();
    let mut arena = Arena::new(alloc, count, count as usize + budget as usize)?;
    for v in 0..count {
        let vertex = graph.vertex(v);
        if let Some(twin) = opening_twin(alloc, v, vertex.wcet, vertex.deadline, bound)? {
            arena.open(twin);
        }
    }
    Ok(arena)
}

impl<L: Label> Table<L> {
    /// A table with the opening labels of the graph's vertices. It keeps a copy of the graph and takes all room for its
    /// nodes and its log here, so that its steps take none. The bound is in ticks, and the budget is how many steps the
    /// log may have.
    pub fn start(alloc: Global, graph: &Graph, bound: u64, budget: u64) -> Result<Table<L>, Memory>
        requires bound { IsTrue (L.algebra.takes_bound bound) }
        requires budget { (1 ≤ budget) × (budget ≤ most_budget) }
        ensures setting { IfOk result (λ table. setting_of table ≡ record { graph = graph.now; bound = bound; budget = budget }) }
        ensures state { IfOk result (λ table. state_of table ≡ opening_state L.algebra (record { graph = graph.now; bound = bound; budget = budget })) }
        ensures spares { IfOk result (λ table. spares_of table ≡ replicate (length table.nodes) true) }
    {
        graph.keep_limits();
        let shortest = shortest(graph);
        let log = Vec::with_capacity(alloc, budget as usize)?;
        let own = graph.copy(alloc)?;
        let arena = opening_arena(alloc, graph, bound, budget)?;
        Ok(Table {
            graph: own,
            bound,
            budget,
            shortest,
            arena,
            log,
        })
    }

    /// One step of the machine by a worker: it takes the next node, offers the label of a node that it holds extended by
    /// its next out-edge, or closes a node all whose out-edges were offered. It takes no memory.
    pub fn apply(&mut self, worker: u32, step: TableStep, label: Option<Twin<L>>) -> TableReply
        requires can { CanApply L.algebra self.old worker step }
        requires comes { ComesWith L.algebra self.old step label }
        ensures { IsTableStep L.algebra self.old self.new worker step result }
    {
        match step {
            TableStep::Take => self.take(worker),
            TableStep::Offer { node, edge } => match label {
                Some(twin) => self.offer(worker, node, edge, twin),
                None => unreachable!(),
            },
            TableStep::Close { node } => self.close(worker, node),
        }
    }

    /// The label of a taken node once more, made of the node's spare, which the node then lacks. Nothing else changes, and it
    /// takes no memory.
    pub fn hand_out(&mut self, id: u32) -> L
        requires { (h : Held _) × (slice_get self.old.nodes id ≡ Some h) × IsTrue h.spare × IsTrue (is_taken h.node) }
        ensures setting { setting_of self.new ≡ setting_of self.old }
        ensures log { self.new.log ≡ self.old.log }
        ensures nodes { self.new.nodes ≡ changed id hand_out self.old.nodes }
        ensures label { IfSome (slice_get self.old.nodes id) (λ h. result ≡ h.node.label) }
    {
        self.arena.hand_out(id)
    }

    // The step Take.
    pub(crate) fn take(&mut self, worker: u32) -> TableReply
        requires { CanApply L.algebra self.old worker TableStep.Take }
        ensures { IsTableStep L.algebra self.old self.new worker TableStep.Take result }
    {
        let next = self.arena.next();
        let holder = self.arena.holder();
        let soon = self.arena.is_soon(next, holder, self.shortest, self.bound);
        let full = reaches(self.log.len() as u64, self.budget);
        let reply = choose(next, holder, full, soon);
        match taken_by(reply) {
            None => reply,
            Some(id) => {
                self.arena.take_by(id, worker);
                push_within(
                    &mut self.log,
                    Entry {
                        worker,
                        step: TableStep::Take,
                    },
                );
                TableReply::Taken(id)
            }
        }
    }

    // The step Offer, with the node's label extended by the edge.
    pub(crate) fn offer(&mut self, worker: u32, node: u32, edge: u32, twin: Twin<L>) -> TableReply
        requires can { CanApply L.algebra self.old worker (TableStep.Offer node edge) }
        requires comes { (n : NodeOf L) × (slice_get (state_of self.old).nodes node ≡ Some n) × (twin ≡ extended L.algebra (setting_of self.old) n.label edge) }
        ensures { IsTableStep L.algebra self.old self.new worker (TableStep.Offer node edge) result }
    {
        if self.log.len() as u64 >= self.budget {
            return TableReply::Spent;
        }
        let origin = Origin {
            parent: node,
            deadline: self.graph.vertex(twin.label.vertex()).deadline,
            bound: self.bound,
        };
        self.arena.count_offer(node);
        let reply = self.arena.place(twin, origin);
        push_within(
            &mut self.log,
            Entry {
                worker,
                step: TableStep::Offer { node, edge },
            },
        );
        reply
    }

    // The step Close.
    pub(crate) fn close(&mut self, worker: u32, node: u32) -> TableReply
        requires { CanApply L.algebra self.old worker (TableStep.Close node) }
        ensures { IsTableStep L.algebra self.old self.new worker (TableStep.Close node) result }
    {
        if self.log.len() as u64 >= self.budget {
            return TableReply::Spent;
        }
        self.arena.close(node);
        push_within(
            &mut self.log,
            Entry {
                worker,
                step: TableStep::Close { node },
            },
        );
        TableReply::Closed
    }
}

fn reaches(count: u64, budget: u64) -> bool
    ensures { result ≡ nat_le budget count }
{
    count >= budget
}

// The reply to Take, by the next node and the holder.
fn choose(next: Option<u32>, holder: Option<u32>, full: bool, soon: bool) -> TableReply
    ensures { result ≡ take_reply next holder full soon }
{
    match (next, holder) {
        (None, None) => TableReply::Finished,
        (None, Some(id)) => {
            if full {
                TableReply::Spent
            } else {
                TableReply::Busy(id)
            }
        }
        (Some(id), None) => {
            if full {
                TableReply::Spent
            } else {
                TableReply::Taken(id)
            }
        }
        (Some(id), Some(other)) => {
            if full {
                TableReply::Spent
            } else if soon {
                TableReply::Taken(id)
            } else {
                TableReply::Busy(other)
            }
        }
    }
}

// The node that a reply says was taken.
fn taken_by(reply: TableReply) -> Option<u32>
    ensures { result ≡ taken_node reply }
{
    match reply {
        TableReply::Taken(id) => Some(id),
        TableReply::Busy(_) => None,
        TableReply::Finished => None,
        TableReply::Added(_) => None,
        TableReply::Dominated(_) => None,
        TableReply::OutOfRange => None,
        TableReply::Closed => None,
        TableReply::Spent => None,
    }
}
