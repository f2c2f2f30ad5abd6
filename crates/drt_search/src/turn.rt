//! The turns of a worker.

ghost use Rattle.std.specs.Prelude.{◌≡◌, ℕ, ◌<◌, IfOk, IfNone, IfSome, IsTrue, None, Some, length, true};
ghost use Rattle.drt_model.specs.Digraph.{out_degree, IsSoundGraph};
ghost use Rattle.drt_pool.specs.Turns.{IsEndOfTurns};
ghost use Rattle.drt_table.specs.Machine.{Setting, extended};
ghost use Rattle.drt_shared.specs.Passes.{IsPassOf, HasMoved};
ghost use Rattle.drt_shared.specs.Replies.{ForReply};
ghost use Rattle.drt_search.specs.Turns.{turn_after, turn_by, turn_of, IsOfTurn};

use drt_demand::DemandLabel;
use drt_graph::Graph;
use drt_label::{Label, Memory};
use drt_model::Edge;
use drt_pool::{Turn, Work};
use drt_request::RequestLabel;
use drt_shared::{Pass, SharedReply, SharedTable};
use drt_table::{TableReply, Twin};
use std::alloc::Global;
use std::sync::Wait;

/// What a turn gave: the table's answer, none where the worker found no memory for a label and so halted the search, and
/// whether the worker is at its end.
#[derive(Clone, Copy, Debug)]
pub struct Turned {
    pub reply: Option<SharedReply>,
    pub turn: Turn,
}

/// One turn of a worker, by its pass to the table of a graph: it takes a node where it holds none, offers the label of the node
/// that it holds extended by the next out-edge, or closes the node. The label is made before the lock is taken. Where there
/// is no memory for it the search is halted.
pub fn take_turn<L: Label, R: Wait>(
    rt: &R,
    alloc: Global,
    graph: &Graph,
    shared: &SharedTable<L>,
    pass: &mut Pass<L>,
) -> Turned
    requires graph { graph.now ≡ shared.now.setting.graph }
    requires pass { IsPassOf L.algebra shared.now pass.old }
    ensures pass { IsPassOf L.algebra shared.now pass.new }
    ensures moved { IfSome result.reply (HasMoved pass.old pass.new) }
    ensures reply { IfSome result.reply (ForReply (IsOfTurn L.algebra shared.now.setting pass.old.holding)) }
    ensures halted { IfNone result.reply (pass.new ≡ record pass.old { halted = true }) }
    ensures turn { result.turn ≡ turn_of result.reply }
{
    let reply = make_step(rt, alloc, graph, shared, pass);
    Turned {
        reply,
        turn: turn_of(reply),
    }
}

// The one call of a turn.
fn make_step<L: Label, R: Wait>(
    rt: &R,
    alloc: Global,
    graph: &Graph,
    shared: &SharedTable<L>,
    pass: &mut Pass<L>,
) -> Option<SharedReply>
    requires graph { graph.now ≡ shared.now.setting.graph }
    requires pass { IsPassOf L.algebra shared.now pass.old }
    ensures pass { IsPassOf L.algebra shared.now pass.new }
    ensures moved { IfSome result (HasMoved pass.old pass.new) }
    ensures reply { IfSome result (ForReply (IsOfTurn L.algebra shared.now.setting pass.old.holding)) }
    ensures halted { IfNone result (pass.new ≡ record pass.old { halted = true }) }
{
    let edge = pass.offered();
    match pass.label() {
        None => Some(shared.take(rt, pass)),
        Some(label) => {
            if edge < graph.out_degree(label.vertex()) {
                match extended(alloc, graph, label, edge) {
                    Ok(twin) => Some(shared.offer(rt, pass, edge, twin)),
                    Err(_) => {
                        shared.halt(pass);
                        None
                    }
                }
            } else {
                Some(shared.close_node(rt, pass))
            }
        }
    }
}

// A label extended by an out-edge of its vertex.
fn extended<L: Label>(alloc: Global, graph: &Graph, label: &L, edge: u32) -> Result<Twin<L>, Memory>
    requires extendable { IsTrue (L.algebra.is_extendable label.now) }
    requires vertex { L.algebra.vertex label.now < length graph.now.vertices }
    requires edge { edge < out_degree graph.now (L.algebra.vertex label.now) }
    ensures { IfOk result (λ twin. (t : Setting) → t.graph ≡ graph.now → twin ≡ extended L.algebra t label.now edge) }
{
    graph.keep_limits();
    let Edge { from: _, to, sep } = *graph.out_edge(label.vertex(), edge);
    let wcet = graph.vertex(to).wcet;
    let longer = label.extend(alloc, sep, to, wcet)?;
    Twin::new(alloc, longer)
}

// Whether a turn with that outcome was the worker's last.
fn turn_of(reply: Option<SharedReply>) -> Turn
    ensures { result ≡ turn_of reply }
{
    match reply {
        None => Turn::Stop,
        Some(SharedReply::Step(step)) => turn_by(step),
        Some(SharedReply::Halted) => Turn::Stop,
        Some(SharedReply::Strange(_)) => Turn::Stop,
    }
}

fn turn_by(reply: TableReply) -> Turn
    ensures { result ≡ turn_by reply }
{
    match reply {
        TableReply::Taken(_) => Turn::More,
        TableReply::Busy(_) => Turn::More,
        TableReply::Finished => Turn::Stop,
        TableReply::Added(_) => Turn::More,
        TableReply::Dominated(_) => Turn::More,
        TableReply::OutOfRange => Turn::More,
        TableReply::Closed => Turn::More,
        TableReply::Spent => Turn::Stop,
    }
}

/// A kind of label whose searches workers can turn.
pub trait SharedLabel: Label {
    /// Turns a worker's pass once, as `take_turn` does.
    fn turn_pass<R: Wait>(
        rt: &R,
        alloc: Global,
        graph: &Graph,
        shared: &SharedTable<Self>,
        pass: &mut Pass<Self>,
    ) -> Turn
        requires graph { graph.now ≡ shared.now.setting.graph }
        requires pass { IsPassOf Self.algebra shared.now pass.old }
        ensures { IsPassOf Self.algebra shared.now pass.new };
}

impl SharedLabel for DemandLabel {
    fn turn_pass<R: Wait>(
        rt: &R,
        alloc: Global,
        graph: &Graph,
        shared: &SharedTable<DemandLabel>,
        pass: &mut Pass<DemandLabel>,
    ) -> Turn {
        take_turn(rt, alloc, graph, shared, pass).turn
    }
}

impl SharedLabel for RequestLabel {
    fn turn_pass<R: Wait>(
        rt: &R,
        alloc: Global,
        graph: &Graph,
        shared: &SharedTable<RequestLabel>,
        pass: &mut Pass<RequestLabel>,
    ) -> Turn {
        take_turn(rt, alloc, graph, shared, pass).turn
    }
}

/// A search of a graph's walks that workers turn.
#[derive(Drop)]
pub(crate) struct Search<'a, 'b, L: Label> {
    pub(crate) alloc: Global,
    pub(crate) graph: &'a Graph,
    pub(crate) shared: &'b SharedTable<L>,
}

impl<L: SharedLabel> Work for Search<'_, '_, L> {
    type Pass = Pass<L>;

    ghost fits = { λ search place pass. (search.graph.now ≡ search.shared.now.setting.graph) × IsPassOf L.algebra search.shared.now pass };

    ghost ended = { λ search place pass. Unit {0} };

    fn turn<R: Wait>(&self, rt: &R, pass: &mut Pass<L>) -> Turn {
        L::turn_pass(rt, self.alloc, self.graph, self.shared, pass)
    }
}
