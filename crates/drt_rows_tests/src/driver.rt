//! A driver of real tables by given calls, which looks at the conditions of each call.
ghost use Rattle.std.specs.Prelude.{◌≡◌, ℕ, ◌<◌, IfOk, IfSome, IsTrue};
ghost use Rattle.drt_model.specs.Digraph.{out_degree, vertex_count};
ghost use Rattle.drt_demand.specs.Demand.{demand_algebra};
ghost use Rattle.drt_table.specs.Machine.{Setting, extended};
ghost use Rattle.drt_table.specs.View.{CanApply, IsTableStep};

use drt_demand::DemandLabel;
use drt_graph::Graph;
use drt_label::{Label, Memory};
use drt_table::{Table, TableReply, TableStep, Twin};
use std::alloc::Global;

// The greatest offset of a label that may go on, 2^40 ticks.
const GREATEST_OFFSET: u64 = 1099511627776;

// Whether the worker may take: it holds no node.
fn may_take(table: &Table<DemandLabel>, worker: u32) -> bool
    ensures { IsTrue result → CanApply demand_algebra table.now worker TableStep.Take }
{
    match table.held_by(worker) {
        None => true,
        Some(_) => false,
    }
}

// Whether the worker may offer this edge of the node: it holds the node, and the edge is the next one.
fn may_offer(graph: &Graph, table: &Table<DemandLabel>, worker: u32, node: u32, edge: u32) -> bool
    requires { graph.now ≡ table.now.graph }
    ensures { IsTrue result → CanApply demand_algebra table.now worker (TableStep.Offer node edge) }
{
    match table.held_by(worker) {
        Some(held) if held == node => {}
        _ => return false,
    }
    let offered = table.node(node).offered();
    let label = *table.node(node).label();
    if edge != offered || label.vertex >= graph.vertex_count() {
        return false;
    }
    edge < graph.out_degree(label.vertex)
}

// Whether the worker may close the node: it holds the node, which has offered all its edges.
fn may_close(graph: &Graph, table: &Table<DemandLabel>, worker: u32, node: u32) -> bool
    requires { graph.now ≡ table.now.graph }
    ensures { IsTrue result → CanApply demand_algebra table.now worker (TableStep.Close node) }
{
    match table.held_by(worker) {
        Some(held) if held == node => {}
        _ => return false,
    }
    let offered = table.node(node).offered();
    let label = *table.node(node).label();
    if label.vertex >= graph.vertex_count() {
        return false;
    }
    offered == graph.out_degree(label.vertex)
}

// The label extended by the edge, where it may go on.
fn extended(
    alloc: Global,
    graph: &Graph,
    label: &DemandLabel,
    edge: u32,
) -> Result<Option<DemandLabel>, Memory>
    ensures { IfOk result (λ more. IfSome more (λ x. (t : Setting) → t.graph ≡ graph.now → x ≡ extended demand_algebra t label.now edge)) }
{
    let vertex = label.vertex();
    if vertex >= graph.vertex_count()
        || edge >= graph.out_degree(vertex)
        || label.offset() > GREATEST_OFFSET
    {
        return Ok(None);
    }
    let taken = graph.out_edge(vertex, edge);
    let wcet = graph.vertex(taken.to).wcet;
    Ok(Some(label.extend(alloc, taken.sep, taken.to, wcet)?))
}

// The offer of an edge, where the worker may make it.
fn try_offer(
    alloc: Global,
    graph: &Graph,
    table: &mut Table<DemandLabel>,
    worker: u32,
    node: u32,
    edge: u32,
) -> Result<Option<TableReply>, Memory>
    requires { graph.now ≡ table.old.graph }
    ensures graph { graph.now ≡ table.new.graph }
    ensures step { IfOk result (λ reply. IfSome reply (λ r. IsTableStep demand_algebra table.old table.new worker (TableStep.Offer node edge) r)) }
{
    if !may_offer(graph, table, worker, node, edge) {
        return Ok(None);
    }
    let label = *table.node(node).label();
    match extended(alloc, graph, &label, edge)? {
        None => Ok(None),
        Some(more) => {
            let twin = Twin::new(alloc, more)?;
            Ok(Some(table.apply(worker, TableStep::Offer { node, edge }, Some(twin))))
        }
    }
}

/// Makes a step of a worker where its conditions hold, and else none.
pub(crate) fn try_step(
    alloc: Global,
    graph: &Graph,
    table: &mut Table<DemandLabel>,
    worker: u32,
    step: TableStep,
) -> Result<Option<TableReply>, Memory>
    requires { graph.now ≡ table.old.graph }
    ensures graph { graph.now ≡ table.new.graph }
    ensures step { IfOk result (λ reply. IfSome reply (λ r. IsTableStep demand_algebra table.old table.new worker step r)) }
{
    match step {
        TableStep::Take => {
            if may_take(table, worker) {
                Ok(Some(table.apply(worker, TableStep::Take, None)))
            } else {
                Ok(None)
            }
        }
        TableStep::Offer { node, edge } => try_offer(alloc, graph, table, worker, node, edge),
        TableStep::Close { node } => {
            if may_close(graph, table, worker, node) {
                Ok(Some(table.apply(worker, TableStep::Close { node }, None)))
            } else {
                Ok(None)
            }
        }
    }
}
