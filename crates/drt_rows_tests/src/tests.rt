ghost use Rattle.std.specs.Prelude.{◌≡◌, ◌<◌, ◌≤◌, IfOk};
ghost use Rattle.drt_model.specs.Digraph.{vertex_count};

use crate::driver::try_step;
use drt_demand::{DemandLabel, dbf};
use drt_fixtures::make_set;
use drt_fixtures::shapes::RETURNING;
use drt_graph::{FrontEntry, Graph, check};
use drt_model::Memory;
use drt_table::{Entry, Node, NodeState, Table, TableReply, TableStep};
use std::alloc::Global;
use std::test::Fail;

// A call: the worker, its step, and the reply that is wanted.
type Call = (u32, TableStep, TableReply);

const TAKE: TableStep = TableStep::Take;

// The graph of the one task that both rows are of.
fn make_graph(alloc: Global) -> Result<Graph, Fail> {
    let set = make_set(alloc, &[RETURNING])?.ok_or("within the limits")?;
    let graphs = check(alloc, &set).ok().ok_or("constrained")?;
    Ok(graphs.graph(0).copy(alloc)?)
}

// The graph, and a new table of its walks up to 5.
fn start_table(alloc: Global, budget: u64) -> Result<(Graph, Table<DemandLabel>), Fail>
    requires budget { (1 ≤ budget) × (budget ≤ 1000000) }
    ensures { IfOk result (λ r. r.0 ≡ r.1.graph) }
{
    let graph = make_graph(alloc)?;
    let table: Table<DemandLabel> = Table::start(alloc, &graph, 5, budget)?;
    Ok((graph, table))
}

// Makes the calls one after another, as long as each may be made and is answered as wanted, and says whether all are.
fn are_answered(
    alloc: Global,
    graph: &Graph,
    table: &mut Table<DemandLabel>,
    calls: &[Call],
) -> Result<bool, Memory>
    requires { graph.now ≡ table.old.graph }
    ensures { graph.now ≡ table.new.graph }
{
    'calls: for i in 0..calls.len() {
        let (worker, step, wanted) = calls[i];
        if try_step(alloc, graph, table, worker, step)? != Some(wanted) {
            return Ok(false);
        }
    }
    Ok(true)
}

// Tries the calls one after another, and says whether none of them may be made.
fn are_refused(
    alloc: Global,
    graph: &Graph,
    table: &mut Table<DemandLabel>,
    calls: &[(u32, TableStep)],
) -> Result<bool, Memory>
    requires { graph.now ≡ table.old.graph }
{
    'calls: for i in 0..calls.len() {
        let (worker, step) = calls[i];
        if try_step(alloc, graph, table, worker, step)? != None {
            return Ok(false);
        }
    }
    Ok(true)
}

// The kept nodes of a vertex after those so far.
fn add_kept(table: &Table<DemandLabel>, vertex: u32, kept: &mut Vec<u32>) -> Result<(), Memory>
    requires { vertex < vertex_count table.now.graph }
{
    let mut next = table.first_kept(vertex);
    'nodes: while let Some(node) = next {
        kept.push(node)?;
        next = table.next_kept(node);
    }
    Ok(())
}

// The kept nodes, vertex by vertex.
fn kept_nodes(alloc: Global, graph: &Graph, table: &Table<DemandLabel>) -> Result<Vec<u32>, Memory>
    requires { graph.now ≡ table.now.graph }
{
    let mut kept = Vec::new(alloc);
    'vertices: for vertex in 0..graph.vertex_count() {
        add_kept(table, vertex, &mut kept)?;
    }
    Ok(kept)
}

// The label of a node.
fn label(table: &Table<DemandLabel>, id: u32) -> Option<DemandLabel> {
    if id as usize >= table.node_count() {
        return None;
    }
    Some(*table.node(id).label())
}

// The node's state, and the node that dropped it, if any.
fn state(table: &Table<DemandLabel>, id: u32) -> Option<(NodeState, Option<u32>)> {
    if id as usize >= table.node_count() {
        return None;
    }
    let node = table.node(id);
    Some((node.state(), node.dropped_by()))
}

// Whether that is the walk of a node.
fn has_walk(
    alloc: Global,
    table: &Table<DemandLabel>,
    id: u32,
    wanted: &[u32],
) -> Result<bool, Memory> {
    if id as usize >= table.node_count() {
        return Ok(false);
    }
    let walk = table.walk(alloc, id)?;
    Ok(walk.as_slice() == wanted)
}

// The labels of some nodes.
fn labels_of(
    alloc: Global,
    table: &Table<DemandLabel>,
    nodes: &[u32],
) -> Result<Vec<FrontEntry>, Fail> {
    let mut labels = Vec::new(alloc);
    for id in nodes.iter().copied() {
        let label = label(table, id).ok_or("there is such a node")?;
        labels.push(FrontEntry {
            vertex: label.vertex,
            offset: label.offset,
            work: label.work,
        })?;
    }
    Ok(labels)
}

// Whether these labels have the demands of these times.
fn have_demands(graph: &Graph, labels: &[FrontEntry], wanted: &[(u64, u64)]) -> bool {
    let count = graph.vertex_count();
    if !labels.iter().all(|x| x.vertex < count) {
        return false;
    }
    for i in 0..wanted.len() {
        let (t, demand) = wanted[i];
        if dbf(graph, labels, t) != demand {
            return false;
        }
    }
    true
}

fn labelled(vertex: u32, offset: u64, work: u64) -> DemandLabel
    requires offset { offset ≤ 1000 }
    requires work { work ≤ 1000 }
{
    DemandLabel {
        vertex,
        offset,
        work,
    }
}

// Whether each node is done and has its label, where both rows end. Node 4 has dropped node 3.
fn are_done(table: &Table<DemandLabel>) -> bool {
    let labels = [
        labelled(0, 0, 1),
        labelled(1, 0, 2),
        labelled(2, 0, 1),
        labelled(2, 1, 2),
        labelled(2, 1, 3),
        labelled(2, 4, 4),
    ];
    for (id, wanted) in labels.iter().copied().enumerate() {
        let dropped_by = if id == 3 { Some(4) } else { None };
        if label(table, id as u32) != Some(wanted)
            || state(table, id as u32) != Some((NodeState::Done, dropped_by))
        {
            return false;
        }
    }
    true
}

// Whether the kept nodes are those of both rows' end, with the demands of their labels.
fn has_end_front(alloc: Global, graph: &Graph, table: &Table<DemandLabel>) -> Result<bool, Fail>
    requires { graph.now ≡ table.now.graph }
{
    let kept = kept_nodes(alloc, graph, table)?;
    let labels = labels_of(alloc, table, kept.as_slice())?;
    let demands = [(0, 0), (1, 2), (2, 3), (4, 3), (5, 4), (100, 4)];
    let are_kept = kept.as_slice() == [0, 1, 5, 4, 2].as_slice();
    Ok(are_kept && have_demands(graph, labels.as_slice(), &demands))
}

// Whether the table has what both rows end with: the nodes as they stand, the log's length, a walk and the demands.
fn is_end(alloc: Global, graph: &Graph, table: &Table<DemandLabel>) -> Result<bool, Fail>
    requires { graph.now ≡ table.now.graph }
{
    if !table.finished() || table.log().len() != 15 || table.node_count() != 6 {
        return Ok(false);
    }
    Ok(
        are_done(table)
            && has_walk(alloc, table, 5, &[1, 2, 2])?
            && has_end_front(alloc, graph, table)?,
    )
}

// Whether a new table answers all calls, and then has what both rows end with.
fn ends(alloc: Global, calls: &[Call]) -> Result<bool, Fail> {
    let (graph, mut table) = start_table(alloc, 1000)?;
    if table.finished() {
        return Ok(false);
    }
    let are_so = are_answered(alloc, &graph, &mut table, calls)?;
    Ok(are_so && is_end(alloc, &graph, &table)?)
}

const THREE: [Call; 18] = [
    (0, TAKE, TableReply::Taken(0)),
    (1, TAKE, TableReply::Taken(1)),
    (
        0,
        TableStep::Offer { node: 0, edge: 0 },
        TableReply::Added(3),
    ),
    (0, TableStep::Close { node: 0 }, TableReply::Closed),
    (2, TAKE, TableReply::Taken(2)),
    (0, TAKE, TableReply::Busy(1)),
    (
        1,
        TableStep::Offer { node: 1, edge: 0 },
        TableReply::Added(4),
    ),
    (1, TableStep::Close { node: 1 }, TableReply::Closed),
    (
        2,
        TableStep::Offer { node: 2, edge: 0 },
        TableReply::Dominated(4),
    ),
    (2, TableStep::Close { node: 2 }, TableReply::Closed),
    (0, TAKE, TableReply::Taken(4)),
    (1, TAKE, TableReply::Busy(4)),
    (
        0,
        TableStep::Offer { node: 4, edge: 0 },
        TableReply::Added(5),
    ),
    (0, TableStep::Close { node: 4 }, TableReply::Closed),
    (1, TAKE, TableReply::Taken(5)),
    (
        1,
        TableStep::Offer { node: 5, edge: 0 },
        TableReply::OutOfRange,
    ),
    (1, TableStep::Close { node: 5 }, TableReply::Closed),
    (0, TAKE, TableReply::Finished),
];

#[test]
fn three_workers_step_one_table(rt: HostRuntime) -> Result<(), Fail> {
    assert!(rt; ends(rt.alloc(), &THREE)?);
    Ok(())
}

const BEFORE: [Call; 2] = [
    (0, TAKE, TableReply::Taken(0)),
    (
        0,
        TableStep::Offer { node: 0, edge: 0 },
        TableReply::Added(3),
    ),
];

const AFTER: [Call; 3] = [
    (0, TableStep::Close { node: 0 }, TableReply::Closed),
    (0, TAKE, TableReply::Taken(1)),
    (
        0,
        TableStep::Offer { node: 1, edge: 0 },
        TableReply::Added(4),
    ),
];

const REST: [Call; 11] = [
    (0, TableStep::Close { node: 1 }, TableReply::Closed),
    (0, TAKE, TableReply::Taken(2)),
    (
        0,
        TableStep::Offer { node: 2, edge: 0 },
        TableReply::Dominated(4),
    ),
    (0, TableStep::Close { node: 2 }, TableReply::Closed),
    (0, TAKE, TableReply::Taken(4)),
    (
        0,
        TableStep::Offer { node: 4, edge: 0 },
        TableReply::Added(5),
    ),
    (0, TableStep::Close { node: 4 }, TableReply::Closed),
    (0, TAKE, TableReply::Taken(5)),
    (
        0,
        TableStep::Offer { node: 5, edge: 0 },
        TableReply::OutOfRange,
    ),
    (0, TableStep::Close { node: 5 }, TableReply::Closed),
    (0, TAKE, TableReply::Finished),
];

// Whether the table answers the three lists of calls one after another. Node 3 waits after the first, and node 4 drops it in the second.
fn are_answered_in_order(
    alloc: Global,
    graph: &Graph,
    table: &mut Table<DemandLabel>,
) -> Result<bool, Memory>
    requires { graph.now ≡ table.old.graph }
    ensures { graph.now ≡ table.new.graph }
{
    let are_before = are_answered(alloc, graph, table, &BEFORE)?
        && state(table, 0) == Some((NodeState::Taken(0), None))
        && state(table, 3) == Some((NodeState::Pending, None));
    let are_after = are_answered(alloc, graph, table, &AFTER)?
        && state(table, 3) == Some((NodeState::Done, Some(4)))
        && state(table, 4) == Some((NodeState::Pending, None));
    if !are_before || !are_after {
        return Ok(false);
    }
    are_answered(alloc, graph, table, &REST)
}

// Whether a new table does, and then has what both rows end with.
fn ends_in_order(alloc: Global) -> Result<bool, Fail> {
    let (graph, mut table) = start_table(alloc, 1000)?;
    let are_so = are_answered_in_order(alloc, &graph, &mut table)?;
    Ok(are_so && is_end(alloc, &graph, &table)?)
}

#[test]
fn one_worker_takes_the_nodes_in_order_of_offset(rt: HostRuntime) -> Result<(), Fail> {
    assert!(rt; ends_in_order(rt.alloc())?);
    Ok(())
}

// Whether a new table with a budget of one answers the calls, and then isn't finished, with one entry in its log and node 0 still taken.
fn is_spent(alloc: Global, calls: &[Call]) -> Result<bool, Fail> {
    let (graph, mut table) = start_table(alloc, 1)?;
    let are_so = are_answered(alloc, &graph, &mut table, calls)?;
    let is_logged = !table.finished() && table.log().len() == 1;
    Ok(are_so && is_logged && state(&table, 0) == Some((NodeState::Taken(0), None)))
}

const SPENT: [Call; 3] = [
    (0, TAKE, TableReply::Taken(0)),
    (0, TableStep::Offer { node: 0, edge: 0 }, TableReply::Spent),
    (1, TAKE, TableReply::Spent),
];

#[test]
fn a_budget_of_one_is_spent_after_one_take(rt: HostRuntime) -> Result<(), Fail> {
    assert!(rt; is_spent(rt.alloc(), &SPENT)?);
    Ok(())
}

// Whether a new table makes none of the calls after the first one has taken node 0, and has one entry in its log.
fn refuses(alloc: Global, calls: &[(u32, TableStep)]) -> Result<bool, Fail> {
    let (graph, mut table) = start_table(alloc, 1000)?;
    let is_taken = are_answered(
        alloc,
        &graph,
        &mut table,
        &[(0, TAKE, TableReply::Taken(0))],
    )?;
    let are_refused = are_refused(alloc, &graph, &mut table, calls)?;
    Ok(is_taken && are_refused && table.log().len() == 1)
}

const REFUSED: [(u32, TableStep); 6] = [
    // It holds node 0.
    (0, TAKE),
    // It holds another node, or none.
    (0, TableStep::Offer { node: 1, edge: 0 }),
    (1, TableStep::Offer { node: 0, edge: 0 }),
    (1, TableStep::Close { node: 0 }),
    // Edge 0 is the next one, and isn't offered yet.
    (0, TableStep::Offer { node: 0, edge: 1 }),
    (0, TableStep::Close { node: 0 }),
];

#[test]
fn a_step_whose_conditions_do_not_hold_is_not_made(rt: HostRuntime) -> Result<(), Fail> {
    assert!(rt; refuses(rt.alloc(), &REFUSED)?);
    Ok(())
}

// With its link of 8 bytes in the list of its vertex a node of a demand table takes 56 bytes.
#[test]
fn a_node_takes_48_bytes_and_an_entry_of_the_log_16(rt: HostRuntime) {
    assert!(rt; size_of::<Node<DemandLabel>>() == 48);
    assert!(rt; size_of::<Option<u32>>() == 8 && size_of::<Entry>() <= 16);
}
