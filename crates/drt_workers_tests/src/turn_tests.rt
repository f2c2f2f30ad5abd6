//! Turns of passes, all in one thread.

ghost use Rattle.std.specs.Prelude.{◌≡◌, ◌≤◌, IfOk, length};
ghost use Rattle.drt_demand.specs.Demand.{demand_algebra};
ghost use Rattle.drt_pool.specs.Turns.{EachPlace};
ghost use Rattle.drt_shared.specs.Passes.{IsPassOf};

use drt_demand::DemandLabel;
use drt_fixtures::make_set;
use drt_fixtures::shapes::RETURNING;
use drt_graph::{Graph, check};
use drt_model::Row;
use drt_pool::Turn;
use drt_search::{drive_on, take_turn};
use drt_shared::{Pass, SharedReply, SharedTable};
use drt_table::{Table, TableReply};
use std::alloc::Global;
use std::sync::Wait;
use std::test::Fail;

// The turns of three workers on the table of RETURNING up to 5, with their replies.
const TURNS: [(usize, TableReply); 18] = [
    (0, TableReply::Taken(0)),
    (1, TableReply::Taken(1)),
    (0, TableReply::Added(3)),
    (0, TableReply::Closed),
    (2, TableReply::Taken(2)),
    (0, TableReply::Busy(1)),
    (1, TableReply::Added(4)),
    (1, TableReply::Closed),
    (2, TableReply::Dominated(4)),
    (2, TableReply::Closed),
    (0, TableReply::Taken(4)),
    (1, TableReply::Busy(4)),
    (0, TableReply::Added(5)),
    (0, TableReply::Closed),
    (1, TableReply::Taken(5)),
    (1, TableReply::OutOfRange),
    (1, TableReply::Closed),
    (0, TableReply::Finished),
];

// A search of a graph by the passes of one shared table.
#[derive(Clone, Copy)]
struct SharedSearch<'a> {
    alloc: Global,
    graph: &'a Graph,
    shared: &'a SharedTable<DemandLabel>,
}

// The graph of RETURNING.
fn make_graph(alloc: Global) -> Result<Graph, Fail> {
    let set = make_set(alloc, &[RETURNING])?.ok_or("within the limits")?;
    let graphs = check(alloc, &set).ok().ok_or("constrained")?;
    Ok(graphs.graph(0).copy(alloc)?)
}

// The graph, and a shared table of its walks up to 5, with so many passes.
fn start_table(
    alloc: Global,
    passes: u32,
) -> Result<(Graph, SharedTable<DemandLabel>, Row<Pass<DemandLabel>>), Fail>
    requires passes { (1 ≤ passes) × (passes ≤ 16) }
    ensures graph { IfOk result (λ r. r.0 ≡ r.1.setting.graph) }
    ensures count { IfOk result (λ r. (r.1.passes ≡ passes) × (length r.2 ≡ passes)) }
    ensures passes { IfOk result (λ r. EachPlace (λ place p. IsPassOf demand_algebra r.1 p) r.2) }
{
    let graph = make_graph(alloc)?;
    let (shared, passes) = SharedTable::start(alloc, &graph, 5, 1000, passes)?;
    Ok((graph, shared, passes))
}

// What follows a turn with this reply.
fn turn_after(reply: SharedReply) -> Turn {
    match reply {
        SharedReply::Step(TableReply::Finished) => Turn::Stop,
        SharedReply::Step(_) => Turn::More,
        SharedReply::Halted => Turn::Stop,
        SharedReply::Strange(_) => Turn::Stop,
    }
}

// Makes the turn of a worker, and says whether it has that reply, and is the worker's last only where it should be.
fn has_reply<R: Wait>(
    rt: &R,
    search: &SharedSearch<'_>,
    passes: &mut [Pass<DemandLabel>],
    worker: usize,
    wanted: SharedReply,
) -> bool
    requires graph { search.now.graph.now ≡ search.now.shared.now.setting.graph }
    requires passes { EachPlace (λ place p. IsPassOf demand_algebra search.now.shared.now p) passes.old }
    ensures count { length passes.new ≡ length passes.old }
    ensures passes { EachPlace (λ place p. IsPassOf demand_algebra search.now.shared.now p) passes.new }
{
    if worker >= passes.len() {
        return false;
    }
    let turned = take_turn(
        rt,
        search.alloc,
        search.graph,
        search.shared,
        &mut passes[worker],
    );
    turned.reply == Some(wanted) && turned.turn == turn_after(wanted)
}

// Makes the turns of these workers one after another, and says whether each has its reply.
fn have_replies<R: Wait>(
    rt: &R,
    search: &SharedSearch<'_>,
    passes: &mut [Pass<DemandLabel>],
    turns: &[(usize, TableReply)],
) -> bool
    requires graph { search.now.graph.now ≡ search.now.shared.now.setting.graph }
    requires passes { EachPlace (λ place p. IsPassOf demand_algebra search.now.shared.now p) passes.old }
    ensures count { length passes.new ≡ length passes.old }
    ensures passes { EachPlace (λ place p. IsPassOf demand_algebra search.now.shared.now p) passes.new }
{
    let mut are_so = true;
    'turns: for i in 0..turns.len() {
        let (worker, reply) = turns[i];
        let is_so = has_reply(rt, search, passes, worker, SharedReply::Step(reply));
        are_so = are_so && is_so;
    }
    are_so
}

// Makes the turns of these workers one after another, and says whether each has its reply, with the passes.
fn play<R: Wait>(
    rt: &R,
    search: &SharedSearch<'_>,
    passes: Row<Pass<DemandLabel>>,
    turns: &[(usize, TableReply)],
) -> (bool, Row<Pass<DemandLabel>>)
    requires graph { search.now.graph.now ≡ search.now.shared.now.setting.graph }
    requires passes { EachPlace (λ place p. IsPassOf demand_algebra search.now.shared.now p) passes }
    ensures count { length result.1 ≡ length passes }
    ensures passes { EachPlace (λ place p. IsPassOf demand_algebra search.now.shared.now p) result.1 }
{
    let mut passes = passes.into_vec();
    let are_so = have_replies(rt, search, passes.as_mut_slice(), turns);
    (are_so, Row::from_vec(passes))
}

// Whether the passes counted so many logged steps.
fn have_counts(passes: &[Pass<DemandLabel>], wanted: &[u64]) -> bool {
    if passes.len() != wanted.len() {
        return false;
    }
    'passes: for i in 0..passes.len() {
        if passes[i].count() != wanted[i] || passes[i].held().is_some() {
            return false;
        }
    }
    true
}

// Whether all nodes of the table are kept but those that another one is said to have dropped.
fn are_kept_but(table: &Table<DemandLabel>, count: usize, dropped: &[(usize, u32)]) -> bool {
    if table.node_count() != count || count > 1_000_000 {
        return false;
    }
    'nodes: for id in 0..count {
        let mut wanted = None;
        'drops: for j in 0..dropped.len() {
            if dropped[j].0 == id {
                wanted = Some(dropped[j].1);
            }
        }
        if table.node(id as u32).dropped_by() != wanted {
            return false;
        }
    }
    true
}

// Whether three workers' turns have their replies, and the table then is what it is to be.
fn is_stepped<R: Wait>(rt: &R, alloc: Global) -> Result<bool, Fail> {
    let (graph, shared, passes) = start_table(alloc, 3)?;
    let search = SharedSearch {
        alloc,
        graph: &graph,
        shared: &shared,
    };
    let (are_so, passes) = play(rt, &search, passes, &TURNS);
    let are_counted = have_counts(passes.as_slice(), &[6, 6, 3]);
    let end = shared.finish(passes);
    let is_ended = !end.halted && end.table.finished() && end.table.log().len() == 15;
    Ok(are_so && are_counted && is_ended && are_kept_but(&end.table, 6, &[(3, 4)]))
}

#[test]
fn three_workers_step_one_shared_table(rt: HostRuntime) -> Result<(), Fail> {
    assert!(rt; is_stepped(&rt, rt.alloc())?);
    Ok(())
}

// Halts the search with a pass.
fn halt_with(shared: &SharedTable<DemandLabel>, pass: &mut Pass<DemandLabel>)
    requires { IsPassOf demand_algebra shared.now pass.old }
    ensures { IsPassOf demand_algebra shared.now pass.new }
{
    shared.halt(pass);
}

// Halts the search with the pass at that place, if there is one.
fn halt_by(shared: &SharedTable<DemandLabel>, passes: &mut [Pass<DemandLabel>], place: usize)
    requires { EachPlace (λ place p. IsPassOf demand_algebra shared.now p) passes.old }
    ensures count { length passes.new ≡ length passes.old }
    ensures passes { EachPlace (λ place p. IsPassOf demand_algebra shared.now p) passes.new }
{
    if place < passes.len() {
        halt_with(shared, &mut passes[place]);
    }
}

// Worker 0 takes a node of the table, and worker 1 halts the search: whether each worker's next turn finds the mark and is its last.
fn halted<R: Wait>(rt: &R, search: &SharedSearch<'_>, passes: &mut [Pass<DemandLabel>]) -> bool
    requires graph { search.now.graph.now ≡ search.now.shared.now.setting.graph }
    requires passes { EachPlace (λ place p. IsPassOf demand_algebra search.now.shared.now p) passes.old }
    ensures count { length passes.new ≡ length passes.old }
    ensures passes { EachPlace (λ place p. IsPassOf demand_algebra search.now.shared.now p) passes.new }
{
    let taken = have_replies(rt, search, passes, &[(0, TableReply::Taken(0))]);
    halt_by(search.shared, passes, 1);
    let first = has_reply(rt, search, passes, 0, SharedReply::Halted);
    let second = has_reply(rt, search, passes, 1, SharedReply::Halted);
    taken && first && second
}

// The same, with the passes.
fn play_halted<R: Wait>(
    rt: &R,
    search: &SharedSearch<'_>,
    passes: Row<Pass<DemandLabel>>,
) -> (bool, Row<Pass<DemandLabel>>)
    requires graph { search.now.graph.now ≡ search.now.shared.now.setting.graph }
    requires passes { EachPlace (λ place p. IsPassOf demand_algebra search.now.shared.now p) passes }
    ensures count { length result.1 ≡ length passes }
    ensures passes { EachPlace (λ place p. IsPassOf demand_algebra search.now.shared.now p) result.1 }
{
    let mut passes = passes.into_vec();
    let are_halted = halted(rt, search, passes.as_mut_slice());
    (are_halted, Row::from_vec(passes))
}

// Whether a halted search makes no more steps than one take.
fn is_halted<R: Wait>(rt: &R, alloc: Global) -> Result<bool, Fail> {
    let (graph, shared, passes) = start_table(alloc, 2)?;
    let search = SharedSearch {
        alloc,
        graph: &graph,
        shared: &shared,
    };
    let (are_halted, passes) = play_halted(rt, &search, passes);
    let end = shared.finish(passes);
    Ok(are_halted && end.halted && end.table.log().len() == 1)
}

#[test]
fn a_halted_search_makes_no_more_steps(rt: HostRuntime) -> Result<(), Fail> {
    assert!(rt; is_halted(&rt, rt.alloc())?);
    Ok(())
}

// Whether no table is driven on from passes of which one halted the search.
fn is_refused(alloc: Global) -> Result<bool, Fail> {
    let (_graph, shared, passes) = start_table(alloc, 2)?;
    let mut passes = passes.into_vec();
    halt_by(&shared, passes.as_mut_slice(), 1);
    Ok(drive_on(alloc, shared, Row::from_vec(passes)).is_err())
}

#[test]
fn a_halted_search_ends_as_want_of_memory(rt: HostRuntime) -> Result<(), Fail> {
    assert!(rt; is_refused(rt.alloc())?);
    Ok(())
}

// Whether a table that three workers left after seven turns is driven to its end.
fn is_driven<R: Wait>(rt: &R, alloc: Global) -> Result<bool, Fail> {
    let (graph, shared, passes) = start_table(alloc, 3)?;
    let search = SharedSearch {
        alloc,
        graph: &graph,
        shared: &shared,
    };
    let (are_so, passes) = play(rt, &search, passes, &TURNS[..7]);
    let (table, reply) = drive_on(alloc, shared, passes)?;
    let is_ended = reply == TableReply::Finished && table.log().len() == 15;
    Ok(are_so && is_ended && are_kept_but(&table, 6, &[(3, 4)]))
}

#[test]
fn what_the_workers_left_over_is_driven(rt: HostRuntime) -> Result<(), Fail> {
    assert!(rt; is_driven(&rt, rt.alloc())?);
    Ok(())
}
