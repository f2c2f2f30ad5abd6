//! Whole searches, by several numbers of workers.

ghost use Rattle.std.specs.Prelude.{◌≤◌};

use drt_demand::DemandLabel;
use drt_fixtures::{Shape, make_set};
use drt_graph::{Graphs, check};
use drt_pool::{EagerGate, Gate, OpenGate};
use drt_search::search_together;
use drt_table::{Table, TableReply};
use drt_test_tools::Meeting;
use std::alloc::Global;
use std::sync::Wait;
use std::test::Fail;
use std::thread::Threads;

// A ring of six vertices (1,1) with separations of 1: the walk of k + 1 vertices that ends at one of them has the offset k and the
// work k + 1, and no other walk ends there with that offset.
const RING: Shape<'static> = (
    &[(1, 1), (1, 1), (1, 1), (1, 1), (1, 1), (1, 1)],
    &[
        (0, 1, 1),
        (1, 2, 1),
        (2, 3, 1),
        (3, 4, 1),
        (4, 5, 1),
        (5, 0, 1),
    ],
);

fn graphs_of_ring(alloc: Global) -> Result<Graphs, Fail> {
    let set = make_set(alloc, &[RING])?.ok_or("within the limits")?;
    Ok(check(alloc, &set).ok().ok_or("constrained")?)
}

// The search of the ring's walks up to the bound.
fn search_ring<G: Gate, R: Threads + Wait + Sync>(
    rt: &R,
    alloc: Global,
    bound: u64,
    budget: u64,
    workers: u32,
    gate: &G,
) -> Result<(Table<DemandLabel>, TableReply), Fail>
    requires bound { bound ≤ 1000 }
    requires budget { (1 ≤ budget) × (budget ≤ 1000000) }
    requires workers { (1 ≤ workers) × (workers ≤ 16) }
{
    let graphs = graphs_of_ring(alloc)?;
    Ok(search_together(rt, alloc, graphs.graph(0), bound, budget, workers, gate)?)
}

// Whether the table has one node for each vertex of the ring and each offset below the bound, each kept and with its work.
fn has_ring(table: &Table<DemandLabel>, bound: u64) -> bool {
    let count = table.node_count();
    if count > 6_000 || count as u64 != bound.saturating_mul(6) {
        return false;
    }
    'nodes: for id in 0..count {
        let node = table.node(id as u32);
        let label = *node.label();
        if node.dropped_by().is_some() || label.offset >= bound || label.work != label.offset + 1 {
            return false;
        }
    }
    true
}

// Whether so many workers find the ring's walks up to the bound, in three steps for each.
fn finds_ring<G: Gate, R: Threads + Wait + Sync>(
    rt: &R,
    alloc: Global,
    bound: u64,
    workers: u32,
    gate: &G,
) -> Result<bool, Fail>
    requires bound { bound ≤ 1000 }
    requires workers { (1 ≤ workers) × (workers ≤ 16) }
{
    let (table, reply) = search_ring(rt, alloc, bound, 1_000_000, workers, gate)?;
    Ok(
        reply == TableReply::Finished
            && table.log().len() as u64 == bound.saturating_mul(18)
            && has_ring(&table, bound),
    )
}

#[test]
fn any_number_of_workers_finds_the_same_labels(rt: HostRuntime) -> Result<(), Fail> {
    for bound in [5u64, 300, 1000] {
        for workers in [1u32, 2, 4, 16] {
            assert!(rt;
                finds_ring(&rt, rt.alloc(), bound, workers, &EagerGate)?,
                "{workers} up to {bound}"
            );
        }
        assert!(rt;
            finds_ring(&rt, rt.alloc(), bound, 4, &OpenGate)?,
            "one up to {bound}"
        );
    }
    Ok(())
}

// Whether so many workers spend the budget.
fn is_spent<R: Threads + Wait + Sync>(
    rt: &R,
    alloc: Global,
    budget: u64,
    workers: u32,
) -> Result<bool, Fail>
    requires budget { (1 ≤ budget) × (budget ≤ 1000000) }
    requires workers { (1 ≤ workers) × (workers ≤ 16) }
{
    let (table, reply) = search_ring(rt, alloc, 300, budget, workers, &EagerGate)?;
    Ok(reply == TableReply::Spent && table.log().len() as u64 == budget && !table.finished())
}

#[test]
fn a_budget_is_spent_by_any_number_of_workers(rt: HostRuntime) -> Result<(), Fail> {
    for budget in [1u64, 5_399] {
        for workers in [1u32, 2, 16] {
            assert!(rt;
                is_spent(&rt, rt.alloc(), budget, workers)?,
                "{budget} of {workers}"
            );
        }
    }
    assert!(rt; !is_spent(&rt, rt.alloc(), 5_400, 4)?);
    Ok(())
}

#[test]
fn two_workers_search_at_the_same_time(rt: HostRuntime) -> Result<(), Fail> {
    let gate = Meeting::at(0);
    assert!(rt; finds_ring(&rt, rt.alloc(), 5, 2, &gate)? && gate.times_met() == 1);
    Ok(())
}
