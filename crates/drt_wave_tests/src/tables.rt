//! What tests hold fronts of wave tables beside: the entries that are wanted, and tables of labels.
ghost use Rattle.std.specs.Prelude.{◌≤◌};

use drt_demand::DemandLabel;
use drt_graph::{FrontEntry, Graph};
use drt_pool::EagerGate;
use drt_search::search_together;
use drt_table::{Table, TableReply};
use drt_wave::DenseFront;
use std::alloc::Global;
use std::sync::Wait;
use std::test::Fail;
use std::thread::Threads;

/// The finished table of a graph's walks up to a bound: a shared one by 2 to 16 workers, one that is driven by one worker.
pub(crate) fn finished_table<R: Threads + Wait + Sync>(
    rt: &R,
    alloc: Global,
    graph: &Graph,
    bound: u64,
    workers: u32,
) -> Result<Table<DemandLabel>, Fail>
    requires bound { bound ≤ 1000000 }
    requires workers { (1 ≤ workers) × (workers ≤ 16) }
{
    let (table, _reply): (Table<DemandLabel>, TableReply) = search_together(
        rt, alloc, graph, bound, 1_000_000, workers, &EagerGate,
    )?;
    if !table.finished() {
        return Err("the budget is enough".into());
    }
    Ok(table)
}

/// Whether the entries are exactly the labels that the table keeps.
pub(crate) fn is_front_of(front: &[FrontEntry], table: &Table<DemandLabel>) -> bool {
    let mut kept: usize = 0;
    for id in 0..table.node_count() {
        if id >= 4_294_967_295 {
            return false;
        }
        let node = table.node(id as u32);
        if node.dropped_by().is_none() {
            kept = kept.saturating_add(1);
            let label = node.label();
            let entry = FrontEntry {
                vertex: label.vertex,
                offset: label.offset,
                work: label.work,
            };
            if !front.contains(&entry) {
                return false;
            }
        }
    }
    kept == front.len()
}

// Whether the entries are those wanted.
fn are_entries(entries: &[FrontEntry], wanted: &[(u32, u64, u64)]) -> bool {
    if entries.len() != wanted.len() {
        return false;
    }
    for i in 0..entries.len() {
        let found = (entries[i].vertex, entries[i].offset, entries[i].work);
        if found != wanted[i] {
            return false;
        }
    }
    true
}

/// Whether the front is the one wanted.
pub(crate) fn has_front(
    alloc: Global,
    works: &DenseFront,
    wanted: &[(u32, u64, u64)],
) -> Result<bool, Fail> {
    let front = works.front(alloc)?;
    Ok(are_entries(front.as_slice(), wanted))
}
