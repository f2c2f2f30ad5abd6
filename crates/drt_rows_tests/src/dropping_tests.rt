ghost use Rattle.std.specs.Prelude.{◌≡◌, ℕ, IsTrue, IfOk};

use drt_demand::DemandLabel;
use drt_fixtures::{Shape, make_set};
use drt_graph::{Graphs, check};
use drt_label::Label;
use drt_request::RequestLabel;
use drt_table::Table;
use std::alloc::Global;
use std::test::Fail;

// Seven vertices, and the last one, m, which comes after each of them. Of the first node of m on the later ones are earlier, with less
// work, so none drops another; the last but for the first is of the most work and earliest.
const INTO_ONE: Shape<'static> = (
    &[
        (200, 1),
        (20, 1),
        (19, 1),
        (18, 1),
        (17, 1),
        (16, 1),
        (100, 1),
        (1, 1),
    ],
    &[
        (0, 7, 30),
        (1, 7, 10),
        (2, 7, 9),
        (3, 7, 8),
        (4, 7, 7),
        (5, 7, 6),
        (6, 7, 5),
    ],
);

fn graphs(alloc: Global) -> Result<Graphs, Fail> {
    let set = make_set(alloc, &[INTO_ONE])?.ok_or("within the limits")?;
    Ok(check(alloc, &set).ok().ok_or("constrained")?)
}

// Whether each of the nodes `from` to `to`, without the last, was dropped by that one, or by none.
fn are_dropped<L: Label>(table: &Table<L>, from: u32, to: u32, by: Option<u32>) -> bool {
    for id in from..to {
        if id as usize >= table.node_count() || table.node(id).dropped_by() != by {
            return false;
        }
    }
    true
}

// The eight vertices open nodes 0 to 7. Nodes 8 to 13 are of m, and node 14, of the walk g m, drops all but the first of them.
fn drops_at_once<L: Label>(table: &Table<L>) -> bool {
    table.node_count() == 15
        && are_dropped(table, 0, 9, None)
        && are_dropped(table, 9, 14, Some(14))
        && are_dropped(table, 14, 15, None)
}

fn demand_drops_at_once(alloc: Global) -> Result<bool, Fail> {
    let graphs = graphs(alloc)?;
    let table: Table<DemandLabel> = Table::start(alloc, graphs.graph(0), 40, 1000)?;
    let (table, _reply) = table.drive(alloc, 0)?;
    Ok(drops_at_once(&table))
}

fn request_drops_at_once(alloc: Global) -> Result<bool, Fail> {
    let graphs = graphs(alloc)?;
    let table: Table<RequestLabel> = Table::start(alloc, graphs.graph(0), 40, 1000)?;
    let (table, _reply) = table.drive(alloc, 0)?;
    Ok(drops_at_once(&table))
}

#[test]
fn one_demand_label_drops_many_nodes_at_once(rt: HostRuntime) -> Result<(), Fail> {
    assert!(rt; demand_drops_at_once(rt.alloc())?);
    Ok(())
}

#[test]
fn one_request_label_drops_many_nodes_at_once(rt: HostRuntime) -> Result<(), Fail> {
    assert!(rt; request_drops_at_once(rt.alloc())?);
    Ok(())
}
