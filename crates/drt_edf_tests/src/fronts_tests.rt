//! Fronts and walks by hand.
ghost use Rattle.std.specs.Prelude.{◌≡◌, ◌≤◌, IfOk, IsTrue};
ghost use Rattle.drt_demand.specs.Demand.{demand_algebra};
ghost use Rattle.drt_table.specs.Machine.{is_finished};
ghost use Rattle.drt_table.specs.View.{setting_of, state_of};

use drt_demand::DemandLabel;
use drt_edf_fronts::{demand_walk, front_of};
use drt_fixtures::shapes::RETURNING;
use drt_fixtures::{Shape, make_set};
use drt_graph::{FrontEntry, Graph, Graphs, check};
use drt_table::Table;
use std::alloc::Global;
use std::test::Fail;

fn make_graphs(alloc: Global, shape: Shape<'_>) -> Result<Graphs, Fail> {
    let set = make_set(alloc, &[shape])?.ok_or("within the limits")?;
    Ok(check(alloc, &set)?)
}

// The finished search of the graph's walks up to the bound.
fn searched(alloc: Global, graph: &Graph, bound: u64) -> Result<Table<DemandLabel>, Fail>
    requires { bound ≤ 1000 }
    ensures graph { IfOk result (λ table. graph.now ≡ table.graph) }
    ensures finished { IfOk result (λ table. IsTrue (is_finished demand_algebra (setting_of table) (state_of table))) }
{
    let table: Table<DemandLabel> = Table::start(alloc, graph, bound, 1000)?;
    let (table, _reply) = table.drive(alloc, 0)?;
    if !table.finished() {
        return Err("the budget is enough".into());
    }
    Ok(table)
}

fn label(vertex: u32, offset: u64, work: u64) -> FrontEntry {
    FrontEntry {
        vertex,
        offset,
        work,
    }
}

// The label that is found first at the last vertex is the later one.
const LATER_FIRST: Shape<'static> = (&[(3, 1), (1, 1), (1, 1)], &[(0, 2, 4), (1, 2, 2)]);

// Whether that is the front of the walks up to the bound.
fn has_front(
    alloc: Global,
    shape: Shape<'_>,
    bound: u64,
    wanted: &[FrontEntry],
) -> Result<bool, Fail> {
    if bound > 1000 {
        return Err("a bound of at most 1000".into());
    }
    let graphs = make_graphs(alloc, shape)?;
    let graph = graphs.graph(0);
    let table = searched(alloc, graph, bound)?;
    let front = front_of(alloc, graph, &table)?;
    Ok(front.as_slice() == wanted)
}

#[test]
fn fronts_have_the_undominated_labels_in_order(rt: HostRuntime) -> Result<(), Fail> {
    let returning = [
        label(0, 0, 1),
        label(1, 0, 2),
        label(2, 0, 1),
        label(2, 1, 3),
        label(2, 4, 4),
    ];
    let near = [
        label(0, 0, 1),
        label(1, 0, 2),
        label(2, 0, 1),
        label(2, 1, 3),
    ];
    let later_first = [
        label(0, 0, 3),
        label(1, 0, 1),
        label(2, 0, 1),
        label(2, 2, 2),
        label(2, 4, 4),
    ];
    let cases: [(Shape<'_>, u64, &[FrontEntry]); 4] = [
        (RETURNING, 5, returning.as_slice()),
        (RETURNING, 4, near.as_slice()),
        (RETURNING, 0, &[]),
        (LATER_FIRST, 5, later_first.as_slice()),
    ];
    for (shape, bound, wanted) in cases {
        assert!(rt;
            has_front(rt.alloc(), shape, bound, wanted)?,
            "up to {bound}"
        );
    }
    Ok(())
}

// Whether that is the walk of the demand of a time, by the front up to 5.
fn has_walk(alloc: Global, shape: Shape<'_>, t: u64, wanted: &[u32]) -> Result<bool, Fail> {
    let graphs = make_graphs(alloc, shape)?;
    let graph = graphs.graph(0);
    let table = searched(alloc, graph, 5)?;
    let front = front_of(alloc, graph, &table)?;
    let walk = demand_walk(alloc, graph, front.as_slice(), t)?;
    Ok(walk.as_slice() == wanted)
}

#[test]
fn the_walk_of_a_time_has_all_of_its_demand(rt: HostRuntime) -> Result<(), Fail> {
    let cases: [(Shape<'_>, u64, &[u32]); 9] = [
        (RETURNING, 0, &[]),
        (RETURNING, 1, &[1]),
        (RETURNING, 2, &[1, 2]),
        (RETURNING, 4, &[1, 2]),
        // The work of 4 ticks is due at 5.
        (RETURNING, 5, &[1, 2, 2]),
        (RETURNING, 1000, &[1, 2, 2]),
        // At 3 the 3 ticks of p alone are more than the 2 of q and m.
        (LATER_FIRST, 3, &[0]),
        (LATER_FIRST, 4, &[0]),
        (LATER_FIRST, 5, &[0, 2]),
    ];
    for (shape, t, wanted) in cases {
        assert!(rt; has_walk(rt.alloc(), shape, t, wanted)?, "at {t}");
    }
    Ok(())
}
