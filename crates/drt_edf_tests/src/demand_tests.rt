ghost use Rattle.std.specs.Prelude.{IsTrue, ◌<◌, ◌≤◌, length};

use drt_demand::{DemandLabel, dbf};
use drt_fixtures::make_set;
use drt_fixtures::shapes::RETURNING;
use drt_graph::{FrontEntry, check};
use drt_label::{Label, Memory};
use std::alloc::Global;
use std::test::Fail;

// The opening label of vertex 0 with 4 ticks of work, and that extended by an edge of separation 10 to vertex 1 with 3
// ticks, where the first is in range of a deadline of 5.
fn two_labels<L: Label>(alloc: Global, bound: u64) -> Result<Option<(L, L)>, Memory>
    requires { IsTrue (L.algebra.takes_bound bound) }
{
    let first = L::opening(alloc, 0, 4, bound)?;
    if !first.in_range(5, bound) {
        return Ok(None);
    }
    let second = first.extend(alloc, 10, 1, 3)?;
    Ok(Some((first, second)))
}

#[test]
fn labels_are_made_and_compared_through_the_trait(rt: HostRuntime) -> Result<(), Fail> {
    let alloc = rt.alloc();
    let none: Option<(DemandLabel, DemandLabel)> = two_labels(alloc, 4)?;
    assert!(rt; none.is_none());
    let both: Option<(DemandLabel, DemandLabel)> = two_labels(alloc, 5)?;
    let (first, second) = both.ok_or("in range of its deadline")?;
    assert_eq!(rt;
        first,
        DemandLabel {
            vertex: 0,
            offset: 0,
            work: 4
        }
    );
    assert_eq!(rt;
        second,
        DemandLabel {
            vertex: 1,
            offset: 10,
            work: 7
        }
    );
    assert!(rt; !second.in_range(5, 14) && second.in_range(5, 15));
    let later = DemandLabel {
        vertex: 1,
        offset: 11,
        work: 7,
    };
    assert!(rt; second.dominates(&later) && !later.dominates(&second));
    assert!(rt; second.dominates(&second) && !second.dominates(&first));
    Ok(())
}

#[test]
fn the_demand_is_the_greatest_work_that_is_due_by_the_time(rt: HostRuntime) -> Result<(), Fail> {
    let alloc = rt.alloc();
    let set = make_set(alloc, &[RETURNING])?.ok_or("within the limits")?;
    let graphs = check(alloc, &set).ok().ok_or("constrained")?;
    assert!(rt; graphs.count() == 1);
    let graph = graphs.graph(0);
    assert!(rt; graph.vertex_count() == 3);
    let front = [
        FrontEntry {
            vertex: 0,
            offset: 0,
            work: 1,
        },
        FrontEntry {
            vertex: 1,
            offset: 0,
            work: 2,
        },
        FrontEntry {
            vertex: 2,
            offset: 0,
            work: 1,
        },
        FrontEntry {
            vertex: 2,
            offset: 1,
            work: 3,
        },
        FrontEntry {
            vertex: 2,
            offset: 4,
            work: 4,
        },
    ];
    for (t, demand) in [(0, 0), (1, 2), (2, 3), (4, 3), (5, 4), (100, 4)] {
        assert_eq!(rt; dbf(graph, &front, t), demand, "at {t}");
    }
    assert_eq!(rt; dbf(graph, &[], 100), 0);
    Ok(())
}
