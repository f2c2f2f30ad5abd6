ghost use Rattle.std.specs.Prelude.{◌≤◌, IfOk};
ghost use Rattle.drt_rates.specs.Demands.{AreFronts, IsFront};

use drt_fixtures::shapes::BRANCHING;
use drt_fixtures::{Shape, make_set};
use drt_graph::{FrontEntry, Graph, Graphs, check};
use drt_horizon::{Beyond, Horizon, Over, overload, plan, ratios, scan};
use drt_model::Row;
use std::alloc::Global;
use std::test::Fail;

// The graphs of a set of tasks of these shapes.
pub(crate) fn graphs(alloc: Global, shapes: &[Shape<'_>]) -> Result<Graphs, Fail> {
    let set = make_set(alloc, shapes)?.ok_or("within the limits")?;
    Ok(check(alloc, &set)?)
}

// Whether that is the plan of these tasks.
fn is_planned(
    alloc: Global,
    shapes: &[Shape<'_>],
    wanted: Result<Horizon, Beyond>,
) -> Result<bool, Fail> {
    let graphs = graphs(alloc, shapes)?;
    let proofs = ratios(alloc, &graphs)?;
    Ok(plan(&graphs, proofs.as_slice()) == wanted)
}

#[test]
fn plans_by_hand(rt: HostRuntime) -> Result<(), Fail> {
    let engine: Shape<'_> = (
        &[(12, 60), (8, 30), (4, 15)],
        &[
            (0, 0, 60),
            (0, 1, 60),
            (1, 0, 30),
            (1, 1, 30),
            (1, 2, 30),
            (2, 2, 15),
            (2, 1, 15),
        ],
    );
    let cases: [(&[Shape<'_>], Result<Horizon, Beyond>); 9] = [
        // One job alone: its constant is 6 at the scale 1.
        (&[(&[(6, 5)], &[])], Ok(Horizon::Under { bound: 5 })),
        // 2/5 and 4/7: the constants are 2 * 7 below the scale 35.
        (
            &[(&[(2, 4)], &[(0, 0, 5)]), (&[(4, 7)], &[(0, 0, 7)])],
            Ok(Horizon::Under { bound: 0 }),
        ),
        // 1/2 and 3/10: the scale is 10, the rate 8, the constants 28.
        (
            &[BRANCHING, (&[(3, 4)], &[(0, 0, 10)])],
            Ok(Horizon::Under { bound: 9 }),
        ),
        // 1/2 and 1/5: the rate is 7, the constants 22.
        (
            &[BRANCHING, (&[(2, 4)], &[(0, 0, 10)])],
            Ok(Horizon::Under { bound: 4 }),
        ),
        // 4/15, 1/5 and 1/10: the scale is 30, the rate 17, the constants 300.
        (
            &[
                engine,
                (&[(10, 50)], &[(0, 0, 50)]),
                (&[(20, 100)], &[(0, 0, 200)]),
            ],
            Ok(Horizon::Under { bound: 20 }),
        ),
        (&[(&[(5, 5)], &[(0, 0, 5)])], Ok(Horizon::One)),
        // 3/4 and 2/5 are 23/20.
        (
            &[(&[(3, 4)], &[(0, 0, 4)]), (&[(2, 5)], &[(0, 0, 5)])],
            Ok(Horizon::Over),
        ),
        (
            &[
                (&[(1, 1)], &[(0, 0, 1000000)]),
                (&[(1, 1)], &[(0, 0, 999999)]),
                (&[(1, 1)], &[(0, 0, 999998)]),
                (&[(1, 1)], &[(0, 0, 999997)]),
            ],
            Err(Beyond::TooFine),
        ),
        // The rate is one below the scale, and the constants are 1999995000001 above it.
        (
            &[
                (&[(999998, 999997)], &[(0, 0, 999999)]),
                (&[(1, 1)], &[(0, 0, 1000000)]),
            ],
            Err(Beyond::TooFar),
        ),
    ];
    for (shapes, wanted) in cases {
        assert!(rt; is_planned(rt.alloc(), shapes, wanted)?);
    }
    Ok(())
}

// Whether that is the overload of these tasks, whose utilisation is above one, within a budget.
fn is_overload(
    alloc: Global,
    shapes: &[Shape<'_>],
    budget: u64,
    wanted: Over,
) -> Result<bool, Fail> {
    if budget == 0 || budget > 1000000 {
        return Err("a budget of 1 to 1000000".into());
    }
    let graphs = graphs(alloc, shapes)?;
    let proofs = ratios(alloc, &graphs)?;
    let Ok(Horizon::Over) = plan(&graphs, proofs.as_slice()) else {
        return Err("above one".into());
    };
    Ok(overload(&graphs, proofs.as_slice(), budget) == wanted)
}

#[test]
fn an_overload_is_found_at_its_step_time(rt: HostRuntime) -> Result<(), Fail> {
    // The step times are 4, 5, 8, 10 and 12; at 12 three turns of 3 and two of 2 are 13.
    let shapes: [Shape<'_>; 3] = [
        (&[(3, 4)], &[(0, 0, 4)]),
        (&[(1, 1)], &[]),
        (&[(2, 5)], &[(0, 0, 5)]),
    ];
    for (budget, wanted) in [
        (1, Over::Spent(4)),
        (4, Over::Spent(10)),
        (5, Over::Found(12)),
        (1000000, Over::Found(12)),
    ] {
        assert!(rt; is_overload(rt.alloc(), &shapes, budget, wanted)?);
    }
    Ok(())
}

// The labels of this task as a front of its graph, if each names a vertex and is due within the bound. A label is a task,
// a vertex, an offset and a work.
fn front(
    alloc: Global,
    graph: &Graph,
    task: u32,
    labels: &[(u32, u32, u64, u64)],
    bound: u64,
) -> Result<Row<FrontEntry>, Fail>
    requires { bound ≤ 1000 }
    ensures { IfOk result (λ front. IsFront graph.now bound front) }
{
    let count = graph.vertex_count();
    let mut front = Vec::new(alloc);
    'labels: for (owner, vertex, offset, work) in labels {
        if *owner != task {
            continue;
        }
        if *vertex >= count || *offset > 1000 || *work > 1000 {
            return Err("no label of the graph".into());
        }
        if *offset + graph.vertex(*vertex).deadline as u64 > bound {
            return Err("due past the bound".into());
        }
        front.push(FrontEntry {
            vertex: *vertex,
            offset: *offset,
            work: *work,
        })?;
    }
    Ok(Row::from_vec(front))
}

// Such a front for each graph.
fn fronts(
    alloc: Global,
    graphs: &Graphs,
    labels: &[(u32, u32, u64, u64)],
    bound: u64,
) -> Result<Row<Row<FrontEntry>>, Fail>
    requires { bound ≤ 1000 }
    ensures { IfOk result (λ fronts. AreFronts bound graphs.now fronts) }
{
    let mut fronts = Vec::new(alloc);
    'tasks: for i in 0..graphs.count() {
        fronts.push(front(alloc, graphs.graph(i), i, labels, bound)?)?;
    }
    Ok(Row::from_vec(fronts))
}

// The least time up to the bound at which these tasks have too much demand over such fronts.
fn least_time(
    alloc: Global,
    shapes: &[Shape<'_>],
    labels: &[(u32, u32, u64, u64)],
    bound: u64,
) -> Result<Option<u64>, Fail> {
    if bound > 1000 {
        return Err("a bound of at most 1000".into());
    }
    let graphs = graphs(alloc, shapes)?;
    let fronts = fronts(alloc, &graphs, labels, bound)?;
    Ok(scan(alloc, &graphs, fronts.as_slice(), bound)?)
}

#[test]
fn the_least_time_with_too_much_demand_is_found(rt: HostRuntime) -> Result<(), Fail> {
    let three: Shape<'_> = (&[(3, 4)], &[(0, 0, 10)]);
    let two: Shape<'_> = (&[(2, 4)], &[(0, 0, 10)]);
    let cases: [(&[Shape<'_>], &[(u32, u32, u64, u64)], u64, Option<u64>); 5] = [
        // 6 ticks of work are due at 5.
        (&[(&[(6, 5)], &[])], &[(0, 0, 0, 6)], 5, Some(5)),
        // At 4 the work is 1 + 3, at 6 it is 4 + 3.
        (
            &[BRANCHING, three],
            &[
                (0, 1, 2, 5),
                (0, 0, 5, 2),
                (0, 1, 0, 4),
                (1, 0, 0, 3),
                (0, 0, 0, 1),
            ],
            9,
            Some(6),
        ),
        // At 6 the work is 4 + 2, which is not more than the time, and at 8 it is 5 + 2.
        (
            &[BRANCHING, two],
            &[
                (0, 1, 2, 5),
                (0, 0, 5, 2),
                (0, 1, 0, 4),
                (1, 0, 0, 2),
                (0, 0, 0, 1),
            ],
            9,
            None,
        ),
        // Only the first labels are due by 4.
        (&[BRANCHING, two], &[(0, 0, 0, 1), (1, 0, 0, 2)], 4, None),
        (&[BRANCHING, two], &[], 0, None),
    ];
    for (shapes, labels, bound, wanted) in cases {
        assert_eq!(rt; least_time(rt.alloc(), shapes, labels, bound)?, wanted);
    }
    Ok(())
}
