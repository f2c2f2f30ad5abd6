//! Tails by hand.
use drt_fixtures::{Shape, make_set};
use drt_graph::check;
use drt_model::Row;
use drt_states::Jump;
use drt_tails::find_tail;
use std::alloc::Global;
use std::test::Fail;

// Whether the curves have these offsets and works.
fn are_curves(curves: &[Row<Jump>], wanted: &[&[(u64, u64)]]) -> bool {
    if curves.len() != wanted.len() {
        return false;
    }
    for (u, jumps) in wanted.iter().enumerate() {
        if !is_curve(curves[u].as_slice(), jumps) {
            return false;
        }
    }
    true
}

fn is_curve(curve: &[Jump], jumps: &[(u64, u64)]) -> bool {
    if curve.len() != jumps.len() {
        return false;
    }
    for (i, jump) in jumps.iter().enumerate() {
        if curve[i].offset != jump.0 || curve[i].work != jump.1 {
            return false;
        }
    }
    true
}

// Whether that is the tail of the task up to the bound.
fn has_tail(
    alloc: Global,
    shape: Shape<'_>,
    bound: u64,
    wanted: &[&[(u64, u64)]],
) -> Result<bool, Fail> {
    if bound < 1 || bound > 1000000 {
        return Err("a bound of 1 to 1,000,000".into());
    }
    let set = make_set(alloc, &[shape])?.ok_or("within the limits")?;
    let graphs = check(alloc, &set)?;
    match find_tail(alloc, graphs.graph(0), bound, 1000000)? {
        Some(tail) => Ok(are_curves(tail.curves.as_slice(), wanted)),
        None => Ok(false),
    }
}

// The vertices a and b, in a ring.
const RING: Shape<'static> = (&[(2, 4), (1, 3)], &[(0, 1, 4), (1, 0, 3)]);

// The vertices u, a, b and x: u goes on to a, or by b to x.
const FORK: Shape<'static> = (
    &[(1, 2), (3, 3), (1, 3), (3, 3)],
    &[(0, 1, 2), (0, 2, 2), (2, 3, 3)],
);

#[test]
fn tails_rise_by_the_walks_that_ask_for_most(rt: HostRuntime) -> Result<(), Fail> {
    let ring: [&[(u64, u64)]; 2] = [&[(0, 2), (4, 3), (7, 5)], &[(0, 1), (3, 3), (7, 4)]];
    let fork: [&[(u64, u64)]; 4] = [
        &[(0, 1), (2, 4), (5, 5)],
        &[(0, 3)],
        &[(0, 1), (3, 4)],
        &[(0, 3)],
    ];
    let cases: [(Shape<'_>, u64, &[&[(u64, u64)]]); 2] = [
        (RING, 10, ring.as_slice()),
        (FORK, 6, fork.as_slice()),
    ];
    for (shape, bound, wanted) in cases {
        assert!(rt;
            has_tail(rt.alloc(), shape, bound, wanted)?,
            "up to {bound}"
        );
    }
    Ok(())
}
