use crate::cases::{
    Case, End, State, find_alike, find_response, finds_states, finds_walks, is_spent,
};
use drt_fixtures::Shape;
use std::test::Fail;

// The vertices a and b, in a ring.
const RING: Shape<'static> = (&[(2, 4), (1, 3)], &[(0, 1, 4), (1, 0, 3)]);

// The vertices u, a, b and x: u goes on to a, or by b to x.
const FORK: Shape<'static> = (
    &[(1, 2), (3, 3), (1, 3), (3, 3)],
    &[(0, 1, 2), (0, 2, 2), (2, 3, 3)],
);

const UNDER_RING: Shape<'static> = (&[(3, 10)], &[(0, 0, 10)]);

const UNDER_FORK: Shape<'static> = (&[(2, 6)], &[(0, 0, 6)]);

const LONGER: Shape<'static> = (&[(3, 6)], &[(0, 0, 6)]);

// The vertices p, q and s: p goes on to s, and q and s go on to themselves.
const MODES: Shape<'static> = (
    &[(4, 15), (3, 9), (2, 9)],
    &[(0, 2, 15), (2, 2, 9), (1, 1, 9)],
);

const UNDER_MODES: Shape<'static> = (&[(4, 27)], &[(0, 0, 27)]);

// Vertices that go on to themselves. Under three such tasks, nearly all of their combinations are looked at together.
const LOOPS: Shape<'static> = (
    &[
        (3, 17),
        (1, 9),
        (6, 24),
        (2, 8),
        (6, 30),
        (5, 25),
        (5, 22),
        (5, 24),
        (3, 15),
    ],
    &[
        (0, 0, 17),
        (1, 1, 9),
        (2, 2, 24),
        (3, 3, 8),
        (4, 4, 30),
        (5, 5, 25),
        (6, 6, 22),
        (7, 7, 24),
        (8, 8, 15),
    ],
);

const LATE_LOOPS: Shape<'static> = (
    &[(4, 22), (4, 18), (6, 28), (6, 24), (4, 19), (1, 8), (6, 29)],
    &[
        (0, 0, 22),
        (1, 1, 18),
        (2, 2, 28),
        (3, 3, 24),
        (4, 4, 19),
        (5, 5, 8),
        (6, 6, 29),
    ],
);

const UNDER_LOOPS: Shape<'static> = (&[(5, 27)], &[(0, 0, 27)]);

const LAST: Shape<'static> = (&[(1, 9)], &[(0, 0, 9)]);

#[test]
fn states_are_split_until_each_passes(rt: HostRuntime) -> Result<(), Fail> {
    let alloc = rt.alloc();
    // The greatest values alone leave room at 6.
    let first: [State<'_>; 1] = [(&[], 0, End::Passes(6))];
    // Of u's walk, that to b leaves room earlier than that to a.
    let split: [State<'_>; 7] = [
        (&[], 0, End::Splits(0, &[1, 2, 3, 4])),
        (&[(0, 0, 0)], 0, End::Splits(0, &[5, 6])),
        (&[(0, 1, 0)], 0, End::Passes(5)),
        (&[(0, 2, 0)], 0, End::Passes(3)),
        (&[(0, 3, 0)], 0, End::Passes(5)),
        (&[(0, 1, 2)], 1, End::Passes(6)),
        (&[(0, 2, 2)], 1, End::Passes(4)),
    ];
    // The second task asks for its greatest value in each trial, so that it stays idle.
    let idle: [State<'_>; 7] = [
        (&[], 0, End::Splits(0, &[1, 2, 3, 4])),
        (&[(0, 0, 0)], 0, End::Splits(0, &[5, 6])),
        (&[(0, 1, 0)], 0, End::Passes(6)),
        (&[(0, 2, 0)], 0, End::Passes(9)),
        (&[(0, 3, 0)], 0, End::Passes(6)),
        (&[(0, 1, 2)], 1, End::Passes(9)),
        (&[(0, 2, 2)], 1, End::Passes(5)),
    ];
    let cases: [(&[Shape<'_>], u64, &[State<'_>]); 3] = [
        (&[RING, UNDER_RING], 10, &first),
        (&[FORK, UNDER_FORK], 6, &split),
        (&[FORK, UNDER_FORK, LAST], 9, &idle),
    ];
    for (shapes, bound, wanted) in cases {
        let case = Case {
            shapes,
            bound,
            budget: 100,
        };
        assert!(rt; finds_states(&rt, alloc, case, wanted)?, "up to {bound}");
    }
    Ok(())
}

// The trial leaves room at 5, for the walk u b x asks for 1, for 2 past 2 and for 5 past 5. So the fork becomes active, and the walk
// from u to a at 2 asks for 4 past 2: 3 + 4 is past 6.
#[test]
fn walks_that_leave_no_room_are_a_miss(rt: HostRuntime) -> Result<(), Fail> {
    let case = Case {
        shapes: &[FORK, LONGER],
        bound: 6,
        budget: 100,
    };
    assert!(rt; finds_walks(&rt, rt.alloc(), case, &[&[0, 1]])?);
    Ok(())
}

// The first state is taken twice, as the fork becomes active after its trial.
#[test]
fn a_spent_budget_is_no_answer(rt: HostRuntime) -> Result<(), Fail> {
    let case = Case {
        shapes: &[FORK, UNDER_FORK],
        bound: 6,
        budget: 7,
    };
    assert!(rt; is_spent(&rt, rt.alloc(), case)?);
    Ok(())
}

// Under the ring the walk a b asks for 2 and 3 past 4, so that 3 are done at 6; under the fork u a for 1 and 4 past 2, so that 2 are done at
// 6. Under the modes 4 are done at 8 by p, which asks for 4, and at 7 by q. With no task above a job of 4 is done at 4. Under the loops 5 are
// done at 23, by three walks that ask for 6 up to 24.
#[test]
fn the_greatest_response_is_reached_by_walks(rt: HostRuntime) -> Result<(), Fail> {
    let cases: [(&[Shape<'_>], u64, u64); 5] = [
        (&[RING, UNDER_RING], 10, 6),
        (&[FORK, UNDER_FORK], 6, 6),
        (&[MODES, UNDER_MODES], 27, 8),
        (&[UNDER_MODES], 27, 4),
        (&[LOOPS, LOOPS, LOOPS, UNDER_LOOPS], 27, 23),
    ];
    for (shapes, bound, ticks) in cases {
        let case = Case {
            shapes,
            bound,
            budget: 1_000,
        };
        assert_eq!(rt;
            find_response(&rt, rt.alloc(), case)?,
            Some(ticks),
            "up to {bound}"
        );
    }
    Ok(())
}

// Up to 216 and 245 states are taken together. The first set passes, the second one misses.
#[test]
fn several_workers_find_what_one_finds(rt: HostRuntime) -> Result<(), Fail> {
    let cases: [([Shape<'_>; 4], u32); 4] = [
        ([LOOPS, LOOPS, LOOPS, UNDER_LOOPS], 2),
        ([LOOPS, LOOPS, LOOPS, UNDER_LOOPS], 16),
        ([LATE_LOOPS, LATE_LOOPS, LATE_LOOPS, UNDER_LOOPS], 2),
        ([LATE_LOOPS, LATE_LOOPS, LATE_LOOPS, UNDER_LOOPS], 16),
    ];
    for (shapes, workers) in &cases {
        let case = Case {
            shapes: shapes.as_slice(),
            bound: 27,
            budget: 10_000,
        };
        assert!(rt;
            find_alike(&rt, rt.alloc(), case, *workers)?,
            "by {workers} workers"
        );
    }
    Ok(())
}
