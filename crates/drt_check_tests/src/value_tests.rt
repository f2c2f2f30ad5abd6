//! What the nodes of the worked tree ask for, as `take_values` takes it from rooms.
ghost use Rattle.std.specs.Prelude.{◌<◌, All};

use crate::given::are_taken;
use drt_check_values::Query;
use std::alloc::Global;
use std::test::Fail;

// Whether these are the values of the queries' nodes: rooms of just as much are used up, and a tick less at one place doesn't do.
fn are_values(alloc: Global, queries: &[Query; 5], wanted: [u32; 5]) -> Result<bool, Fail>
    requires { All (λ q. q.node < 5) queries.now }
{
    let mut rooms = wanted;
    let fit = are_taken(alloc, queries, &mut rooms)?;
    Ok(fit && rooms == [0; 5] && !does_less_fit(alloc, queries, wanted)?)
}

// Whether rooms with a tick less at one place do, where there is one.
fn does_less_fit(alloc: Global, queries: &[Query; 5], wanted: [u32; 5]) -> Result<bool, Fail>
    requires { All (λ q. q.node < 5) queries.now }
{
    for k in 0..wanted.len() {
        let mut rooms = wanted;
        rooms[k] = wanted[k].saturating_sub(1);
        if wanted[k] > 0 && are_taken(alloc, queries, &mut rooms)? {
            return Ok(true);
        }
    }
    Ok(false)
}

// Whether these are the values of all five nodes at a time, asked for from the last node on.
fn are_values_at(alloc: Global, time: u32, wanted: [u32; 5]) -> Result<bool, Fail> {
    let queries = [
        Query { node: 4, time },
        Query { node: 3, time },
        Query { node: 2, time },
        Query { node: 1, time },
        Query { node: 0, time },
    ];
    are_values(alloc, &queries, wanted)
}

#[test]
fn a_release_counts_past_its_offset(rt: HostRuntime) -> Result<(), Fail> {
    let cases: [(u32, [u32; 5]); 5] = [
        (0, [0, 0, 0, 0, 0]),
        (1, [3, 3, 2, 3, 2]),
        (4, [3, 3, 2, 3, 2]),
        (5, [4, 3, 4, 3, 2]),
        (1_000_000, [4, 3, 4, 3, 2]),
    ];
    for (time, wanted) in cases {
        assert!(rt; are_values_at(rt.alloc(), time, wanted)?, "at {time}");
    }
    Ok(())
}

// Queries that aren't in order of time, with one that stands twice.
const MIXED: [Query; 5] = [
    Query { node: 4, time: 5 },
    Query { node: 4, time: 4 },
    Query { node: 2, time: 5 },
    Query { node: 2, time: 1 },
    Query { node: 4, time: 5 },
];

#[test]
fn queries_are_answered_in_their_own_order(rt: HostRuntime) -> Result<(), Fail> {
    assert!(rt; are_values(rt.alloc(), &MIXED, [4, 3, 4, 2, 4])?);
    Ok(())
}

#[test]
fn what_is_left_of_a_room_stays_there(rt: HostRuntime) -> Result<(), Fail> {
    let mut rooms = [10, 10, 4, 4294967295, 5];
    assert!(rt; are_taken(rt.alloc(), &MIXED, &mut rooms)?);
    assert_eq!(rt; rooms, [6, 7, 0, 4294967293, 1]);
    Ok(())
}

#[test]
fn no_query_takes_nothing(rt: HostRuntime) -> Result<(), Fail> {
    assert!(rt; are_taken(rt.alloc(), &[], &mut [])?);
    Ok(())
}
