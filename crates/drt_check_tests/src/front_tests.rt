//! Claimed fronts by hand, and the least rule that they break.
ghost use Rattle.std.specs.Prelude.{All, IfOk};
ghost use Rattle.drt_claims.specs.Ranges.{IsInRangeEntry};

use drt_check_fronts::{are_closed, are_in_order, have_openings, have_room};
use drt_claims::FrontEntry;
use drt_fixtures::shapes::BRANCHING;
use drt_fixtures::{Shape, make_set};
use drt_graph::{Graphs, check};
use drt_model::{Memory, Row};
use std::alloc::Global;
use std::test::Fail;

// An entry as its vertex, offset and work.
type Entry = (u32, u64, u64);

// A bound, fronts, and the rule that they break.
type Case<'a> = (u64, &'a [&'a [Entry]], Option<u8>);

fn entry(vertex: u32, offset: u64, work: u64) -> Result<FrontEntry, Fail>
    ensures { IfOk result (λ entry. IsInRangeEntry entry) }
{
    if offset > 1000000000000000000 || work > 2000000000000000000 {
        return Err("in range".into());
    }
    Ok(FrontEntry {
        vertex,
        offset,
        work,
    })
}

fn front(alloc: Global, entries: &[Entry]) -> Result<Row<FrontEntry>, Fail>
    ensures { IfOk result (λ front. All IsInRangeEntry front) }
{
    let mut front = Vec::new(alloc);
    'entries: for i in 0..entries.len() {
        let (vertex, offset, work) = entries[i];
        front.push(entry(vertex, offset, work)?)?;
    }
    Ok(Row::from_vec(front))
}

fn fronts(alloc: Global, given: &[&[Entry]]) -> Result<Vec<Row<FrontEntry>>, Fail>
    ensures { IfOk result (λ fronts. All (All IsInRangeEntry) fronts.items) }
{
    let mut fronts = Vec::new(alloc);
    'tasks: for i in 0..given.len() {
        fronts.push(front(alloc, given[i])?)?;
    }
    Ok(fronts)
}

// The least number of a rule of 12 to 15 that the fronts break within the bound.
fn broken_rule(
    alloc: Global,
    graphs: &Graphs,
    fronts: &[Row<FrontEntry>],
    bound: u64,
) -> Result<Option<u8>, Memory>
    requires { All (All IsInRangeEntry) fronts.now }
{
    if !are_in_order(graphs, fronts, bound) {
        return Ok(Some(12));
    }
    if !have_openings(graphs, fronts, bound) {
        return Ok(Some(13));
    }
    if !are_closed(graphs, fronts, bound) {
        return Ok(Some(14));
    }
    if !have_room(alloc, graphs, fronts, bound)? {
        return Ok(Some(15));
    }
    Ok(None)
}

// Whether the fronts of the case break its rule and none of lower number, for a set of tasks of these shapes.
fn is_judged(alloc: Global, shapes: &[Shape<'_>], case: Case<'_>) -> Result<bool, Fail> {
    let (bound, given, wanted) = case;
    let set = make_set(alloc, shapes)?.ok_or("within the limits")?;
    let graphs = check(alloc, &set)?;
    let fronts = fronts(alloc, given)?;
    Ok(broken_rule(alloc, &graphs, fronts.as_slice(), bound)? == wanted)
}

// Fronts within bounds that are no horizon of their set.
#[test]
fn fronts_are_judged_within_any_bound(rt: HostRuntime) -> Result<(), Fail> {
    let two: [Shape<'_>; 2] = [BRANCHING, (&[(2, 4)], &[(0, 0, 10)])];
    let three: [Shape<'_>; 2] = [BRANCHING, (&[(3, 4)], &[(0, 0, 10)])];
    let single: [Shape<'_>; 1] = [(&[(1, 2), (1, 3)], &[])];
    let cases: [(&[Shape<'_>], Case<'_>); 6] = [
        // One tick past the bound.
        (&two, (3, &[&[(0, 0, 1)], &[(0, 0, 2)]], Some(12))),
        // Nothing is due by then.
        (&two, (1, &[&[], &[]], None)),
        // The first job of the first task is due after two ticks.
        (&two, (3, &[&[], &[]], Some(13))),
        // The extension of the last entry of the first vertex is left out, and there is no room either.
        (
            &three,
            (
                12,
                &[
                    &[(0, 0, 1), (0, 5, 2), (0, 8, 5), (1, 0, 4), (1, 2, 5)],
                    &[(0, 0, 3)],
                ],
                Some(14),
            ),
        ),
        // The greatest offset and work, due at the bound and past it.
        (
            &single,
            (
                1000000000000000002,
                &[&[
                    (0, 0, 1),
                    (0, 1000000000000000000, 2000000000000000000),
                    (1, 0, 1),
                ]],
                Some(15),
            ),
        ),
        (
            &single,
            (
                1000000000000000001,
                &[&[
                    (0, 0, 1),
                    (0, 1000000000000000000, 2000000000000000000),
                    (1, 0, 1),
                ]],
                Some(12),
            ),
        ),
    ];
    for (shapes, case) in cases {
        assert!(rt; is_judged(rt.alloc(), shapes, case)?);
    }
    Ok(())
}

// Whether a front of a job of one tick after each tick, of 20,000 ticks, breaks that rule within the bound.
fn is_long_judged(alloc: Global, bound: u64, wanted: Option<u8>) -> Result<bool, Fail> {
    let mut entries = Vec::new(alloc);
    for i in 0..20000u64 {
        entries.push((0, i, i + 1))?;
    }
    let given = [entries.as_slice()];
    is_judged(alloc, &[(&[(1, 1)], &[(0, 0, 1)])], (bound, &given, wanted))
}

#[test]
fn a_front_of_twenty_thousand_entries_is_judged_at_once(rt: HostRuntime) -> Result<(), Fail> {
    for (bound, wanted) in [(20000, None), (20001, Some(14)), (19999, Some(12))] {
        assert!(rt; is_long_judged(rt.alloc(), bound, wanted)?, "up to {bound}");
    }
    Ok(())
}
