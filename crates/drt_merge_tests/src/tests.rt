//! Fronts by hand, and fronts of drawn tasks.
ghost use Rattle.std.specs.Prelude.{◌≤◌};

use drt_fixtures::shapes::RETURNING;
use drt_fixtures::{Shape, make_set};
use drt_graph::{FrontEntry, check};
use drt_merge::{Patience, merged_front};
use drt_test_tools::{Draws, drawn_set};
use std::alloc::Global;
use std::test::Fail;

fn label(vertex: u32, offset: u64, work: u64) -> FrontEntry {
    FrontEntry {
        vertex,
        offset,
        work,
    }
}

// The label that is found first at the last vertex is the later one.
const LATER_FIRST: Shape<'static> = (&[(3, 1), (1, 1), (1, 1)], &[(0, 2, 4), (1, 2, 2)]);

// Whether that is the front of the task's walks up to the bound; an empty list stands for no front within the budget, too.
fn has_front(
    alloc: Global,
    shape: Shape<'_>,
    bound: u64,
    budget: u64,
    wanted: &[FrontEntry],
) -> Result<bool, Fail> {
    if bound > 1000 || budget > 1000000 {
        return Err("a bound of at most 1,000 and a budget of at most 1,000,000".into());
    }
    let set = make_set(alloc, &[shape])?.ok_or("within the limits")?;
    let graphs = check(alloc, &set)?;
    let graph = graphs.graph(0);
    match merged_front(alloc, graph, bound, budget, Patience::ToTheEnd)? {
        Some(front) => Ok(front.as_slice() == wanted),
        None => Ok(wanted.is_empty()),
    }
}

// Whether that is the front of the task's walks up to the bound with the greatest budget, which is enough, so it isn't given up.
fn has_front_in_hope(
    alloc: Global,
    shape: Shape<'_>,
    bound: u64,
    wanted: &[FrontEntry],
) -> Result<bool, Fail> {
    if bound > 1000 {
        return Err("a bound of at most 1,000".into());
    }
    let set = make_set(alloc, &[shape])?.ok_or("within the limits")?;
    let graphs = check(alloc, &set)?;
    let graph = graphs.graph(0);
    match merged_front(alloc, graph, bound, 1000000, Patience::WhileHopeful)? {
        Some(front) => Ok(front.as_slice() == wanted),
        None => Ok(false),
    }
}

// Each of the five labels of RETURNING up to 5 counts three steps.
#[test]
fn fronts_have_the_undominated_labels_within_the_budget(rt: HostRuntime) -> Result<(), Fail> {
    let returning = [
        label(0, 0, 1),
        label(1, 0, 2),
        label(2, 0, 1),
        label(2, 1, 3),
        label(2, 4, 4),
    ];
    let later_first = [
        label(0, 0, 3),
        label(1, 0, 1),
        label(2, 0, 1),
        label(2, 2, 2),
        label(2, 4, 4),
    ];
    let cases: [(Shape<'_>, u64, u64, &[FrontEntry]); 6] = [
        (RETURNING, 5, 1000000, returning.as_slice()),
        (RETURNING, 5, 15, returning.as_slice()),
        (RETURNING, 5, 14, &[]),
        (RETURNING, 4, 1000000, &returning[..4]),
        (RETURNING, 0, 1000000, &[]),
        (LATER_FIRST, 5, 1000000, later_first.as_slice()),
    ];
    for (shape, bound, budget, wanted) in cases {
        assert!(rt;
            has_front(rt.alloc(), shape, bound, budget, wanted)?,
            "up to {bound} with {budget}"
        );
        let is_kept = budget < 1000000 || has_front_in_hope(rt.alloc(), shape, bound, wanted)?;
        assert!(rt; is_kept, "up to {bound} in hope");
    }
    Ok(())
}

// Two vertices in a line. Their first labels count three steps and two, and the one behind the edge counts two.
const LINE: Shape<'static> = (&[(1, 1), (1, 1)], &[(0, 1, 1)]);

// Whether a budget of seven steps, which is enough for LINE, is given up in hope of a thousand ticks: five steps led to an offset of one.
fn is_given_up(alloc: Global) -> Result<bool, Fail> {
    let set = make_set(alloc, &[LINE])?.ok_or("within the limits")?;
    let graphs = check(alloc, &set)?;
    let graph = graphs.graph(0);
    let hoped = merged_front(alloc, graph, 1000, 7, Patience::WhileHopeful)?;
    let whole = merged_front(alloc, graph, 1000, 7, Patience::ToTheEnd)?;
    Ok(hoped.is_none() && whole.is_some())
}

#[test]
fn a_budget_that_is_unlikely_to_last_is_given_up(rt: HostRuntime) -> Result<(), Fail> {
    assert!(rt; is_given_up(rt.alloc())?);
    Ok(())
}

// Whether each task of the next drawn set has a front up to the bound.
fn have_fronts(alloc: Global, draws: &mut Draws, bound: u64) -> Result<bool, Fail>
    requires { bound ≤ 1000 }
{
    let set = drawn_set(alloc, draws)?.ok_or("within the limits")?;
    let graphs = check(alloc, &set)?;
    for i in 0..graphs.count() {
        if merged_front(alloc, graphs.graph(i), bound, 1000000, Patience::ToTheEnd)?.is_none() {
            return Ok(false);
        }
    }
    Ok(true)
}

#[test]
fn drawn_tasks_have_a_front(rt: HostRuntime) -> Result<(), Fail> {
    let mut draws = Draws { state: 7 };
    for turn in 0..60u64 {
        assert!(rt;
            have_fronts(rt.alloc(), &mut draws, turn * 4)?,
            "turn {turn}"
        );
    }
    Ok(())
}
