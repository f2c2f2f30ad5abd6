//! Rows that were worked by hand.
ghost use Rattle.std.specs.Prelude.{◌≡◌, ◌≤◌, length, true};
ghost use Rattle.drt_steps.specs.Time.{AreChosen};

use drt_steps::{Steps, least_time};
use std::alloc::{AllocError, Global};
use std::cmp::Ordering;
use std::test::Fail;

// The function with one value at first and as much more after each of the offsets.
fn stairs(
    alloc: Global,
    bound: u64,
    value: u64,
    offsets: &[u64],
    work: u64,
) -> Result<Steps, AllocError>
    requires from { 1 ≤ bound }
    requires to { bound ≤ 1000000 }
    requires value { value ≤ 1000 }
    requires work { work ≤ 1000 }
    requires few { length offsets.now ≤ 1000 }
{
    let mut function = Steps::flat(alloc, bound, value)?;
    for offset in offsets {
        function = function.raise_after(alloc, *offset, work)?;
    }
    Ok(function)
}

// A bound, a value at first, offsets, and the work that comes after each of them.
type Stairs<'a> = (u64, u64, &'a [u64], u64);

// The function of these numbers.
fn make_steps(alloc: Global, given: Stairs<'_>) -> Result<Steps, Fail> {
    let (bound, value, offsets, work) = given;
    if bound < 1 || bound > 1_000_000 || value > 1_000 || work > 1_000 || offsets.len() > 1_000 {
        return Err("small numbers".into());
    }
    Ok(stairs(alloc, bound, value, offsets, work)?)
}

// Whether these are the function's values.
fn has_values(function: &Steps, values: &[u64]) -> bool {
    if function.bound() != values.len() as u64 {
        return false;
    }
    for t in 1..=function.bound() {
        if function.at(t) != values[t as usize - 1] {
            return false;
        }
    }
    true
}

// Whether these are the values of the function of these numbers, and of a copy of it.
fn are_values(alloc: Global, given: Stairs<'_>, values: &[u64]) -> Result<bool, Fail> {
    let function = make_steps(alloc, given)?;
    let copy = function.copy(alloc)?;
    Ok(has_values(&function, values) && has_values(&copy, values))
}

const VALUES: [(Stairs<'static>, &'static [u64]); 5] = [
    ((4, 2, &[3], 5), &[2, 2, 2, 7]),
    ((4, 2, &[4], 5), &[2, 2, 2, 2]),
    ((4, 2, &[0], 5), &[7, 7, 7, 7]),
    ((5, 1, &[1], 3), &[1, 4, 4, 4, 4]),
    // Of many rises those before the time count.
    (
        (9, 1, &[5, 2, 7, 2, 9, 1], 10),
        &[1, 11, 31, 31, 31, 41, 41, 51, 51],
    ),
];

#[test]
fn work_released_at_a_time_counts_after_it(rt: HostRuntime) -> Result<(), Fail> {
    for (i, (given, values)) in VALUES.iter().enumerate() {
        assert!(rt; are_values(rt.alloc(), *given, values)?, "case {i}");
    }
    Ok(())
}

// Whether of two functions that cross neither covers the other, the earlier one is first in order, and both together have these values.
fn are_crossing(alloc: Global, early: &Steps, late: &Steps, values: &[u64]) -> Result<bool, Fail> {
    if early.bound() != late.bound() {
        return Ok(false);
    }
    let most = Steps::max_of(alloc, early, late)?;
    Ok(
        has_values(&most, values)
            && !early.covers(late)
            && !late.covers(early)
            && early.covers(early)
            && early.compare_from_end(late) == Ordering::Less,
    )
}

// The same of the functions of these numbers.
fn cross(alloc: Global, early: Stairs<'_>, late: Stairs<'_>, values: &[u64]) -> Result<bool, Fail> {
    let early = make_steps(alloc, early)?;
    let late = make_steps(alloc, late)?;
    are_crossing(alloc, &early, &late, values)
}

#[test]
fn at_each_time_the_greater_value_is_taken(rt: HostRuntime) -> Result<(), Fail> {
    assert!(rt;
        cross(
            rt.alloc(),
            (5, 2, &[1], 3),
            (5, 3, &[3], 4),
            &[3, 5, 5, 7, 7]
        )?
    );
    Ok(())
}

// Whether the first of two functions covers the second one and itself, and isn't covered.
fn is_above(early: &Steps, late: &Steps) -> bool {
    early.bound() == late.bound() && early.covers(late) && !late.covers(early) && late.covers(late)
}

// Whether the first one is greater at one time and stands behind the second one in order.
fn is_behind(early: &Steps, late: &Steps) -> bool {
    early.bound() == late.bound()
        && late.compare_from_end(early) == Ordering::Less
        && early.compare_from_end(early) == Ordering::Equal
}

// The function with one more rise at 2 in place of 3.
fn is_less_once(alloc: Global) -> Result<bool, Fail> {
    let early = make_steps(alloc, (6, 1, &[2, 4], 3))?;
    let late = make_steps(alloc, (6, 1, &[3, 4], 3))?;
    Ok(is_above(&early, &late) && is_behind(&early, &late))
}

#[test]
fn a_function_that_is_less_at_one_time_does_not_cover(rt: HostRuntime) -> Result<(), Fail> {
    assert!(rt; is_less_once(rt.alloc())?);
    Ok(())
}

// Whether of two functions that rise once, one tick apart, the earlier one covers the later one, which is less at just that time.
fn decides(alloc: Global, bound: u64, time: u64) -> Result<bool, Fail> {
    let early = make_steps(alloc, (bound, 1, &[time.saturating_sub(1)], 5))?;
    let late = make_steps(alloc, (bound, 1, &[time], 5))?;
    Ok(is_above(&early, &late))
}

// Each time of each bound decides a pair.
#[test]
fn each_time_can_decide_who_covers(rt: HostRuntime) -> Result<(), Fail> {
    for bound in 1..=20u64 {
        for time in 1..=bound {
            assert!(rt; decides(rt.alloc(), bound, time)?, "{time} of {bound}");
        }
    }
    Ok(())
}

// Whether each chosen number names a function of the pool that goes to the deadline.
fn are_chosen(deadline: u64, pool: &[Steps], chosen: &[u32]) -> bool
    ensures { result ≡ true → AreChosen deadline pool.now chosen.now }
{
    for k in chosen {
        if *k as usize >= pool.len() {
            return false;
        }
        if pool[*k as usize].bound() < deadline {
            return false;
        }
    }
    true
}

// An execution time, a deadline, the chosen functions, and the least time.
type Least<'a> = (u64, u64, &'a [u32], Option<u64>);

// Whether it is the least time.
fn is_least(pool: &[Steps], case: Least<'_>) -> bool {
    let (wcet, deadline, chosen, wanted) = case;
    are_chosen(deadline, pool, chosen)
        && wcet <= 1_000_000
        && chosen.len() <= 31
        && least_time(wcet, deadline, pool, chosen) == wanted
}

// Whether each is.
fn are_least(pool: &[Steps], cases: &[Least<'_>]) -> bool {
    for case in cases {
        if !is_least(pool, *case) {
            return false;
        }
    }
    true
}

// Whether each is, of the functions of these numbers.
fn have_least(alloc: Global, given: &[Stairs<'_>], cases: &[Least<'_>]) -> Result<bool, Fail> {
    let mut pool = Vec::new(alloc);
    for one in given {
        pool.push(make_steps(alloc, *one)?)?;
    }
    Ok(are_least(pool.as_slice(), cases))
}

const NONE_AHEAD: [Least<'static>; 5] = [
    (0, 3, &[], Some(1)),
    (1, 3, &[], Some(1)),
    (4, 4, &[], Some(4)),
    (4, 3, &[], None),
    (0, 0, &[], None),
];

#[test]
fn with_none_ahead_the_least_time_is_the_wcet(rt: HostRuntime) {
    assert!(rt; are_least(&[], &NONE_AHEAD));
}

const FOUR: [Stairs<'static>; 4] = [
    (5, 3, &[4], 1),
    (5, 3, &[], 0),
    (5, 2, &[4], 2),
    (5, 0, &[], 0),
];

const FOUR_LEAST: [Least<'static>; 6] = [
    (2, 5, &[0], None),
    (2, 5, &[1], Some(5)),
    (2, 5, &[2], Some(4)),
    (1, 5, &[3], Some(1)),
    (1, 5, &[1, 3], Some(4)),
    (0, 5, &[1, 2], None),
];

#[test]
fn the_least_time_is_when_all_work_is_done(rt: HostRuntime) -> Result<(), Fail> {
    assert!(rt; have_least(rt.alloc(), &FOUR, &FOUR_LEAST)?);
    Ok(())
}

const FLAT: [Stairs<'static>; 2] = [(40, 1, &[], 0), (40, 0, &[], 0)];

const FLAT_LEAST: [Least<'static>; 4] = [
    (1, 40, &[1; 31], Some(1)),
    (5, 40, &[0; 31], Some(36)),
    (9, 40, &[0; 31], Some(40)),
    (10, 40, &[0; 31], None),
];

#[test]
fn the_least_time_of_31_functions(rt: HostRuntime) -> Result<(), Fail> {
    assert!(rt; have_least(rt.alloc(), &FLAT, &FLAT_LEAST)?);
    Ok(())
}

// A function that rises by 1 after `offset`.
fn rise(alloc: Global, offset: u64) -> Result<Steps, Fail> {
    make_steps(alloc, (63, 1, &[offset], 1))
}

// Whether each is, of 31 functions that rise one after another, the last chosen first.
fn have_least_of_rises(alloc: Global, wanted: [Option<u64>; 3]) -> Result<bool, Fail> {
    let mut pool = Vec::new(alloc);
    let mut chosen = [0u32; 31];
    for k in 0..31u32 {
        pool.push(rise(alloc, 31 + k as u64)?)?;
        chosen[k as usize] = 30 - k;
    }
    let cases: [Least<'_>; 3] = [
        (1, 63, &chosen, wanted[0]),
        (1, 62, &chosen, wanted[1]),
        (0, 63, &chosen, wanted[2]),
    ];
    Ok(are_least(pool.as_slice(), &cases))
}

// At 1 tick the sum is 32, and from there on a rise of another function comes in at each tick, until at 63 all 31 are
// in and the sum is the time.
#[test]
fn each_rise_that_the_least_time_comes_by_counts(rt: HostRuntime) -> Result<(), Fail> {
    assert!(rt; have_least_of_rises(rt.alloc(), [Some(63), None, Some(31)])?);
    Ok(())
}
