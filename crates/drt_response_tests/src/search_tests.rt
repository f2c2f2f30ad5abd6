//! Searches of worked forests. What is taken, and in which order, was worked out by hand.

use crate::answers::FirstIsLate;
use crate::searches::{Terms, is_reached, is_spent, is_spent_from, search};
use drt_pool::{EagerGate, OpenGate};
use drt_test_tools::{even_walks, three_walks, twelve_walks};
use drt_tree::Forest;
use std::alloc::Global;
use std::sync::Wait;
use std::test::Fail;
use std::thread::Threads;

// Whether one worker takes these combinations and no more: each lower budget is spent on the first of them, and with a budget of
// their number or more these ticks are reached by these leaves.
fn takes<R: Threads + Wait + Sync>(
    rt: &R,
    alloc: Global,
    terms: &Terms<'_>,
    taken: &[&[u32]],
    ticks: u64,
    leaves: &[u32],
) -> Result<bool, Fail> {
    for budget in 1..taken.len() {
        let found = search(rt, alloc, terms, 1, budget as u64, &OpenGate)?;
        if !is_spent(&found, &taken[..budget]) {
            return Ok(false);
        }
    }
    let just = search(rt, alloc, terms, 1, taken.len() as u64, &OpenGate)?;
    let more = search(rt, alloc, terms, 1, 1_000_000, &OpenGate)?;
    Ok(is_reached(&just, ticks, leaves) && is_reached(&more, ticks, leaves))
}

// The root's sums with the job are 5, 5, 5, 5 and 6 ticks, so no time passes and it is split. Its left part passes at 5 and is split. The
// walk of 2 ticks reaches 4, that of 3 ticks 5. The right part has 4 ticks up to 4, and is skipped.
#[test]
fn a_search_of_three_walks_takes_five_combinations(rt: HostRuntime) -> Result<(), Fail> {
    let (forest, root) = three_walks(rt.alloc())?.expect(&rt, "a tree");
    let terms = Terms {
        forest: &forest,
        roots: &[root],
        wcet: 2,
        deadline: 5,
    };
    let taken: [&[u32]; 5] = [&[4], &[3], &[0], &[1], &[2]];
    assert!(rt; takes(&rt, rt.alloc(), &terms, &taken, 5, &[1])?);
    Ok(())
}

// Behind both walks the job is done after 4 ticks. The first one reaches that, and the second is skipped.
#[test]
fn of_two_walks_of_the_same_time_the_first_is_shown(rt: HostRuntime) -> Result<(), Fail> {
    let (forest, root) = even_walks(rt.alloc())?.expect(&rt, "a tree");
    let terms = Terms {
        forest: &forest,
        roots: &[root],
        wcet: 1,
        deadline: 10,
    };
    let taken: [&[u32]; 3] = [&[2], &[0], &[1]];
    assert!(rt; takes(&rt, rt.alloc(), &terms, &taken, 4, &[0])?);
    Ok(())
}

// The job is done after 7 ticks behind the first walk of both tasks, after 8 behind the first of one and the second of the other, and
// after 9 behind the second of both. The walks of the first task are taken apart first. Of its second walk the first part of the other
// task is skipped, since it doesn't come later than 8.
#[test]
fn a_search_of_two_tasks_takes_seven_combinations(rt: HostRuntime) -> Result<(), Fail> {
    let (forest, root) = even_walks(rt.alloc())?.expect(&rt, "a tree");
    let terms = Terms {
        forest: &forest,
        roots: &[root, root],
        wcet: 1,
        deadline: 10,
    };
    let taken: [&[u32]; 7] = [
        &[2, 2],
        &[0, 2],
        &[0, 0],
        &[0, 1],
        &[1, 2],
        &[1, 0],
        &[1, 1],
    ];
    assert!(rt; takes(&rt, rt.alloc(), &terms, &taken, 9, &[1, 1])?);
    Ok(())
}

// Whether so many workers spend the budget on as many combinations, the roots first, and reach these ticks by these leaves with one more.
fn is_just_short<R: Threads + Wait + Sync>(
    rt: &R,
    alloc: Global,
    terms: &Terms<'_>,
    workers: u32,
    short: u64,
    ticks: u64,
    leaves: &[u32],
) -> Result<bool, Fail> {
    let less = search(rt, alloc, terms, workers, short, &OpenGate)?;
    let just = search(
        rt,
        alloc,
        terms,
        workers,
        short.saturating_add(1),
        &OpenGate,
    )?;
    Ok(is_spent_from(&less, terms.roots, short) && is_reached(&just, ticks, leaves))
}

// One worker takes the root, its left parts down to leaves 0 and 1, and skips leaf 2, the leaves 3 to 5 and 6 to 11: 9 combinations. Each worker more
// is dealt a part that the one of most leaves 0 to 2 loses: with two it takes 7 combinations, with three 5, with four 3, and the other parts, which come
// after it, are skipped. With five, leaf 0 comes first, and the leaves 6 to 11 next, where only 2 ticks are reached yet: all 11 combinations of them are
// taken. A budget of 9 or 10 is spent there, and one worker searches again, for whom it is enough.
#[test]
fn a_budget_that_a_part_spends_is_enough_for_one_worker(rt: HostRuntime) -> Result<(), Fail> {
    let (forest, root) = twelve_walks(rt.alloc())?.expect(&rt, "a tree");
    let terms = Terms {
        forest: &forest,
        roots: &[root],
        wcet: 1,
        deadline: 30,
    };
    for (workers, short) in [(1u32, 8u64), (2, 6), (3, 4), (4, 2), (5, 8)] {
        assert!(rt;
            is_just_short(&rt, rt.alloc(), &terms, workers, short, 21, &[1])?,
            "by {workers}"
        );
    }
    Ok(())
}

// Whether 2, 4 and 16 workers that begin together reach these ticks by these leaves.
fn all_reach<R: Threads + Wait + Sync>(
    rt: &R,
    alloc: Global,
    terms: &Terms<'_>,
    ticks: u64,
    leaves: &[u32],
) -> Result<bool, Fail> {
    for workers in [2u32, 4, 16] {
        let found = search(rt, alloc, terms, workers, 1_000, &EagerGate)?;
        if !is_reached(&found, ticks, leaves) {
            return Ok(false);
        }
    }
    Ok(true)
}

// Where one tuple alone has the greatest time, all workers show that one.
#[test]
fn however_many_workers_there_are_the_one_tuple_is_shown(rt: HostRuntime) -> Result<(), Fail> {
    let alloc = rt.alloc();
    let (three, root) = three_walks(alloc)?.expect(&rt, "a tree");
    let one = Terms {
        forest: &three,
        roots: &[root],
        wcet: 2,
        deadline: 5,
    };
    assert!(rt; all_reach(&rt, alloc, &one, 5, &[1])?);
    let (even, root) = even_walks(alloc)?.expect(&rt, "a tree");
    let two = Terms {
        forest: &even,
        roots: &[root, root],
        wcet: 1,
        deadline: 10,
    };
    assert!(rt; all_reach(&rt, alloc, &two, 9, &[1, 1])?);
    Ok(())
}

// Where two tuples have the greatest time, two workers show one of them, whoever is late.
#[test]
fn of_two_walks_of_the_same_time_two_workers_show_one(rt: HostRuntime) -> Result<(), Fail> {
    let (forest, root) = even_walks(rt.alloc())?.expect(&rt, "a tree");
    let terms = Terms {
        forest: &forest,
        roots: &[root],
        wcet: 1,
        deadline: 10,
    };
    let found = search(&rt, rt.alloc(), &terms, 2, 1_000, &FirstIsLate)?;
    assert!(rt; is_reached(&found, 4, &[0]) || is_reached(&found, 4, &[1]));
    Ok(())
}
