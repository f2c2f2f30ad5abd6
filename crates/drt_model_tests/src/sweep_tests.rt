ghost use Rattle.std.specs.Prelude.{IfOk};
ghost use Rattle.drt_sweep.specs.DueWorks.{AreOfTasks};

use drt_sweep::{DueWork, first_excess, rises};
use std::alloc::Global;
use std::test::Fail;

// Works from the times at which they are due, their tasks and their amounts.
fn due_works(alloc: Global, numbers: &[(u64, u32, u64)]) -> Result<Vec<DueWork>, Fail>
    ensures { IfOk result (λ works. AreOfTasks works.items) }
{
    let mut works = Vec::new(alloc);
    'works: for (due, task, work) in numbers {
        works.push(DueWork {
            due: *due,
            task: *task % 32,
            work: *work,
        })?;
    }
    Ok(works)
}

// Whether this is the first time with too much work, of all works and of those that are left where the greatest rise.
fn is_excess(
    alloc: Global,
    numbers: &[(u64, u32, u64)],
    wanted: Option<u64>,
) -> Result<bool, Fail> {
    let left = rises(alloc, due_works(alloc, numbers)?)?;
    Ok(first_excess(due_works(alloc, numbers)?) == wanted && first_excess(left) == wanted)
}

// Works by the times at which they are due, their tasks and their amounts, and the first time with too much work.
const CASES: [(&'static [(u64, u32, u64)], Option<u64>); 7] = [
    (&[], None),
    // As much work as time is not too much.
    (&[(5, 0, 5)], None),
    (&[(5, 0, 6)], Some(5)),
    // At 4 the works are 1 + 3, at 6 they are 4 + 3.
    (&[(8, 0, 5), (2, 0, 1), (6, 0, 4), (4, 1, 3)], Some(6)),
    // The works of one task are not added.
    (&[(2, 31, 2), (3, 31, 3), (4, 31, 2)], None),
    // Works that are due at once are added over the tasks, in any order.
    (&[(7, 1, 4), (7, 0, 4)], Some(7)),
    (&[(9, 0, 10), (3, 2, 4), (3, 1, 1)], Some(3)),
];

#[test]
fn the_least_time_with_too_much_work_is_found(rt: HostRuntime) -> Result<(), Fail> {
    for (numbers, wanted) in CASES {
        assert!(rt; is_excess(rt.alloc(), numbers, wanted)?);
    }
    Ok(())
}

// Works, and those of them that are left, in the order in which they are left.
const RISES: [(&'static [(u64, u32, u64)], &'static [(u64, u32, u64)]); 5] = [
    (&[], &[]),
    // One stretch stays as it is.
    (&[(2, 0, 3), (4, 0, 1)], &[(2, 0, 3), (4, 0, 1)]),
    // Of two stretches those are dropped that are due after a greater work.
    (
        &[
            (2, 0, 1),
            (5, 0, 4),
            (9, 0, 5),
            (3, 0, 2),
            (5, 0, 3),
            (8, 0, 4),
        ],
        &[(2, 0, 1), (3, 0, 2), (5, 0, 4), (9, 0, 5)],
    ),
    // Three stretches: the third is merged in a second round.
    (
        &[(4, 0, 7), (3, 0, 5), (2, 0, 2), (6, 0, 7)],
        &[(2, 0, 2), (3, 0, 5), (4, 0, 7)],
    ),
    // A work of another task is none of this one's.
    (&[(5, 1, 3), (4, 0, 6)], &[(4, 0, 6), (5, 1, 3)]),
];

#[test]
fn the_works_at_which_the_greatest_rise_are_left(rt: HostRuntime) -> Result<(), Fail> {
    for (numbers, wanted) in RISES {
        let left = rises(rt.alloc(), due_works(rt.alloc(), numbers)?)?;
        assert!(rt; left == due_works(rt.alloc(), wanted)?);
    }
    Ok(())
}
