//! Worked traces and lists of releases, by hand.
use crate::looped::looped_set;
use drt_model::{Job, Memory, Policy, Release, TaskSet, legal, plain_trace};
use std::alloc::Global;
use std::test::Fail;

// a(2,4) with a loop of 4 and b(3,6) with a loop of 6, in a set of this version, with these priorities.
fn two_tasks(
    alloc: Global,
    version: u8,
    first: u32,
    second: u32,
) -> Result<Option<TaskSet>, Memory> {
    looped_set(alloc, version, &[(first, 2, 4), (second, 3, 6)])
}

// Whether two tasks of these priorities are a set of this version.
fn is_set(alloc: Global, version: u8, first: u32, second: u32) -> Result<bool, Memory> {
    Ok(two_tasks(alloc, version, first, second)?.is_some())
}

// A version, the priorities of two tasks, and whether they are a set of it.
const SETS: [(u8, u32, u32, bool); 9] = [
    (1, 1, 2, true),
    (1, 2, 1, false),
    (1, 1, 3, false),
    (2, 2, 1, true),
    (2, 1_000_000, 7, true),
    (2, 7, 7, false),
    (2, 0, 7, false),
    (2, 1, 1_000_001, false),
    (3, 1, 2, false),
];

#[test]
fn version_one_takes_its_priorities_from_the_order(rt: HostRuntime) -> Result<(), Fail> {
    for (i, (version, first, second, fits)) in SETS.iter().enumerate() {
        assert!(rt;
            is_set(rt.alloc(), *version, *first, *second)? == *fits,
            "set {i}"
        );
    }
    Ok(())
}

// A task, a vertex, a time and a need.
type Numbers = (u32, u32, u64, u64);

// The release of these numbers.
fn release(given: Numbers) -> Release {
    let (task, vertex, time, need) = given;
    Release {
        task,
        vertex,
        time,
        need,
    }
}

const LAST: Numbers = (1, 0, 0, 3);

const RELEASES: [(&'static [Numbers; 3], bool); 9] = [
    (&[(0, 0, 0, 2), (0, 0, 4, 2), LAST], true),
    (&[(0, 0, 7, 1), (0, 0, 900, 2), LAST], true),
    (&[(0, 0, 0, 2), (0, 0, 3, 2), LAST], false),
    (&[(0, 0, 0, 0), (0, 0, 4, 2), LAST], false),
    (&[(0, 0, 0, 3), (0, 0, 4, 2), LAST], false),
    (&[(0, 1, 0, 2), (0, 0, 4, 2), LAST], false),
    (&[(0, 0, 0, 2), LAST, (0, 0, 4, 2)], false),
    (&[(0, 0, 0, 2), (2, 0, 4, 2), LAST], false),
    (&[(0, 0, 9, 2), (0, 0, 4, 2), LAST], false),
];

// Whether three releases are legal.
fn are_legal(set: &TaskSet, given: &[Numbers; 3]) -> bool {
    let [x, y, z] = *given;
    legal(set, &[release(x), release(y), release(z)])
}

#[test]
fn legal_releases_stand_in_order_and_keep_separations_and_needs(
    rt: HostRuntime,
) -> Result<(), Fail> {
    let set = two_tasks(rt.alloc(), 1, 1, 2)?.ok_or("past the limits")?;
    for (i, (releases, fits)) in RELEASES.iter().enumerate() {
        assert!(rt; are_legal(&set, releases) == *fits, "list {i}");
    }
    assert!(rt; legal(&set, &[]));
    Ok(())
}

// A task, its priority, a time, a deadline and a need.
type JobNumbers = (u32, u32, u64, u64, u64);

// The job of these numbers.
fn job(given: JobNumbers) -> Job {
    let (task, priority, time, deadline, need) = given;
    Job {
        task,
        priority,
        time,
        deadline,
        need,
    }
}

// Whether the plain machine picks these jobs at the ticks 0 to 7.
fn is_traced(
    alloc: Global,
    policy: Policy,
    given: &[JobNumbers; 3],
    wanted: &[Option<u32>; 8],
) -> Result<bool, Fail> {
    let [x, y, z] = *given;
    let picks = plain_trace(alloc, policy, &[job(x), job(y), job(z)], 8)?;
    Ok(picks.as_slice() == wanted.as_slice())
}

const TWO_TASKS: [JobNumbers; 3] = [(0, 1, 0, 4, 2), (0, 1, 4, 8, 2), (1, 2, 0, 6, 3)];

const TIED: [JobNumbers; 3] = [(0, 9, 0, 5, 2), (1, 3, 0, 5, 1), (1, 3, 2, 7, 1)];

const LATE: [JobNumbers; 3] = [(0, 1, 1, 3, 3), (0, 1, 5, 9, 1), (1, 2, 9, 10, 1)];

const TRACES: [(Policy, &'static [JobNumbers; 3], &'static [Option<u32>; 8]); 6] = [
    (
        Policy::Fixed,
        &TWO_TASKS,
        &[
            Some(0),
            Some(0),
            Some(2),
            Some(2),
            Some(1),
            Some(1),
            Some(2),
            None,
        ],
    ),
    (
        Policy::Edf,
        &TWO_TASKS,
        &[
            Some(0),
            Some(0),
            Some(2),
            Some(2),
            Some(2),
            Some(1),
            Some(1),
            None,
        ],
    ),
    (
        Policy::Edf,
        &TIED,
        &[Some(0), Some(0), Some(1), Some(2), None, None, None, None],
    ),
    (
        Policy::Fixed,
        &TIED,
        &[Some(1), Some(0), Some(2), Some(0), None, None, None, None],
    ),
    (
        Policy::Fixed,
        &LATE,
        &[None, Some(0), Some(0), Some(0), None, Some(1), None, None],
    ),
    (
        Policy::Edf,
        &LATE,
        &[None, Some(0), Some(0), Some(0), None, Some(1), None, None],
    ),
];

#[test]
fn traces_by_hand_under_both_policies(rt: HostRuntime) -> Result<(), Fail> {
    for (i, (policy, jobs, want)) in TRACES.iter().enumerate() {
        assert!(rt; is_traced(rt.alloc(), *policy, jobs, want)?, "trace {i}");
    }
    Ok(())
}
