use drt_accepted::Accepted;
use drt_crew::Crew;
use drt_edf::{EdfAnswer, analyse_edf};
use drt_effort::Effort;
use drt_fixtures::{Shape, make_set};
use drt_graph::check;
use drt_test_tools::Meeting;
use std::alloc::Global;
use std::sync::Wait;
use std::test::Fail;
use std::thread::Threads;

// Four periodic tasks whose utilisation is 1 - 1/46,189, so that the horizon is far: 8 * 4,199 + 9 * 3,553 + 18 * 2,717 - 46,189 = 68,286 ticks.
const FAR: [Shape<'static>; 4] = [
    (&[(4, 9)], &[(0, 0, 11)]),
    (&[(3, 10)], &[(0, 0, 13)]),
    (&[(6, 14)], &[(0, 0, 17)]),
    (&[(1, 19)], &[(0, 0, 19)]),
];

// Whether the set is decided by two workers that begin to merge two tasks together, once the first task is done. With this budget no task
// has a wave table, and no other search asks the gate.
fn is_decided_together<R: Threads + Wait + Sync>(rt: &R, alloc: Global) -> Result<bool, Fail> {
    let set = make_set(alloc, FAR.as_slice())?.ok_or("within the limits")?;
    let graphs = check(alloc, &set).ok().ok_or("constrained")?;
    let gate = Meeting::at(0);
    let crew = Crew {
        rt,
        alloc,
        effort: Effort::new(2, 100_000),
        gate: &gate,
    };
    let answer = analyse_edf(&crew, &Accepted::of(&set, &graphs))?;
    Ok(matches!(answer, EdfAnswer::Done(_)) && gate.times_met() == 1)
}

#[test]
fn two_tasks_are_merged_at_the_same_time(rt: HostRuntime) -> Result<(), Fail> {
    assert!(rt; is_decided_together(&rt, rt.alloc())?);
    Ok(())
}
