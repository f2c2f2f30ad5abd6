use drt_ahead::{look_ahead, take_found};
use drt_crew::Crew;
use drt_effort::Effort;
use drt_model::Memory;
use drt_pool::{EagerGate, Gate};
use drt_test_tools::Meeting;
use std::alloc::Global;
use std::test::Fail;
use std::thread::Threads;

// Six jobs, whose answers are their places times ten.
const ORDER: [u32; 6] = [0, 3, 1, 4, 2, 5];

// So many workers, 1 to 16, with one step for each search.
fn effort_of(workers: u32) -> Effort {
    Effort::new(workers.clamp(1, 16), 1)
}

// What so many workers find of the jobs, where one of them fails for memory, and the answer of one is last.
fn find<G: Gate, R: Threads + Sync>(
    crew: &Crew<'_, G, R>,
    failing: u32,
    last: u64,
) -> Result<Vec<Option<u64>>, Memory> {
    let job = |place: u32| -> Result<u64, Memory> {
        if place == failing {
            return Err(Memory);
        }
        Ok(u64::from(place) * 10)
    };
    look_ahead(crew, ORDER.as_slice(), job, |answer: &u64| *answer == last)
}

// Whether the answers stand so at their places, and none is left where one was taken.
fn stand_so(found: &mut Vec<Option<u64>>, wanted: [Option<u64>; 6]) -> bool {
    for place in 0..6u32 {
        if take_found(found, place) != wanted[place as usize]
            || take_found(found, place).is_some()
        {
            return false;
        }
    }
    found.len() == 6
}

// Whether so many workers find these answers where one job fails for memory, and the answer of one is last.
fn finds<R: Threads + Sync>(
    rt: &R,
    alloc: Global,
    workers: u32,
    failing: u32,
    last: u64,
    wanted: [Option<u64>; 6],
) -> Result<bool, Memory> {
    let crew = Crew {
        rt,
        alloc,
        effort: effort_of(workers),
        gate: &EagerGate,
    };
    let mut found = find(&crew, failing, last)?;
    Ok(stand_so(&mut found, wanted))
}

// No job, and no answer.
const NONE: u32 = 9;

const NEVER: u64 = 99;

#[test]
fn answers_stand_at_their_places(rt: HostRuntime) -> Result<(), Fail> {
    let all = [Some(0), Some(10), Some(20), Some(30), Some(40), Some(50)];
    let but_the_first = [None, Some(10), Some(20), Some(30), Some(40), Some(50)];
    // The worker whose job fails does no other, so one worker does the rest in order: 3, which is last, 1 and 2.
    let up_to_the_last = [None, Some(10), Some(20), Some(30), None, None];
    let cases = [
        (1, NONE, NEVER, [None; 6]),
        (2, NONE, NEVER, all),
        (4, NONE, NEVER, all),
        (16, NONE, NEVER, all),
        (2, 0, NEVER, but_the_first),
        (2, 0, 30, up_to_the_last),
    ];
    for (workers, failing, last, wanted) in cases {
        let is_so = finds(&rt, rt.alloc(), workers, failing, last, wanted)?;
        assert!(rt;
            is_so,
            "by {workers} workers, {failing} failing, {last} last"
        );
    }
    Ok(())
}

// Whether two workers begin their first jobs together.
fn is_begun_together<R: Threads + Sync>(rt: &R, alloc: Global) -> Result<bool, Memory> {
    let gate = Meeting::at(0);
    let crew = Crew {
        rt,
        alloc,
        effort: effort_of(2),
        gate: &gate,
    };
    let found = find(&crew, NONE, NEVER)?;
    Ok(found.len() == 6 && gate.times_met() == 1)
}

#[test]
fn two_workers_are_at_work_at_the_same_time(rt: HostRuntime) -> Result<(), Fail> {
    assert!(rt; is_begun_together(&rt, rt.alloc())?);
    Ok(())
}
