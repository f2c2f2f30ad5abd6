//! What workers find together, by one thread and by more.

use crate::frontier_driver::{has_states, make_effort, work};
use drt_crew::Crew;
use drt_pool::{EagerGate, Gate, OpenGate};
use drt_refine::{CombinationState, FrontierReply};
use drt_test_tools::{Meeting, three_walks, two_walks};
use std::alloc::Global;
use std::process::Abort;
use std::sync::Wait;
use std::test::Fail;
use std::thread::Threads;

const SETTLED: [CombinationState; 3] = [
    CombinationState::Split {
        place: 0,
        left: 1,
        right: 2,
    },
    CombinationState::Passed(5),
    CombinationState::Passed(4),
];

// Whether so many workers settle the combinations of three walks.
fn settles<G: Gate, R: Abort + Threads + Wait + Sync>(
    rt: &R,
    alloc: Global,
    workers: u32,
    gate: &G,
) -> Result<bool, Fail> {
    let (forest, root) = three_walks(alloc)?.ok_or("a tree")?;
    let crew = Crew {
        rt,
        alloc,
        effort: make_effort(rt, workers, 100),
        gate,
    };
    let (frontier, reply) = work(&crew, &forest, root, 5)?;
    Ok(reply == FrontierReply::Finished && has_states(&frontier, &SETTLED))
}

#[test]
fn however_many_workers_there_are_the_states_are_the_same(rt: HostRuntime) -> Result<(), Fail> {
    for workers in [1u32, 2, 16] {
        assert!(rt;
            settles(&rt, rt.alloc(), workers, &EagerGate)?,
            "with {workers} workers"
        );
    }
    Ok(())
}

// Whether one worker takes as many steps as the budget has with two walks, and ends with that reply.
fn ends<R: Abort + Threads + Wait + Sync>(
    rt: &R,
    alloc: Global,
    budget: u64,
    wanted: FrontierReply,
) -> Result<bool, Fail> {
    let (forest, root) = two_walks(alloc)?.ok_or("a tree")?;
    let crew = Crew {
        rt,
        alloc,
        effort: make_effort(rt, 1, budget),
        gate: &OpenGate,
    };
    let (frontier, reply) = work(&crew, &forest, root, 4)?;
    Ok(reply == wanted && frontier.log().len() as u64 == budget)
}

#[test]
fn six_steps_find_the_walk_that_is_too_much_and_five_are_too_few(
    rt: HostRuntime,
) -> Result<(), Fail> {
    for (budget, reply) in [(6u64, FrontierReply::Failed(2)), (5, FrontierReply::Spent)] {
        assert!(rt;
            ends(&rt, rt.alloc(), budget, reply)?,
            "with {budget} steps"
        );
    }
    Ok(())
}

#[test]
fn two_threads_refine_the_combinations_at_the_same_time(rt: HostRuntime) -> Result<(), Fail> {
    let gate = Meeting::at(0);
    assert!(rt; settles(&rt, rt.alloc(), 2, &gate)? && gate.times_met() == 1);
    Ok(())
}
