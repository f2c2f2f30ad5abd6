//! Drawn sets, answered by tails and states alone, and by several workers, as one worker answers by trees, whose numbers are proved.

use crate::answers::{Ticks, answer_of, end_before_finish, have_ticks, is_answer};
use drt_accepted::Accepted;
use drt_crew::Crew;
use drt_effort::Effort;
use drt_fixtures::{Shape, make_set};
use drt_graph::check;
use drt_model::{Row, TaskSet};
use drt_pool::{EagerGate, Gate};
use drt_response::{Answer, Response, respond_by_states};
use drt_test_tools::{Draws, Meeting, drawn_set};
use std::alloc::Global;
use std::sync::Wait;
use std::test::Fail;
use std::thread::Threads;

const DRAWN_SETS: u32 = 250;

const BUDGET: u64 = 1_000_000;

// A task above one of two vertices: one tail, and the searches of three vertices.
const TWO_VERTICES: [Shape<'static>; 2] = [
    (&[(1, 4)], &[(0, 0, 4)]),
    (&[(1, 8), (2, 9)], &[(0, 1, 9), (1, 0, 9)]),
];

// The response of each vertex of each task, in order, as one worker answers; none where the set isn't schedulable.
fn ticks_of<R: Threads + Wait + Sync>(
    rt: &R,
    alloc: Global,
    set: TaskSet,
) -> Result<Option<Vec<Ticks>>, Fail> {
    match answer_of(rt, alloc, set, 1, BUDGET, &EagerGate)? {
        Answer::Meets(responses) => {
            let mut ticks = Vec::new(alloc);
            for response in responses.as_slice() {
                ticks.push((response.task, response.vertex, response.ticks))?;
            }
            Ok(Some(ticks))
        }
        Answer::Misses(_) => Ok(None),
        Answer::Undecided(_) => Err("the budget is enough".into()),
    }
}

// What tails and states say of a set by so many workers.
fn states_of<G: Gate, R: Threads + Wait + Sync>(
    rt: &R,
    alloc: Global,
    set: TaskSet,
    workers: u32,
    gate: &G,
) -> Result<Answer<Row<Response>, ()>, Fail> {
    if workers < 1 || workers > 16 {
        return Err("the workers are in range".into());
    }
    let Ok(graphs) = check(alloc, &set) else {
        return Err("the deadlines are constrained".into());
    };
    let crew = Crew {
        rt,
        alloc,
        effort: Effort::new(workers, BUDGET),
        gate,
    };
    Ok(respond_by_states(&crew, &Accepted::of(&set, &graphs))?)
}

// Whether these are the responses, with releases before each finish, or both say no.
fn are_those(states: &Answer<Row<Response>, ()>, ticks: &Option<Vec<Ticks>>) -> bool {
    match states {
        Answer::Meets(responses) => match ticks {
            Some(ticks) => {
                have_ticks(responses.as_slice(), ticks.as_slice())
                    && end_before_finish(responses.as_slice())
            }
            None => false,
        },
        Answer::Misses(_) => ticks.is_none(),
        Answer::Undecided(()) => false,
    }
}

// Whether so many workers say of the set that is drawn from this state, by trees and by states alone, what one does.
fn is_answered_by<R: Threads + Wait + Sync>(
    rt: &R,
    alloc: Global,
    state: u64,
    workers: u32,
    ticks: &Option<Vec<Ticks>>,
) -> Result<bool, Fail> {
    let mut draws = Draws { state };
    let set = drawn_set(alloc, &mut draws)?.ok_or("within the limits")?;
    let by_states = are_those(&states_of(rt, alloc, set, workers, &EagerGate)?, ticks);
    let mut again = Draws { state };
    let set = drawn_set(alloc, &mut again)?.ok_or("within the limits")?;
    let answer = answer_of(rt, alloc, set, workers, BUDGET, &EagerGate)?;
    let by_trees = match ticks {
        Some(ticks) => is_answer(&answer, Some(ticks.as_slice())),
        None => is_answer(&answer, None),
    };
    Ok(by_states && by_trees)
}

// Whether 1, 2, 4 and 16 workers say of the next drawn set what one does.
fn is_answered_alike<R: Threads + Wait + Sync>(
    rt: &R,
    alloc: Global,
    draws: &mut Draws,
) -> Result<bool, Fail> {
    let first = draws.state;
    let set = drawn_set(alloc, draws)?.ok_or("within the limits")?;
    let ticks = ticks_of(rt, alloc, set)?;
    for workers in [1u32, 2, 4, 16] {
        if !is_answered_by(rt, alloc, first, workers, &ticks)? {
            return Ok(false);
        }
    }
    Ok(true)
}

#[test]
fn drawn_sets_respond_alike_by_states_and_by_several_workers(rt: HostRuntime) -> Result<(), Fail> {
    let mut draws = Draws { state: 6 };
    for number in 0..DRAWN_SETS {
        assert!(rt;
            is_answered_alike(&rt, rt.alloc(), &mut draws)?,
            "set {number}"
        );
    }
    Ok(())
}

// They meet once in the searches of the analysis, and once in those of the responses.
#[test]
fn two_workers_search_two_vertices_at_once(rt: HostRuntime) -> Result<(), Fail> {
    let meeting = Meeting::at(0);
    let set = make_set(rt.alloc(), &TWO_VERTICES)?.ok_or("within the limits")?;
    let states = states_of(&rt, rt.alloc(), set, 2, &meeting)?;
    let wanted: [Ticks; 3] = [(0, 0, 1), (1, 0, 2), (1, 1, 3)];
    let mut ticks = Vec::new(rt.alloc());
    for response in wanted {
        ticks.push(response)?;
    }
    assert!(rt; are_those(&states, &Some(ticks)));
    assert_eq!(rt; meeting.times_met(), 2);
    Ok(())
}
