//! What is answered of a set, beside plain values.

use drt_accepted::Accepted;
use drt_crew::Crew;
use drt_effort::Effort;
use drt_graph::check;
use drt_model::{Release, Row, TaskSet};
use drt_pool::Gate;
use drt_response::{Answer, Response, ResponseTrail, respond};
use std::alloc::Global;
use std::sync::Wait;
use std::test::Fail;
use std::thread;
use std::thread::Threads;

// How often the second gate lets others go on before the first worker's first turn.
const LOOKS: u32 = 30;

/// The number of a task, of a vertex of it, and the vertex's response time, in ticks.
pub(crate) type Ticks = (u32, u32, u64);

/// The gate that holds the first worker for a while.
#[derive(Clone, Copy)]
pub(crate) struct FirstIsLate;

impl Gate for FirstIsLate {
    fn before(&self, worker: u32, turn: u64) {
        if worker > 0 || turn > 0 {
            return;
        }
        for _ in 0..LOOKS {
            thread::yield_now();
        }
    }

    fn alone(&self) -> u64 {
        0
    }
}

/// The answer of so many workers.
pub(crate) fn answer_of<G: Gate, R: Threads + Wait + Sync>(
    rt: &R,
    alloc: Global,
    set: TaskSet,
    workers: u32,
    budget: u64,
    gate: &G,
) -> Result<Answer<Row<Response>, ResponseTrail>, Fail> {
    if workers < 1 || workers > 16 || budget < 1 || budget > 1_000_000 {
        return Err("the workers and the budget are in range".into());
    }
    let Ok(graphs) = check(alloc, &set) else {
        return Err("the deadlines are constrained".into());
    };
    let crew = Crew {
        rt,
        alloc,
        effort: Effort::new(workers, budget),
        gate,
    };
    Ok(respond(&crew, &Accepted::of(&set, &graphs))?)
}

/// Whether the responses are these, in order.
pub(crate) fn have_ticks(responses: &[Response], ticks: &[Ticks]) -> bool {
    if responses.len() != ticks.len() {
        return false;
    }
    for i in 0..ticks.len() {
        let response = &responses[i];
        if (response.task, response.vertex, response.ticks) != ticks[i] {
            return false;
        }
    }
    true
}

// Whether all releases come before the number of ticks.
fn is_before(releases: &[Release], ticks: u64) -> bool {
    for release in releases {
        if release.time >= ticks {
            return false;
        }
    }
    true
}

/// Whether the releases of each response come before the job finishes.
pub(crate) fn end_before_finish(responses: &[Response]) -> bool {
    for response in responses {
        if !is_before(response.releases.as_slice(), response.ticks) {
            return false;
        }
    }
    true
}

/// Whether the answer has these responses, with releases before each finish; none where it is a no.
pub(crate) fn is_answer(
    answer: &Answer<Row<Response>, ResponseTrail>,
    ticks: Option<&[Ticks]>,
) -> bool {
    match answer {
        Answer::Meets(responses) => match ticks {
            Some(ticks) => {
                have_ticks(responses.as_slice(), ticks) && end_before_finish(responses.as_slice())
            }
            None => false,
        },
        Answer::Misses(_) => ticks.is_none(),
        Answer::Undecided(_) => false,
    }
}
