//! Where a run spends its budget, as its trail shows.
use crate::running::answer_to;
use drt_fixtures::texts::{BRANCHING_LATE, OVERLOADED, PERIODIC, TOO_LITTLE_ROOM};
use drt_pool::OpenGate;
use drt_refine::{FrontierEntry, FrontierStep};
use drt_table::{Entry, TableStep};
use drt_top::Trail;
use std::alloc::Global;
use std::sync::Wait;
use std::test::Fail;
use std::thread::Threads;

// What a trail must be: none, the last step time of a search for an overload, or the steps of a search of the first task's walks
// or of a refinement at a vertex of a task.
#[derive(Clone, Copy)]
enum Wanted<'a> {
    Nothing,
    Overload {
        last: u64,
    },
    Table {
        steps: &'a [Entry],
    },
    Refine {
        subject: (u32, u32),
        steps: &'a [FrontierEntry],
    },
}

// Whether a trail is so.
fn is_wanted(trail: &Trail, wanted: Wanted<'_>) -> bool {
    match (trail, wanted) {
        (Trail::Nothing, Wanted::Nothing) => true,
        (Trail::Overload { last }, Wanted::Overload { last: wanted }) => *last == wanted,
        (Trail::Table { task, log }, Wanted::Table { steps }) => {
            *task == 0 && log.as_slice() == steps
        }
        (Trail::Refine { task, vertex, log }, Wanted::Refine { subject, steps }) => {
            (*task, *vertex) == subject && log.as_slice() == steps
        }
        _ => false,
    }
}

// Whether a run ends with that status and trail.
fn leaves(
    rt: &(impl Threads + Wait + Sync),
    alloc: Global,
    words: &str,
    text: &str,
    status: u8,
    wanted: Wanted<'_>,
) -> Result<bool, Fail> {
    let (outcome, _held) = answer_to(rt, alloc, words, text.as_bytes(), &OpenGate)?;
    Ok(outcome.status == status && is_wanted(&outcome.trail, wanted))
}

// A dossier in which nothing is decided.
const UNDECIDED: &str =
    "drt-dossier 1\npolicy edf\ndrt 1\ntask T1\nvertex a 1 2\nvertex b 4 6\nedge a b 2\nedge b a 8\nedge a a 5\ntask T2\nvertex c 2 4\nedge c c 10\nend\nevidence undecided\nclose\n";

const TAKE: [Entry; 1] = [Entry {
    worker: 0,
    step: TableStep::Take,
}];

// A step of the one worker.
fn by_one(step: FrontierStep) -> FrontierEntry {
    FrontierEntry { worker: 0, step }
}

// An overload is found by its fifth step time, and `check` spends nothing.
#[test]
fn a_spent_budget_is_shown_by_its_trail(rt: HostRuntime) -> Result<(), Fail> {
    let one = [by_one(FrontierStep::Take)];
    let five = [
        by_one(FrontierStep::Take),
        by_one(FrontierStep::Split { id: 0, place: 0 }),
        by_one(FrontierStep::Take),
        by_one(FrontierStep::Pass { id: 1, time: 4 }),
        by_one(FrontierStep::Take),
    ];
    let one = Wanted::Refine {
        subject: (0, 0),
        steps: one.as_slice(),
    };
    let five = Wanted::Refine {
        subject: (1, 0),
        steps: five.as_slice(),
    };
    let take = Wanted::Table {
        steps: TAKE.as_slice(),
    };
    let cases = [
        ("sp --workers 1 --budget 1", PERIODIC, 3u8, one),
        ("sp --workers 1 --budget 5", TOO_LITTLE_ROOM, 3, five),
        ("edf --budget 1", BRANCHING_LATE, 3, take),
        (
            "edf --budget 4",
            OVERLOADED,
            3,
            Wanted::Overload { last: 10 },
        ),
        ("edf --budget 5", OVERLOADED, 1, Wanted::Nothing),
        ("check", UNDECIDED, 3, Wanted::Nothing),
    ];
    for (words, text, status, wanted) in cases {
        assert!(rt;
            leaves(&rt, rt.alloc(), words, text, status, wanted)?,
            "{words}"
        );
    }
    Ok(())
}
