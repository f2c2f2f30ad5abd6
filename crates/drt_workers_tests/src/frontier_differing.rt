//! Workers that say something else than the frontier. No pass can be made to, so they call the board that the lock guards.

ghost use Rattle.std.specs.Prelude.{◌≡◌, ◌≤◌, length};
ghost use Rattle.drt_frontier_board.specs.FrontierBoard.{terms_of};
ghost use Rattle.drt_refine.specs.Facts.{AreInPlace};

use crate::frontier_driver::has_log;
use drt_frontier_board::{FrontierAnswer, FrontierBoard, FrontierFound, is_copy};
use drt_refine::{Frontier, FrontierReply, FrontierStep};
use drt_steps::least_time;
use drt_tree::Forest;
use std::alloc::Global;
use std::test::Fail;

// The wcet and the deadline of the job, in ticks.
const WCET: u32 = 2;

const DEADLINE: u32 = 5;

// A worker, the combination that it says it holds, and what it is answered.
type Case = (u32, Option<u32>, FrontierAnswer);

// The call of a worker that says so: it takes a combination, or lets the one that it says it holds pass. None where no time passes.
fn call(
    board: &mut FrontierBoard,
    forest: &Forest,
    nodes: &mut Vec<u32>,
    worker: u32,
    held: Option<u32>,
) -> Option<FrontierAnswer>
    requires forest { forest.now ≡ (terms_of board.old).forest }
    requires job { ((terms_of board.old).wcet ≡ WCET) × ((terms_of board.old).deadline ≡ DEADLINE) }
    requires few { length (terms_of board.old).roots ≤ 31 }
    requires nodes { AreInPlace (terms_of board.old) nodes.old.items }
    ensures terms { terms_of board.new ≡ terms_of board.old }
    ensures nodes { AreInPlace (terms_of board.new) nodes.new.items }
{
    let Some(id) = held else {
        return Some(board.call(forest, worker, None, nodes, FrontierStep::Take));
    };
    let time = least_time(WCET as u64, DEADLINE as u64, forest.all(), nodes.as_slice())?;
    let step = FrontierStep::Pass { id, time };
    Some(board.call(forest, worker, held, nodes, step))
}

// How many of the cases are answered as they are to be, up to the first that isn't.
fn follow(board: &mut FrontierBoard, forest: &Forest, nodes: &mut Vec<u32>, cases: &[Case]) -> usize
    requires forest { forest.now ≡ (terms_of board.old).forest }
    requires job { ((terms_of board.old).wcet ≡ WCET) × ((terms_of board.old).deadline ≡ DEADLINE) }
    requires few { length (terms_of board.old).roots ≤ 31 }
    requires nodes { AreInPlace (terms_of board.old) nodes.old.items }
    ensures terms { terms_of board.new ≡ terms_of board.old }
{
    for i in 0..cases.len() {
        let (worker, held, answer) = cases[i];
        if call(board, forest, nodes, worker, held) != Some(answer) {
            return i;
        }
    }
    cases.len()
}

const CASES: [Case; 7] = [
    (0, None, FrontierAnswer::Step(FrontierReply::Taken(0))),
    (
        0,
        None,
        FrontierAnswer::Strange(FrontierFound {
            held: Some(0),
            same: false,
        }),
    ),
    (
        0,
        Some(7),
        FrontierAnswer::Strange(FrontierFound {
            held: Some(0),
            same: true,
        }),
    ),
    (
        3,
        Some(0),
        FrontierAnswer::Strange(FrontierFound {
            held: None,
            same: false,
        }),
    ),
    (0, Some(0), FrontierAnswer::Step(FrontierReply::Passed)),
    (
        0,
        Some(0),
        FrontierAnswer::Strange(FrontierFound {
            held: None,
            same: false,
        }),
    ),
    (0, None, FrontierAnswer::Step(FrontierReply::Finished)),
];

const LOG: [(u32, FrontierStep); 2] = [
    (0, FrontierStep::Take),
    (0, FrontierStep::Pass { id: 0, time: 2 }),
];

// Whether the cases are answered as they are to be, and the log then has the two steps alone. The job has no task ahead of it, and its one
// combination no nodes.
fn are_followed(alloc: Global) -> Result<bool, Fail> {
    let forest = Forest::empty(alloc);
    let frontier = Frontier::start(alloc, &forest, &[], WCET, DEADLINE, 10)?;
    let mut board = FrontierBoard::new(&forest, frontier);
    let mut nodes = Vec::new(alloc);
    let followed = follow(&mut board, &forest, &mut nodes, &CASES);
    let frontier = board.into_frontier();
    Ok(followed == CASES.len() && has_log(&frontier, &LOG))
}

// What a worker says is compared with the frontier at each call.
#[test]
fn a_pass_that_differs_changes_nothing(rt: HostRuntime) -> Result<(), Fail> {
    assert!(rt; are_followed(rt.alloc())?);
    Ok(())
}

#[test]
fn other_nodes_are_no_copy(rt: HostRuntime) {
    assert!(rt; is_copy(Some(0), &[4, 2], &[4, 2]));
    assert!(rt; !is_copy(Some(0), &[4, 2], &[4, 3]));
    assert!(rt; !is_copy(Some(0), &[4, 2], &[4]));
    assert!(rt; !is_copy(None, &[4, 2], &[4, 2]));
}
