//! Small sets answered by tails and states, and which of trees and states answers a set.
ghost use Rattle.std.specs.Prelude.{◌≡◌, ◌≤◌, IfOk};
ghost use Rattle.drt_model.specs.Constrained.{AreConstrained};
ghost use Rattle.drt_claims.specs.Claims.{graphs_of};

use drt_accepted::Accepted;
use drt_claims::{Dossier, Evidence};
use drt_crew::Crew;
use drt_effort::Effort;
use drt_evidence::print;
use drt_fixed::{Analysed, analyse_fixed, decide_by_states, first_effort, is_beyond_trees};
use drt_fixtures::{Shape, make_set};
use drt_graph::{Graphs, check};
use drt_model::{Policy, Row, TaskSet};
use drt_pool::{EagerGate, Gate, OpenGate};
use drt_test_tools::{Draws, Meeting, drawn_set};
use std::alloc::Global;
use std::sync::Wait;
use std::test::Fail;
use std::thread::Threads;

const DRAWN_SETS: u32 = 1_000;

// Numbers of workers beside one.
const SEVERAL: [u32; 3] = [2, 4, 16];

const BUDGET: u64 = 1_000_000;

// An engine in three modes above a task of a second, in ticks of a microsecond. The walks of the engine below a second have more than two
// thousand labels that no other one dominates, each of which is a step and one more for each edge.
const AUTOMOTIVE: [Shape<'static>; 2] = [
    (
        &[(500, 5_000), (930, 7_300), (1_410, 9_100)],
        &[
            (0, 0, 5_000),
            (0, 1, 5_000),
            (1, 0, 7_300),
            (1, 1, 9_100),
            (1, 2, 8_300),
            (2, 1, 9_100),
            (2, 2, 11_900),
        ],
    ),
    (&[(100_000, 1_000_000)], &[(0, 0, 1_000_000)]),
];

// A task above one of two vertices: one tail, and the searches of three vertices.
const TWO_VERTICES: [Shape<'static>; 2] = [
    (&[(1, 4)], &[(0, 0, 4)]),
    (&[(1, 8), (2, 9)], &[(0, 1, 9), (1, 0, 9)]),
];

// What an answer claims.
#[derive(Debug, Clone, Copy, PartialEq, Eq)]
enum Claim {
    YesByTrees,
    YesByStates,
    No,
    Nothing,
}

fn claim_of(evidence: &Evidence) -> Claim {
    match evidence {
        Evidence::FixedYes { .. } => Claim::YesByTrees,
        Evidence::FixedStates { .. } => Claim::YesByStates,
        Evidence::FixedNo { .. } => Claim::No,
        _ => Claim::Nothing,
    }
}

// The graphs of a set, where its deadlines are constrained.
fn make_graphs(alloc: Global, set: &TaskSet) -> Result<Graphs, Fail>
    ensures constrained { IfOk result (λ graphs. AreConstrained set.now.tasks) }
    ensures graphs { IfOk result (λ graphs. graphs ≡ graphs_of set.now.tasks) }
{
    match check(alloc, set) {
        Ok(graphs) => Ok(graphs),
        Err(_) => Err("constrained deadlines".into()),
    }
}

// So many workers, with the budget.
fn crew_of<'a, G, R>(rt: &'a R, alloc: Global, workers: u32, gate: &'a G) -> Crew<'a, G, R>
    requires { (1 ≤ workers) × (workers ≤ 16) }
{
    Crew {
        rt,
        alloc,
        effort: Effort::new(workers, BUDGET),
        gate,
    }
}

// What tails and states say of a set: the claim and the text of its dossier, which is empty where they say nothing.
fn answer_by_states<G: Gate, R: Threads + Wait + Sync>(
    crew: &Crew<'_, G, R>,
    set: TaskSet,
) -> Result<(Claim, Row<u8>), Fail> {
    let alloc = crew.alloc;
    let graphs = make_graphs(alloc, &set)?;
    match decide_by_states(crew, &Accepted::of(&set, &graphs))? {
        Some(evidence) => {
            let claim = claim_of(&evidence);
            let dossier = Dossier {
                policy: Policy::Fixed,
                set,
                evidence,
            };
            Ok((claim, print(alloc, &dossier)?))
        }
        None => Ok((Claim::Nothing, Row::from_vec(Vec::new(alloc)))),
    }
}

// What the whole analysis by one worker says of a set.
fn analysed_claim<R: Threads + Wait + Sync>(
    rt: &R,
    alloc: Global,
    set: &TaskSet,
) -> Result<Claim, Fail> {
    let graphs = make_graphs(alloc, set)?;
    let crew = crew_of(rt, alloc, 1, &OpenGate);
    let Analysed { evidence, .. } = analyse_fixed(&crew, &Accepted::of(set, &graphs))?;
    Ok(claim_of(&evidence))
}

// What the whole analysis, whose verdict is proved, says of a set, as a claim by states.
fn proved_claim<R: Threads + Wait + Sync>(
    rt: &R,
    alloc: Global,
    set: &TaskSet,
) -> Result<Claim, Fail> {
    Ok(match analysed_claim(rt, alloc, set)? {
        Claim::YesByTrees => Claim::YesByStates,
        claim => claim,
    })
}

// Whether tails and states say of a drawn set what the whole analysis says, and by several workers the same as by one.
fn is_decided_alike<R: Threads + Wait + Sync>(
    rt: &R,
    alloc: Global,
    draws: &mut Draws,
) -> Result<bool, Fail> {
    let start = draws.state;
    let set = drawn_set(alloc, draws)?.ok_or("within the limits")?;
    let wanted = proved_claim(rt, alloc, &set)?;
    let (claim, text) = answer_by_states(&crew_of(rt, alloc, 1, &EagerGate), set)?;
    for workers in SEVERAL {
        let mut again = Draws { state: start };
        let set = drawn_set(alloc, &mut again)?.ok_or("within the limits")?;
        let (_, other) = answer_by_states(&crew_of(rt, alloc, workers, &EagerGate), set)?;
        if other.as_slice() != text.as_slice() {
            return Ok(false);
        }
    }
    Ok(claim == wanted && claim != Claim::Nothing)
}

// What the whole analysis says of the set of these shapes.
fn claim_on<R: Threads + Wait + Sync>(
    rt: &R,
    alloc: Global,
    shapes: &[Shape<'_>],
) -> Result<Claim, Fail> {
    let set = make_set(alloc, shapes)?.ok_or("within the limits")?;
    analysed_claim(rt, alloc, &set)
}

// The text of what tails and states say of the set of these shapes.
fn text_on<G: Gate, R: Threads + Wait + Sync>(
    rt: &R,
    alloc: Global,
    shapes: &[Shape<'_>],
    workers: u32,
    gate: &G,
) -> Result<Row<u8>, Fail>
    requires { (1 ≤ workers) × (workers ≤ 16) }
{
    let set = make_set(alloc, shapes)?.ok_or("within the limits")?;
    let (_, text) = answer_by_states(&crew_of(rt, alloc, workers, gate), set)?;
    Ok(text)
}

// Whether several workers say of the set of these shapes by tails and states what one does, with threads at once or where it is worth it.
fn is_said_alike<R: Threads + Wait + Sync>(
    rt: &R,
    alloc: Global,
    shapes: &[Shape<'_>],
) -> Result<bool, Fail> {
    let text = text_on(rt, alloc, shapes, 1, &OpenGate)?;
    for workers in SEVERAL {
        let eager = text_on(rt, alloc, shapes, workers, &EagerGate)?;
        let open = text_on(rt, alloc, shapes, workers, &OpenGate)?;
        if eager.as_slice() != text.as_slice() || open.as_slice() != text.as_slice() {
            return Ok(false);
        }
    }
    Ok(!text.as_slice().is_empty())
}

#[test]
fn drawn_sets_are_decided_by_states_as_by_the_whole_analysis(rt: HostRuntime) -> Result<(), Fail> {
    let mut draws = Draws { state: 1 };
    for number in 0..DRAWN_SETS {
        assert!(rt;
            is_decided_alike(&rt, rt.alloc(), &mut draws)?,
            "set {number}"
        );
    }
    Ok(())
}

#[test]
fn a_small_set_is_answered_by_trees_and_an_automotive_one_by_states(
    rt: HostRuntime,
) -> Result<(), Fail> {
    let small: [Shape<'_>; 2] = [(&[(1, 4)], &[(0, 0, 4)]), (&[(3, 4)], &[])];
    let late: [Shape<'_>; 2] = [(&[(1, 4)], &[(0, 0, 4)]), (&[(4, 4)], &[])];
    let cases: [(&[Shape<'_>], Claim); 3] = [
        (&small, Claim::YesByTrees),
        (&late, Claim::No),
        (&AUTOMOTIVE, Claim::YesByStates),
    ];
    for (shapes, claim) in cases {
        assert_eq!(rt; claim_on(&rt, rt.alloc(), shapes)?, claim);
    }
    Ok(())
}

// Whether the set of these shapes is thought to be beyond a first attempt by trees, and whether trees with its steps alone say nothing.
fn beyond_and_spent<R: Threads + Wait + Sync>(
    rt: &R,
    alloc: Global,
    shapes: &[Shape<'_>],
) -> Result<(bool, bool), Fail> {
    let set = make_set(alloc, shapes)?.ok_or("within the limits")?;
    let graphs = make_graphs(alloc, &set)?;
    let accepted = Accepted::of(&set, &graphs);
    let crew = Crew {
        rt,
        alloc,
        effort: Effort::new(1, 4_096),
        gate: &OpenGate,
    };
    let Analysed { evidence, .. } = analyse_fixed(&crew, &accepted)?;
    let is_beyond = is_beyond_trees(alloc, &accepted)?;
    Ok((is_beyond, claim_of(&evidence) == Claim::Nothing))
}

#[test]
fn a_set_is_beyond_trees_where_a_long_table_comes_before_any_miss(
    rt: HostRuntime,
) -> Result<(), Fail> {
    let (engine, second) = (AUTOMOTIVE[0], AUTOMOTIVE[1]);
    let small: [Shape<'_>; 2] = [(&[(1, 4)], &[(0, 0, 4)]), (&[(3, 4)], &[])];
    // Above the engine 4,500 of 5,000 ticks are left for its first mode, and 4,501 are too many.
    let above: [Shape<'_>; 3] = [(&[(4_500, 5_000)], &[]), engine, second];
    let misses: [Shape<'_>; 3] = [(&[(4_501, 5_000)], &[]), engine, second];
    // The last task has no table.
    let last: [Shape<'_>; 2] = [(&[(100, 1_000_000)], &[(0, 0, 1_000_000)]), engine];
    let cases: [(&[Shape<'_>], (bool, bool)); 5] = [
        (&AUTOMOTIVE, (true, true)),
        (&above, (true, true)),
        (&misses, (false, false)),
        (&last, (false, false)),
        (&small, (false, false)),
    ];
    for (shapes, wanted) in cases {
        assert_eq!(rt; beyond_and_spent(&rt, rt.alloc(), shapes)?, wanted);
    }
    Ok(())
}

#[test]
fn several_workers_write_what_one_writes(rt: HostRuntime) -> Result<(), Fail> {
    let cases: [&[Shape<'_>]; 2] = [&AUTOMOTIVE, &TWO_VERTICES];
    for shapes in cases {
        assert!(rt; is_said_alike(&rt, rt.alloc(), shapes)?);
    }
    Ok(())
}

#[test]
fn two_workers_search_two_vertices_at_once(rt: HostRuntime) -> Result<(), Fail> {
    let meeting = Meeting::at(0);
    let text = text_on(&rt, rt.alloc(), &TWO_VERTICES, 2, &meeting)?;
    assert!(rt; !text.as_slice().is_empty());
    assert_eq!(rt; meeting.times_met(), 1);
    Ok(())
}

// The workers and the budget of the first attempt with this effort.
fn first_numbers(effort: &Effort) -> (u32, u64) {
    let first = first_effort(effort);
    (first.workers(), first.budget())
}

#[test]
fn a_first_attempt_is_one_workers_unless_it_is_all(rt: HostRuntime) -> Result<(), Fail> {
    assert_eq!(rt; first_numbers(&Effort::new(4, 100_000)), (1, 4_096));
    assert_eq!(rt; first_numbers(&Effort::new(4, 4_097)), (1, 4_096));
    assert_eq!(rt; first_numbers(&Effort::new(4, 4_096)), (4, 4_096));
    assert_eq!(rt; first_numbers(&Effort::new(16, 7)), (16, 7));
    Ok(())
}
