//! Tables of several tasks that workers search side by side.
use crate::answering::{Leaving, Source, effort_of};
use crate::parts_tests::{is_answered_as_by_one, is_spent_by_all};
use drt_crew::Crew;
use drt_pool::OpenGate;
use std::alloc::Global;
use std::sync::Wait;
use std::test::Fail;
use std::thread::Threads;

// Two tasks above a third, in whose time each has 350 jobs: its walks have as many labels, and three steps for each, as it is taken, extended
// and closed. So a table has 1,050 steps.
pub(crate) const TWO_TABLES: &str =
    "drt 1\ntask T1\nvertex x 1 4\nedge x x 4\ntask T2\nvertex y 1 4\nedge y y 4\ntask T3\nvertex z 1 1400\nend\n";

// The same, but that two jobs of the second task take turns: its table has 2,100 steps, as either may be the first one.
const SECOND_LONGER: &str =
    "drt 1\ntask T1\nvertex x 1 4\nedge x x 4\ntask T2\nvertex y 1 4\nvertex w 1 4\nedge y w 4\nedge w y 4\ntask T3\nvertex z 1 1400\nend\n";

// Whether the budget is spent there, by each number of workers.
fn is_spent<R: Threads + Wait + Sync>(
    rt: &R,
    alloc: Global,
    text: &str,
    budget: u64,
    trail: Option<(u32, Option<u32>, usize)>,
) -> Result<bool, Fail> {
    let gate = Leaving { alone: 4 };
    let crew = Crew {
        rt,
        alloc,
        effort: effort_of(1, budget)?,
        gate: &gate,
    };
    is_spent_by_all(&crew, text, trail)
}

// Whether several workers answer the two tables as one does.
fn are_tables_answered<R: Threads + Wait + Sync>(rt: &R, alloc: Global) -> Result<bool, Fail> {
    let crew = Crew {
        rt,
        alloc,
        effort: effort_of(1, 2_000)?,
        gate: &OpenGate,
    };
    is_answered_as_by_one(&crew, Source::Text(TWO_TABLES))
}

#[test]
fn tables_side_by_side_are_spent_as_by_one_worker(rt: HostRuntime) -> Result<(), Fail> {
    let cases = [
        (TWO_TABLES, 1_049, Some((0, None, 1_049))),
        (TWO_TABLES, 1_050, None),
        (SECOND_LONGER, 1_100, Some((1, None, 1_100))),
    ];
    for (text, budget, trail) in cases {
        assert!(rt;
            is_spent(&rt, rt.alloc(), text, budget, trail)?,
            "of {budget} steps"
        );
    }
    Ok(())
}

#[test]
fn tables_side_by_side_give_the_dossier_of_one_worker(rt: HostRuntime) -> Result<(), Fail> {
    assert!(rt; are_tables_answered(&rt, rt.alloc())?);
    Ok(())
}
