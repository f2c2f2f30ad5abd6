//! Workers that end the combinations of a task's vertices, or search the tables of two tasks, at the same time.
use crate::answering::{Leaving, Source, effort_of, written};
use crate::parts_tests::{ALL_PASS, SECOND_FAILS};
use crate::table_tests::TWO_TABLES;
use drt_crew::Crew;
use drt_test_tools::Meeting;
use std::alloc::Global;
use std::sync::Wait;
use std::test::Fail;
use std::thread::{Threads, available_parallelism};

// Whether a second worker may be begun.
fn has_two_processors<R: Threads>(rt: &R) -> bool {
    match available_parallelism(rt) {
        Ok(processors) => processors.get() > 1,
        Err(_) => false,
    }
}

// Whether two workers that meet answer a set as one does.
fn is_answered_together<R: Threads + Wait + Sync>(
    rt: &R,
    alloc: Global,
    source: Source<'_>,
    budget: u64,
    alone: u64,
) -> Result<bool, Fail> {
    let leaving = Leaving { alone };
    let one = written(
        &Crew {
            rt,
            alloc,
            effort: effort_of(1, budget)?,
            gate: &leaving,
        },
        source,
    )?;
    let gate = Meeting::behind(alone);
    let both = written(
        &Crew {
            rt,
            alloc,
            effort: effort_of(2, budget)?,
            gate: &gate,
        },
        source,
    )?;
    Ok(both.as_slice() == one.as_slice() && (gate.times_met() > 0 || !has_two_processors(rt)))
}

// The first vertex of the second task needs six steps. With four it leaves one half of its root open, and those behind it, with one step
// each, leave their roots: so there are two combinations or three to take, in one go.
#[test]
fn two_workers_end_combinations_at_the_same_time(rt: HostRuntime) -> Result<(), Fail> {
    for text in [ALL_PASS, SECOND_FAILS] {
        assert!(rt;
            is_answered_together(&rt, rt.alloc(), Source::Text(text), 1000, 4)?,
            "of {text}"
        );
    }
    Ok(())
}

// The second worker comes to the second task's table while the first one is at the first task's, which spends a step less than it needs.
#[test]
fn two_workers_search_tables_at_the_same_time(rt: HostRuntime) -> Result<(), Fail> {
    for budget in [1_049, 1_050] {
        assert!(rt;
            is_answered_together(&rt, rt.alloc(), Source::Text(TWO_TABLES), budget, 4)?,
            "of {budget} steps"
        );
    }
    Ok(())
}
