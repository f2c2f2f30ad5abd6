//! Runs by several workers.
use crate::running::{status_of, writes};
use drt_fixtures::texts::{
    BRANCHING, BRANCHING_LATE, ENGINE, FIFTHS_AND_SEVENTHS, FULL, HALVES, JUST_DONE, LATE, LONGEST,
    LOWER_FIRST, OVERLOADED, PERIODIC, SEVENTHS_ABOVE_FIFTHS, SPLIT, TIGHT, TOO_FAR, TOO_FINE,
    TOO_LITTLE_ROOM,
};
use drt_pool::EagerGate;
use drt_test_tools::Meeting;
use std::alloc::Global;
use std::sync::Wait;
use std::test::Fail;
use std::thread::Threads;

// The dossier of the branching set that is late.
const DOSSIER: &str =
    "drt-dossier 1\npolicy edf\ndrt 1\ntask T1\nvertex a 1 2\nvertex b 4 6\nedge a b 2\nedge b a 8\nedge a a 5\ntask T2\nvertex c 3 4\nedge c c 10\nend\nevidence edf-no\nreleases 2\nrelease 0 1 0 4\nrelease 1 0 0 3\nmiss 0 0 6\nclose\n";

// Whether the set is answered so by two workers that begin together.
fn is_answered_together(rt: &(impl Threads + Wait + Sync), alloc: Global) -> Result<bool, Fail> {
    let gate = Meeting::at(0);
    let is_written = writes(
        rt,
        alloc,
        "edf --workers 2",
        BRANCHING_LATE,
        &gate,
        1,
        DOSSIER,
    )?;
    Ok(is_written && gate.times_met() > 0)
}

#[test]
fn two_workers_begin_a_search_together(rt: HostRuntime) -> Result<(), Fail> {
    assert!(rt; is_answered_together(&rt, rt.alloc())?);
    Ok(())
}

// Two tasks whose walks take some thousand steps each up to the deadline of a third one.
const TWO_TABLES: &str =
    "drt 1\ntask a\nvertex x 1 100\nedge x x 100\ntask b\nvertex y 1 101\nedge y y 101\ntask c\nvertex z 1 34000\nend\n";

// Whether the walks of two tasks are searched by two workers at the same time, under fixed priorities. With a greater budget the first attempt,
// which decides here, would be one worker's.
fn are_searched_together(rt: &(impl Threads + Wait + Sync), alloc: Global) -> Result<bool, Fail> {
    let gate = Meeting::at(0);
    let status = status_of(rt, alloc, "sp --workers 2 --budget 4096", TWO_TABLES, &gate)?;
    Ok(status == 0 && gate.times_met() > 0)
}

#[test]
fn two_workers_search_two_tasks_together(rt: HostRuntime) -> Result<(), Fail> {
    assert!(rt; are_searched_together(&rt, rt.alloc())?);
    Ok(())
}

// Three equal tasks, of which two have room: each misses below the other two, so no priorities are found.
const CROWDED: &str =
    "drt 1\ntask A\nvertex a 1 2\nedge a a 2\ntask B\nvertex b 1 2\nedge b b 2\ntask C\nvertex c 1 2\nedge c c 2\nend\n";

// Whether no priorities are found by two workers, of whom each tries one candidate at the same time.
fn is_tried_together(rt: &(impl Threads + Wait + Sync), alloc: Global) -> Result<bool, Fail> {
    let gate = Meeting::at(0);
    let status = status_of(rt, alloc, "assign --workers 2", CROWDED, &gate)?;
    Ok(status == 1 && gate.times_met() == 1)
}

// The first candidate misses. Its search has too few states to be shared, so two workers meet for the other two candidates alone.
#[test]
fn two_workers_try_two_candidates_together(rt: HostRuntime) -> Result<(), Fail> {
    assert!(rt; is_tried_together(&rt, rt.alloc())?);
    Ok(())
}

// How often each run is made again.
const RUNS: u32 = 100;

// Whether each of a hundred runs of these words by workers that are begun at once has that status.
fn have_status(
    rt: &(impl Threads + Wait + Sync),
    alloc: Global,
    words: &str,
    text: &str,
    status: u8,
) -> Result<bool, Fail> {
    let mut have = true;
    for _ in 0..RUNS {
        have = have && status_of(rt, alloc, words, text, &EagerGate)? == status;
    }
    Ok(have)
}

// Whether the set has that status in each of a hundred runs of each of these words.
fn have_statuses(
    rt: &(impl Threads + Wait + Sync),
    alloc: Global,
    commands: [&str; 4],
    text: &str,
    status: u8,
) -> Result<bool, Fail> {
    let mut have = true;
    for words in commands {
        have = have && have_status(rt, alloc, words, text, status)?;
    }
    Ok(have)
}

const EDF_WORDS: [&str; 4] = [
    "edf --workers 1",
    "edf --workers 2",
    "edf --workers 4",
    "edf --workers 16",
];

const FIXED_WORDS: [&str; 4] = [
    "sp --workers 1",
    "sp --workers 2",
    "sp --workers 4",
    "sp --workers 16",
];

// The set of `SPLIT` is schedulable under fixed priorities, so it is under EDF.
const EDF: [(&str, u8); 14] = [
    (PERIODIC, 0),
    (LATE, 1),
    (TIGHT, 0),
    (HALVES, 2),
    (FIFTHS_AND_SEVENTHS, 0),
    (BRANCHING_LATE, 1),
    (BRANCHING, 0),
    (OVERLOADED, 1),
    (FULL, 2),
    (SPLIT, 0),
    (ENGINE, 0),
    (LONGEST, 0),
    (TOO_FINE, 4),
    (TOO_FAR, 4),
];

const FIXED: [(&str, u8); 15] = [
    (PERIODIC, 0),
    (LATE, 1),
    (TIGHT, 0),
    (HALVES, 1),
    (FIFTHS_AND_SEVENTHS, 1),
    (FULL, 0),
    (SPLIT, 0),
    (JUST_DONE, 0),
    (TOO_LITTLE_ROOM, 1),
    (ENGINE, 0),
    (LONGEST, 0),
    (TOO_FINE, 1),
    (TOO_FAR, 1),
    (SEVENTHS_ABOVE_FIFTHS, 1),
    (LOWER_FIRST, 0),
];

#[test]
fn the_verdict_under_edf_is_that_of_any_number_of_workers(rt: HostRuntime) -> Result<(), Fail> {
    for (text, status) in EDF {
        assert!(rt;
            have_statuses(&rt, rt.alloc(), EDF_WORDS, text, status)?,
            "{text}"
        );
    }
    Ok(())
}

#[test]
fn the_verdict_under_fixed_priorities_is_that_of_any_number_of_workers(
    rt: HostRuntime,
) -> Result<(), Fail> {
    for (text, status) in FIXED {
        assert!(rt;
            have_statuses(&rt, rt.alloc(), FIXED_WORDS, text, status)?,
            "{text}"
        );
    }
    Ok(())
}
