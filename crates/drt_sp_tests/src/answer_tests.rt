//! Answers of worked sets.
use crate::answering::{effort_of, has_dossier, trail_of};
use drt_crew::Crew;
use drt_pool::OpenGate;
use std::alloc::Global;
use std::sync::Wait;
use std::test::Fail;
use std::thread::Threads;

// A task of two jobs, each of which comes again, above a task of one.
const LOOPED: &str =
    "drt 1\ntask T1\nvertex x 3 5\nvertex y 2 4\nedge x x 20\nedge y y 4\ntask T2\nvertex z 2 5\nedge z z 10\nend\n";

const LOOPED_YES: &str =
    "evidence fixed-yes\ntrees 1\ntree 3\nwalk 1 1\nwalk 1 0\nwalk 2 1 1\npairs 2\npair 0 1\npair 3 2\nproofs 3\nproof 0 0 1 p3\nproof 0 1 1 p2\nproof 1 0 3 s0 p5 p4\nclose\n";

// The job of the second task is a tick late behind the first one's longer job.
const TICK_LATE: &str = "drt 1\ntask T1\nvertex x 3 5\nvertex y 2 4\ntask T2\nvertex z 2 4\nend\n";

const TICK_LATE_NO: &str =
    "evidence fixed-no\nreleases 2\nrelease 0 0 0 3\nrelease 1 0 0 2\nmiss 1 0 4\nclose\n";

// The job of the third task is done behind either of the others alone, and isn't behind both.
const PAIR_LATE: &str =
    "drt 1\ntask T1\nvertex a 2 4\ntask T2\nvertex b 2 4\ntask T3\nvertex c 1 4\nend\n";

const PAIR_LATE_NO: &str =
    "evidence fixed-no\nreleases 3\nrelease 0 0 0 2\nrelease 1 0 0 2\nrelease 2 0 0 1\nmiss 2 0 4\nclose\n";

// Three tasks, the last of which has the highest priority.
const TURNED: &str =
    "drt 2\ntask A\npriority 30\nvertex c 1 6\ntask B\npriority 20\nvertex b 2 6\ntask C\npriority 10\nvertex a 3 6\nend\n";

const TURNED_YES: &str =
    "evidence fixed-yes\ntrees 2\ntree 1\nwalk 1 0\npairs 0\ntree 1\nwalk 1 0\npairs 0\nproofs 3\nproof 0 0 1 p6\nproof 1 0 1 p5\nproof 2 0 1 p3\nclose\n";

// As many tasks as a file may have, of one job of one tick each, all with this deadline, from the highest priority down.
fn many_tasks(alloc: Global, deadline: u32) -> Result<String, Fail> {
    let mut text = String::from_str(alloc, "drt 2\n")?;
    for k in 0..32u32 {
        let priority = k + 1;
        let lines = format!(in alloc; "task t{k}\npriority {priority}\nvertex a 1 {deadline}\n")?;
        text.push_str(lines.as_str())?;
    }
    text.push_str("end\n")?;
    Ok(text)
}

// Each job is done a tick after the one above it.
fn many_tasks_yes(alloc: Global) -> Result<String, Fail> {
    let mut body = String::from_str(alloc, "evidence fixed-yes\ntrees 31\n")?;
    for _ in 0..31 {
        body.push_str("tree 1\nwalk 1 0\npairs 0\n")?;
    }
    body.push_str("proofs 32\n")?;
    for k in 0..32u32 {
        let time = k + 1;
        let line = format!(in alloc; "proof {k} 0 1 p{time}\n")?;
        body.push_str(line.as_str())?;
    }
    body.push_str("close\n")?;
    Ok(body)
}

// With a deadline of 31 ticks the last job is late by one.
fn many_tasks_no(alloc: Global) -> Result<String, Fail> {
    let mut body = String::from_str(alloc, "evidence fixed-no\nreleases 32\n")?;
    for k in 0..32u32 {
        let line = format!(in alloc; "release {k} 0 0 1\n")?;
        body.push_str(line.as_str())?;
    }
    body.push_str("miss 31 0 31\nclose\n")?;
    Ok(body)
}

// Whether the answer of one worker has this dossier.
fn is_answered<R: Threads + Wait + Sync>(
    rt: &R,
    alloc: Global,
    text: &str,
    body: &str,
) -> Result<bool, Fail> {
    let crew = Crew {
        rt,
        alloc,
        effort: effort_of(1, 1000)?,
        gate: &OpenGate,
    };
    has_dossier(&crew, text, body)
}

// Whether one worker spends its budget there.
fn is_spent<R: Threads + Wait + Sync>(
    rt: &R,
    alloc: Global,
    text: &str,
    budget: u64,
    trail: Option<(u32, Option<u32>, usize)>,
) -> Result<bool, Fail> {
    let crew = Crew {
        rt,
        alloc,
        effort: effort_of(1, budget)?,
        gate: &OpenGate,
    };
    Ok(trail_of(&crew, text)? == trail)
}

#[test]
fn worked_sets_have_their_dossiers(rt: HostRuntime) -> Result<(), Fail> {
    let cases = [
        (LOOPED, LOOPED_YES),
        (TICK_LATE, TICK_LATE_NO),
        (PAIR_LATE, PAIR_LATE_NO),
        (TURNED, TURNED_YES),
    ];
    for (text, body) in cases {
        assert!(rt; is_answered(&rt, rt.alloc(), text, body)?, "of {text}");
    }
    Ok(())
}

#[test]
fn budgets_are_spent_in_a_search_or_a_refinement(rt: HostRuntime) -> Result<(), Fail> {
    let cases = [
        (LOOPED, 8, Some((0, None, 8))),
        (LOOPED, 9, None),
        (TICK_LATE, 5, Some((1, Some(0), 5))),
        (TICK_LATE, 6, None),
    ];
    for (text, budget, trail) in cases {
        assert!(rt;
            is_spent(&rt, rt.alloc(), text, budget, trail)?,
            "of {budget} steps"
        );
    }
    Ok(())
}

// Whether many tasks with a deadline of 32 ticks have their dossier.
fn are_just_in_time(rt: &(impl Threads + Wait + Sync), alloc: Global) -> Result<bool, Fail> {
    let text = many_tasks(alloc, 32)?;
    let yes = many_tasks_yes(alloc)?;
    is_answered(rt, alloc, text.as_str(), yes.as_str())
}

// Whether many tasks with a deadline of 31 ticks have theirs.
fn are_late(rt: &(impl Threads + Wait + Sync), alloc: Global) -> Result<bool, Fail> {
    let text = many_tasks(alloc, 31)?;
    let no = many_tasks_no(alloc)?;
    is_answered(rt, alloc, text.as_str(), no.as_str())
}

#[test]
fn as_many_tasks_as_a_file_may_have(rt: HostRuntime) -> Result<(), Fail> {
    assert!(rt; are_just_in_time(&rt, rt.alloc())?);
    assert!(rt; are_late(&rt, rt.alloc())?);
    Ok(())
}
