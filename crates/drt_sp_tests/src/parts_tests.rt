//! Tasks whose vertices' combinations several workers end side by side.
use crate::answering::{Leaving, Source, effort_of, has_dossier, trail_of, written};
use drt_crew::Crew;
use drt_fixtures::texts::{
    ENGINE, HALVES, JUST_DONE, ONLY_TOGETHER, SECOND_LATE, SPLIT, TOO_LITTLE_ROOM,
};
use drt_pool::{Gate, OpenGate};
use std::alloc::Global;
use std::sync::Wait;
use std::test::Fail;
use std::thread::Threads;

const DRAWN_SETS: u64 = 12;

const WORKERS: [u32; 4] = [1, 2, 4, 16];

// How many steps a vertex has before its open combinations are left to workers. With 1 the first one is left, with 10 none of a worked set is.
const ALONE: [u64; 5] = [1, 2, 4, 8, 10];

// Below a task whose job takes 3 ticks or 2, the first job needs six steps, of which the last finds that it is late behind the longer
// one. The second one is late behind either, which four steps find.
const TWO_LATE: &str =
    "drt 1\ntask T1\nvertex x 3 5\nvertex y 2 4\ntask T2\nvertex z 2 4\nvertex w 3 4\nend\n";

// The same with a job before them that passes by two steps.
const MIDDLE_LATE: &str =
    "drt 1\ntask T1\nvertex x 3 5\nvertex y 2 4\ntask T2\nvertex u 1 4\nvertex z 2 4\nvertex w 3 4\nend\n";

// Below a task of two jobs, each of which comes again, the first job passes by six steps. The second one is late behind two of the
// shorter job.
pub(crate) const SECOND_FAILS: &str =
    "drt 1\ntask T1\nvertex x 3 5\nvertex y 2 4\nedge x x 20\nedge y y 4\ntask T2\nvertex z 2 5\nvertex w 3 5\nend\n";

const SECOND_FAILS_NO: &str =
    "evidence fixed-no\nreleases 3\nrelease 0 1 0 2\nrelease 0 1 4 2\nrelease 1 1 0 3\nmiss 1 0 5\nclose\n";

// The same with a third job, which passes as the first one does. Each needs six steps.
const MIDDLE_FAILS: &str =
    "drt 1\ntask T1\nvertex x 3 5\nvertex y 2 4\nedge x x 20\nedge y y 4\ntask T2\nvertex z 2 5\nvertex w 3 5\nvertex v 2 5\nend\n";

// Below a task whose longer job comes again sooner the first job passes by ten steps: the root is split, and so is the pair of the walks of
// two jobs. The second one is late behind two of the shorter job, which eight steps find.
const SECOND_FAILS_SOONER: &str =
    "drt 1\ntask T1\nvertex x 3 5\nvertex y 2 4\nedge x x 6\nedge y y 4\ntask T2\nvertex z 2 5\nvertex w 3 6\nvertex v 1 7\nend\n";

const SECOND_FAILS_SOONER_NO: &str =
    "evidence fixed-no\nreleases 3\nrelease 0 1 0 2\nrelease 0 1 4 2\nrelease 1 1 0 3\nmiss 1 0 6\nclose\n";

// Below the task before that one, jobs that all pass, the middle one by two steps.
pub(crate) const ALL_PASS: &str =
    "drt 1\ntask T1\nvertex x 3 5\nvertex y 2 4\nedge x x 20\nedge y y 4\ntask T2\nvertex z 2 5\nvertex u 1 5\nvertex v 2 5\nend\n";

const ALL_PASS_YES: &str =
    "evidence fixed-yes\ntrees 1\ntree 3\nwalk 1 1\nwalk 1 0\nwalk 2 1 1\npairs 2\npair 0 1\npair 3 2\nproofs 5\nproof 0 0 1 p3\nproof 0 1 1 p2\nproof 1 0 3 s0 p5 p4\nproof 1 1 1 p4\nproof 1 2 3 s0 p5 p4\nclose\n";

// Three of the tasks that `bench/fixed split 5 6 50 8` draws, and the head of a fourth.
const HARD: &str = "drt 2\n\
    task t0\npriority 1\nvertex v0 15 226\nvertex v1 20 164\nvertex v2 23 98\nvertex v3 22 159\nvertex v4 10 168\nvertex v5 25 233\n\
    edge v0 v1 253\nedge v1 v2 241\nedge v2 v3 226\nedge v3 v4 270\nedge v3 v5 240\nedge v4 v4 340\nedge v4 v5 367\nedge v5 v0 261\n\
    edge v5 v4 249\nedge v5 v5 251\n\
    task t2\npriority 3\nvertex v0 89 1167\nvertex v1 142 588\nvertex v2 141 1007\nvertex v3 137 480\nvertex v4 108 676\n\
    vertex v5 46 940\nedge v0 v1 1478\nedge v0 v2 1262\nedge v1 v0 1585\nedge v1 v1 1504\nedge v1 v2 980\nedge v2 v0 1501\n\
    edge v2 v3 1279\nedge v2 v5 1089\nedge v3 v4 1688\nedge v3 v5 1121\nedge v4 v2 904\nedge v4 v4 1657\nedge v4 v5 1591\n\
    edge v5 v0 1350\n\
    task t3\npriority 4\nvertex v0 72 1068\nvertex v1 126 1541\nvertex v2 185 1673\nvertex v3 214 980\nvertex v4 63 1188\n\
    vertex v5 128 1241\nedge v0 v1 2278\nedge v1 v2 1676\nedge v2 v3 1860\nedge v3 v4 1427\nedge v4 v0 1215\nedge v4 v2 1358\n\
    edge v4 v5 1319\nedge v5 v0 1821\n\
    task t4\npriority 5\n";

// The edges of the fourth.
const HARD_EDGES: &str =
    "edge v0 v1 2003\nedge v1 v2 2396\nedge v2 v3 2138\nedge v3 v4 1748\nedge v4 v5 2977\nedge v5 v0 2441\nend\n";

// Its jobs, with another second one than is drawn: its proof has some 5,000 items, for each of which a frontier makes two steps.
const SECOND_HARD: &str =
    "vertex v0 268 1750\nvertex v1 456 990\nvertex v2 300 1971\nvertex v3 171 1559\nvertex v4 194 1834\nvertex v5 146 2030\n";

// Three of the jobs are such. The greatest deadline stays, by which all walks are searched.
const THREE_HARD: &str =
    "vertex v0 268 1750\nvertex v1 456 990\nvertex v2 300 1971\nvertex v3 456 990\nvertex v4 456 990\nvertex v5 146 2030\n";

// The middle one of the three has a proof of some 7,000 items.
const MIDDLE_HARDER: &str =
    "vertex v0 268 1750\nvertex v1 456 990\nvertex v2 300 1971\nvertex v3 460 990\nvertex v4 456 990\nvertex v5 146 2030\n";

// It is late for some walks, which some 41,000 steps find.
const MIDDLE_TOO_LONG: &str =
    "vertex v0 268 1750\nvertex v1 456 990\nvertex v2 300 1971\nvertex v3 500 990\nvertex v4 456 990\nvertex v5 146 2030\n";

// Whether each number of workers gives this text for a set.
fn is_answered_by_all<G: Gate, R: Threads + Wait + Sync>(
    crew: &Crew<'_, G, R>,
    source: Source<'_>,
    text: &[u8],
) -> Result<bool, Fail> {
    let budget = crew.effort.budget();
    for workers in WORKERS {
        let answer = written(&crew.with(effort_of(workers, budget)?), source)?;
        if answer.as_slice() != text {
            return Ok(false);
        }
    }
    Ok(true)
}

// Whether several workers answer a set as one does.
pub(crate) fn is_answered_as_by_one<G: Gate, R: Threads + Wait + Sync>(
    crew: &Crew<'_, G, R>,
    source: Source<'_>,
) -> Result<bool, Fail> {
    let one = written(&crew.with(crew.effort.alone()), source)?;
    is_answered_by_all(crew, source, one.as_slice())
}

// The same, however much is left to the caller alone.
fn is_answered_alike<R: Threads + Wait + Sync>(
    rt: &R,
    alloc: Global,
    source: Source<'_>,
    budget: u64,
) -> Result<bool, Fail> {
    let effort = effort_of(1, budget)?;
    for alone in ALONE {
        let gate = Leaving { alone };
        let crew = Crew {
            rt,
            alloc,
            effort,
            gate: &gate,
        };
        if !is_answered_as_by_one(&crew, source)? {
            return Ok(false);
        }
    }
    let crew = Crew {
        rt,
        alloc,
        effort,
        gate: &OpenGate,
    };
    is_answered_as_by_one(&crew, source)
}

// Whether the answer has this dossier, by each number of workers.
fn has_dossier_by_all<R: Threads + Wait + Sync>(
    rt: &R,
    alloc: Global,
    text: &str,
    body: &str,
    alone: u64,
) -> Result<bool, Fail> {
    let gate = Leaving { alone };
    for workers in WORKERS {
        let crew = Crew {
            rt,
            alloc,
            effort: effort_of(workers, 1000)?,
            gate: &gate,
        };
        if !has_dossier(&crew, text, body)? {
            return Ok(false);
        }
    }
    Ok(true)
}

// The same, however much is left to the caller alone.
fn has_dossier_always<R: Threads + Wait + Sync>(
    rt: &R,
    alloc: Global,
    text: &str,
    body: &str,
) -> Result<bool, Fail> {
    for alone in ALONE {
        if !has_dossier_by_all(rt, alloc, text, body, alone)? {
            return Ok(false);
        }
    }
    Ok(true)
}

// Whether the budget is spent there, by each number of workers.
pub(crate) fn is_spent_by_all<G: Gate, R: Threads + Wait + Sync>(
    crew: &Crew<'_, G, R>,
    text: &str,
    trail: Option<(u32, Option<u32>, usize)>,
) -> Result<bool, Fail> {
    let budget = crew.effort.budget();
    for workers in WORKERS {
        let spent = trail_of(&crew.with(effort_of(workers, budget)?), text)?;
        if spent != trail {
            return Ok(false);
        }
    }
    Ok(true)
}

// The same, however much is left to the caller alone.
fn is_spent_always<R: Threads + Wait + Sync>(
    rt: &R,
    alloc: Global,
    text: &str,
    budget: u64,
    trail: Option<(u32, Option<u32>, usize)>,
) -> Result<bool, Fail> {
    let effort = effort_of(1, budget)?;
    for alone in ALONE {
        let gate = Leaving { alone };
        let crew = Crew {
            rt,
            alloc,
            effort,
            gate: &gate,
        };
        if !is_spent_by_all(&crew, text, trail)? {
            return Ok(false);
        }
    }
    Ok(true)
}

#[test]
fn worked_sets_are_answered_as_by_one_worker(rt: HostRuntime) -> Result<(), Fail> {
    let texts = [
        ENGINE,
        HALVES,
        JUST_DONE,
        ONLY_TOGETHER,
        SECOND_LATE,
        SPLIT,
        TOO_LITTLE_ROOM,
        TWO_LATE,
        SECOND_FAILS,
        MIDDLE_FAILS,
        SECOND_FAILS_SOONER,
        MIDDLE_LATE,
        ALL_PASS,
    ];
    for text in texts {
        assert!(rt;
            is_answered_alike(&rt, rt.alloc(), Source::Text(text), 1000)?,
            "of {text}"
        );
    }
    Ok(())
}

#[test]
fn drawn_sets_are_answered_as_by_one_worker(rt: HostRuntime) -> Result<(), Fail> {
    for number in 0..DRAWN_SETS {
        assert!(rt;
            is_answered_alike(&rt, rt.alloc(), Source::Drawn(number), 1000)?,
            "set {number}"
        );
    }
    Ok(())
}

#[test]
fn spent_budgets_of_drawn_sets_are_told_as_by_one_worker(rt: HostRuntime) -> Result<(), Fail> {
    for number in 0..DRAWN_SETS {
        let budget = number % 9 + 4;
        assert!(rt;
            is_answered_alike(&rt, rt.alloc(), Source::Drawn(number), budget)?,
            "set {number}"
        );
    }
    Ok(())
}

#[test]
fn the_first_vertex_that_spends_its_budget_decides(rt: HostRuntime) -> Result<(), Fail> {
    let cases = [(TWO_LATE, 0), (MIDDLE_LATE, 1)];
    for (text, vertex) in cases {
        assert!(rt;
            is_spent_always(&rt, rt.alloc(), text, 5, Some((1, Some(vertex), 5)))?,
            "of {text}"
        );
    }
    Ok(())
}

#[test]
fn the_first_vertex_that_fails_decides(rt: HostRuntime) -> Result<(), Fail> {
    let cases = [
        (SECOND_FAILS, SECOND_FAILS_NO),
        (MIDDLE_FAILS, SECOND_FAILS_NO),
        (SECOND_FAILS_SOONER, SECOND_FAILS_SOONER_NO),
    ];
    for (text, body) in cases {
        assert!(rt;
            has_dossier_always(&rt, rt.alloc(), text, body)?,
            "of {text}"
        );
    }
    Ok(())
}

#[test]
fn proofs_stand_in_file_order(rt: HostRuntime) -> Result<(), Fail> {
    assert!(rt;
        has_dossier_always(&rt, rt.alloc(), ALL_PASS, ALL_PASS_YES)?,
        "of {ALL_PASS}"
    );
    Ok(())
}

// Whether a text has these words in it.
fn has_words(text: &[u8], words: &[u8]) -> bool {
    for start in 0..text.len() {
        if text[start..].starts_with(words) {
            return true;
        }
    }
    false
}

// Whether several workers answer the hard tasks with these jobs as one does, in these words.
fn is_hard_answered_as_by_one<R: Threads + Wait + Sync>(
    rt: &R,
    alloc: Global,
    jobs: &str,
    budget: u64,
    words: &str,
) -> Result<bool, Fail> {
    let text = format!(in alloc; "{HARD}{jobs}{HARD_EDGES}")?;
    let source = Source::Text(text.as_str());
    let crew = Crew {
        rt,
        alloc,
        effort: effort_of(1, budget)?,
        gate: &OpenGate,
    };
    let one = written(&crew, source)?;
    Ok(
        has_words(one.as_slice(), words.as_bytes())
            && is_answered_by_all(&crew, source, one.as_slice())?,
    )
}

#[test]
fn hard_vertices_are_answered_as_by_one_worker(rt: HostRuntime) -> Result<(), Fail> {
    let cases = [
        (SECOND_HARD, 9_709, "refine 3 1: "),
        (SECOND_HARD, 9_710, "evidence fixed-yes"),
        (THREE_HARD, 9_710, "evidence fixed-yes"),
    ];
    for (jobs, budget, words) in cases {
        assert!(rt;
            is_hard_answered_as_by_one(&rt, rt.alloc(), jobs, budget, words)?,
            "within {budget} steps, of {jobs}"
        );
    }
    Ok(())
}

#[test]
fn a_hard_vertex_decides_among_others(rt: HostRuntime) -> Result<(), Fail> {
    let cases = [
        (MIDDLE_HARDER, 9_710, "refine 3 3: "),
        (MIDDLE_TOO_LONG, 100_000, "miss 3 0 990"),
    ];
    for (jobs, budget, words) in cases {
        assert!(rt;
            is_hard_answered_as_by_one(&rt, rt.alloc(), jobs, budget, words)?,
            "within {budget} steps, of {jobs}"
        );
    }
    Ok(())
}
