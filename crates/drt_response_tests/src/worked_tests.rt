//! Sets that were worked by hand.

use crate::answers::{FirstIsLate, Ticks, answer_of, is_answer};
use crate::searches::are_rows;
use drt_claims::Evidence;
use drt_file::read;
use drt_fixtures::texts::{
    ENGINE, HALVES, JUST_DONE, LONGEST, LOWER_FIRST, ONCE_ABOVE, ONCE_ABOVE_LATE, SPLIT, TIGHT,
};
use drt_fixtures::{Shape, make_set};
use drt_model::{Miss, Release, Row, TaskSet};
use drt_pool::{Gate, OpenGate};
use drt_response::{Answer, Response, ResponseTrail};
use std::alloc::Global;
use std::sync::Wait;
use std::test::Fail;
use std::thread::Threads;

const BUDGET: u64 = 1_000_000;

const fn release(task: u32, vertex: u32, time: u64, need: u64) -> Release {
    Release {
        task,
        vertex,
        time,
        need,
    }
}

// The set of a text.
fn set_of(alloc: Global, text: &str) -> Result<TaskSet, Fail> {
    if text.len() > 1_000_000 {
        return Err("a worked set is short".into());
    }
    Ok(read(alloc, text.as_bytes())?)
}

// Whether the set of the text has these responses; none where it is a no.
fn is_answered<R: Threads + Wait + Sync>(
    rt: &R,
    alloc: Global,
    text: &str,
    ticks: Option<&[Ticks]>,
) -> Result<bool, Fail> {
    let set = set_of(alloc, text)?;
    let answer = answer_of(rt, alloc, set, 1, BUDGET, &OpenGate)?;
    Ok(is_answer(&answer, ticks))
}

// Whether the response at the place has these releases.
fn has_releases(responses: &[Response], place: usize, releases: &[Release]) -> bool {
    if place >= responses.len() {
        return false;
    }
    responses[place].releases.as_slice() == releases
}

// Whether the response at the place has these releases, by so many workers.
fn is_reached_by<G: Gate, R: Threads + Wait + Sync>(
    rt: &R,
    alloc: Global,
    text: &str,
    place: usize,
    releases: &[Release],
    workers: u32,
    gate: &G,
) -> Result<bool, Fail> {
    let set = set_of(alloc, text)?;
    let answer = answer_of(rt, alloc, set, workers, BUDGET, gate)?;
    Ok(match answer {
        Answer::Meets(responses) => has_releases(responses.as_slice(), place, releases),
        _ => false,
    })
}

// Whether the set of the text is a no of these releases, in which this job misses.
fn is_missed<R: Threads + Wait + Sync>(
    rt: &R,
    alloc: Global,
    text: &str,
    expected: &[Release],
    missed: Miss,
) -> Result<bool, Fail> {
    let set = set_of(alloc, text)?;
    let answer = answer_of(rt, alloc, set, 1, BUDGET, &OpenGate)?;
    Ok(match &answer {
        Answer::Misses(Evidence::FixedNo { releases, miss }) => {
            releases.as_slice() == expected && *miss == missed
        }
        _ => false,
    })
}

// The answer to the set of the shapes.
fn answer_to<R: Threads + Wait + Sync>(
    rt: &R,
    alloc: Global,
    shapes: &[Shape<'_>],
    budget: u64,
) -> Result<Answer<Row<Response>, ResponseTrail>, Fail> {
    let set = make_set(alloc, shapes)?.ok_or("within the limits")?;
    answer_of(rt, alloc, set, 1, budget, &OpenGate)
}

// Whether the set of the shapes has these responses; none where it is a no.
fn is_shape_answered<R: Threads + Wait + Sync>(
    rt: &R,
    alloc: Global,
    shapes: &[Shape<'_>],
    budget: u64,
    ticks: Option<&[Ticks]>,
) -> Result<bool, Fail> {
    let answer = answer_to(rt, alloc, shapes, budget)?;
    Ok(is_answer(&answer, ticks))
}

// Whether the budget is spent in the analysis.
fn is_spent_before<R: Threads + Wait + Sync>(
    rt: &R,
    alloc: Global,
    shapes: &[Shape<'_>],
    budget: u64,
) -> Result<bool, Fail> {
    let answer = answer_to(rt, alloc, shapes, budget)?;
    Ok(match &answer {
        Answer::Undecided(trail) => matches!(trail, ResponseTrail::Fixed(_)),
        _ => false,
    })
}

// Whether the budget is spent in the search at this vertex of this task, on these combinations.
fn is_spent_at<R: Threads + Wait + Sync>(
    rt: &R,
    alloc: Global,
    shapes: &[Shape<'_>],
    budget: u64,
    at: (u32, u32),
    expected: &[&[u32]],
) -> Result<bool, Fail> {
    let answer = answer_to(rt, alloc, shapes, budget)?;
    Ok(match &answer {
        Answer::Undecided(
            ResponseTrail::Search {
                task,
                vertex,
                taken,
            },
        ) => (*task, *vertex) == at && are_rows(taken.as_slice(), expected),
        _ => false,
    })
}

#[test]
fn worked_sets_have_their_responses(rt: HostRuntime) -> Result<(), Fail> {
    let cases: [(&str, &[Ticks]); 7] = [
        (
            ENGINE,
            &[(0, 0, 12), (0, 1, 8), (0, 2, 4), (1, 0, 22), (2, 0, 50)],
        ),
        (SPLIT, &[(0, 0, 3), (0, 1, 2), (1, 0, 5)]),
        (JUST_DONE, &[(0, 0, 2), (1, 0, 4)]),
        (LOWER_FIRST, &[(0, 0, 4), (1, 0, 2)]),
        (ONCE_ABOVE, &[(0, 0, 2), (1, 0, 4)]),
        (TIGHT, &[(0, 0, 5)]),
        (LONGEST, &[(0, 0, 1_000_000)]),
    ];
    for (text, ticks) in cases {
        assert!(rt;
            is_answered(&rt, rt.alloc(), text, Some(ticks))?,
            "of {text}"
        );
    }
    for text in [HALVES, ONCE_ABOVE_LATE] {
        assert!(rt; is_answered(&rt, rt.alloc(), text, None)?, "of {text}");
    }
    Ok(())
}

// One job in 4 ticks; in turn a short job due after 2 ticks and a long one due after 4; one job in 2 ticks. Beside these a lower job is
// done after 4 ticks; after 6 whichever of the two jobs comes first; and after 8. One tick more is too much.
#[test]
fn a_response_may_be_the_deadline_and_no_more(rt: HostRuntime) -> Result<(), Fail> {
    let one: Shape<'_> = (&[(1, 4)], &[(0, 0, 4)]);
    let two: Shape<'_> = (&[(1, 2), (3, 4)], &[(0, 1, 2), (1, 0, 4)]);
    let half: Shape<'_> = (&[(1, 2)], &[(0, 0, 2)]);
    let cases: [(&[Shape<'_>], Option<&[Ticks]>); 6] = [
        (&[one, (&[(3, 4)], &[])], Some(&[(0, 0, 1), (1, 0, 4)])),
        (&[one, (&[(4, 4)], &[])], None),
        (
            &[two, (&[(2, 6)], &[])],
            Some(&[(0, 0, 1), (0, 1, 3), (1, 0, 6)]),
        ),
        (&[two, (&[(2, 5)], &[])], None),
        (
            &[half, one, (&[(2, 8)], &[])],
            Some(&[(0, 0, 1), (1, 0, 2), (2, 0, 8)]),
        ),
        (&[half, one, (&[(2, 7)], &[])], None),
    ];
    for (shapes, ticks) in cases {
        assert!(rt; is_shape_answered(&rt, rt.alloc(), shapes, BUDGET, ticks)?);
    }
    Ok(())
}

// The job of highest priority stands alone. The log's releases are those of the engine's walk from its middle vertex and of one job of
// the bus, whose next one would come at 50, when the log is done.
#[test]
fn responses_are_reached_by_these_releases(rt: HostRuntime) -> Result<(), Fail> {
    let cases: [(&str, usize, &[Release]); 6] = [
        (ENGINE, 0, &[release(0, 0, 0, 12)]),
        (
            ENGINE,
            4,
            &[
                release(0, 1, 0, 8),
                release(0, 0, 30, 12),
                release(1, 0, 0, 10),
                release(2, 0, 0, 20),
            ],
        ),
        (SPLIT, 1, &[release(0, 1, 0, 2)]),
        (SPLIT, 2, &[release(0, 0, 0, 3), release(1, 0, 0, 2)]),
        (JUST_DONE, 1, &[release(0, 0, 0, 2), release(1, 0, 0, 2)]),
        (LOWER_FIRST, 0, &[release(0, 0, 0, 2), release(1, 0, 0, 2)]),
    ];
    for (text, place, releases) in cases {
        assert!(rt;
            is_reached_by(&rt, rt.alloc(), text, place, releases, 1, &OpenGate)?,
            "of {text}"
        );
    }
    Ok(())
}

// The lower job is done at 4, just when the next job above it comes. With two workers the second one has the walk that goes on to that
// job, and finds the time first where the first worker is late. The job at 4 is not among the releases.
#[test]
fn a_release_at_the_finish_is_left_out(rt: HostRuntime) -> Result<(), Fail> {
    let cases: [(&str, usize, &[Release]); 2] = [
        (JUST_DONE, 1, &[release(0, 0, 0, 2), release(1, 0, 0, 2)]),
        (LOWER_FIRST, 0, &[release(0, 0, 0, 2), release(1, 0, 0, 2)]),
    ];
    for (text, place, releases) in cases {
        assert!(rt;
            is_reached_by(&rt, rt.alloc(), text, place, releases, 2, &FirstIsLate)?,
            "of {text}"
        );
    }
    Ok(())
}

#[test]
fn a_set_that_misses_has_the_no_of_the_analysis(rt: HostRuntime) -> Result<(), Fail> {
    let releases = [
        release(0, 0, 0, 2),
        release(0, 0, 4, 2),
        release(1, 0, 0, 3),
    ];
    let miss = Miss {
        task: 1,
        index: 0,
        deadline: 6,
    };
    assert!(rt; is_missed(&rt, rt.alloc(), HALVES, &releases, miss)?);
    Ok(())
}

// Each of the higher tasks has two walks up to 8 ticks, and its table takes 6 steps. The lower job is done after 5, 6, 5 and 8 ticks
// behind the first walks, the first and the second, the second and the first, and the second walks. All seven combinations are taken.
#[test]
fn a_budget_is_spent_in_the_analysis_or_at_a_vertex(rt: HostRuntime) -> Result<(), Fail> {
    let shapes: [Shape<'_>; 3] = [
        (&[(2, 5)], &[(0, 0, 5)]),
        (&[(1, 4)], &[(0, 0, 4)]),
        (&[(2, 8)], &[]),
    ];
    let taken: [&[u32]; 6] = [&[2, 5], &[0, 5], &[0, 3], &[0, 4], &[1, 5], &[1, 3]];
    let ticks: [Ticks; 3] = [(0, 0, 2), (1, 0, 3), (2, 0, 8)];
    assert!(rt; is_spent_before(&rt, rt.alloc(), &shapes, 5)?);
    assert!(rt; is_spent_at(&rt, rt.alloc(), &shapes, 6, (2, 0), &taken)?);
    assert!(rt; is_shape_answered(&rt, rt.alloc(), &shapes, 7, Some(&ticks))?);
    Ok(())
}
