//! Sets answered by the analysis and by hand.
use crate::answering::{answer_to, effort_of};
use drt_claims::Evidence;
use drt_crew::Crew;
use drt_fixtures::{Shape, make_set};
use drt_pool::OpenGate;
use drt_sp::{Answer, FixedTrail};
use std::alloc::Global;
use std::sync::Wait;
use std::test::Fail;
use std::thread::Threads;

const BUDGET: u64 = 1_000_000;

// Whether the answer is a yes, where it is a yes or a no.
fn verdict(answer: &Answer<Evidence, FixedTrail>) -> Option<bool> {
    match answer {
        Answer::Meets(_) => Some(true),
        Answer::Misses(_) => Some(false),
        Answer::Undecided(_) => None,
    }
}

// Whether the analysis says so of the set of these shapes.
fn is_decided<R: Threads + Wait + Sync>(
    rt: &R,
    alloc: Global,
    shapes: &[Shape<'_>],
    yes: bool,
) -> Result<bool, Fail> {
    let set = make_set(alloc, shapes)?.ok_or("within the limits")?;
    let crew = Crew {
        rt,
        alloc,
        effort: effort_of(1, BUDGET)?,
        gate: &OpenGate,
    };
    let answer = answer_to(&crew, &set)?;
    Ok(verdict(&answer) == Some(yes))
}

#[test]
fn one_tick_decides_a_set(rt: HostRuntime) -> Result<(), Fail> {
    // One job in 4 ticks; in turn a short job due after 2 ticks and a long one due after 4; one job in 2 ticks.
    let one: Shape<'_> = (&[(1, 4)], &[(0, 0, 4)]);
    let two: Shape<'_> = (&[(1, 2), (3, 4)], &[(0, 1, 2), (1, 0, 4)]);
    let half: Shape<'_> = (&[(1, 2)], &[(0, 0, 2)]);
    // Beside these a lower job passes where it is done at 4, at 6 (whichever of the two jobs comes first) and at 8.
    let cases: [(&[Shape<'_>], bool); 6] = [
        (&[one, (&[(3, 4)], &[])], true),
        (&[one, (&[(4, 4)], &[])], false),
        (&[two, (&[(2, 7)], &[])], true),
        (&[two, (&[(3, 7)], &[])], false),
        (&[half, one, (&[(2, 8)], &[])], true),
        (&[half, one, (&[(3, 8)], &[])], false),
    ];
    for (shapes, yes) in cases {
        assert!(rt; is_decided(&rt, rt.alloc(), shapes, yes)?);
    }
    Ok(())
}
