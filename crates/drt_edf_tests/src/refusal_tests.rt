//! Worked noes.
use drt_accepted::Accepted;
use drt_claims::Evidence;
use drt_crew::Crew;
use drt_edf::{EdfAnswer, analyse_edf};
use drt_effort::Effort;
use drt_fixtures::shapes::BRANCHING;
use drt_fixtures::{Shape, make_set};
use drt_graph::check;
use drt_horizon::{Horizon, Over, overload, plan, ratios};
use drt_model::{Miss, Release};
use drt_pool::OpenGate;
use std::alloc::Global;
use std::sync::Wait;
use std::test::Fail;
use std::thread::Threads;

// Whether the releases of a task are those of this walk.
fn is_walk_of(releases: &[Release], task: u32, walk: &[u32]) -> bool {
    let mut count: usize = 0;
    for release in releases {
        if release.task == task {
            if count >= walk.len() || walk[count] != release.vertex {
                return false;
            }
            count += 1;
        }
    }
    count == walk.len()
}

// Whether the evidence is a no of the releases of these walks, one for each task, with these releases, each as its task, vertex,
// time and need, and with this miss.
fn is_no(
    evidence: &Evidence,
    walks: [&[u32]; 2],
    wanted: &[(u32, u32, u64, u64)],
    miss: Miss,
) -> bool {
    let Evidence::EdfNo {
        releases,
        miss: named,
    } = evidence
    else {
        return false;
    };
    let releases = releases.as_slice();
    if releases.len() != wanted.len() || *named != miss {
        return false;
    }
    for (i, (task, vertex, time, need)) in wanted.iter().enumerate() {
        let release = Release {
            task: *task,
            vertex: *vertex,
            time: *time,
            need: *need,
        };
        if releases[i] != release {
            return false;
        }
    }
    is_walk_of(releases, 0, walks[0]) && is_walk_of(releases, 1, walks[1])
}

// Whether tasks of these shapes are answered so, where the budget is 100.
fn is_refused<R: Threads + Wait + Sync>(
    rt: &R,
    alloc: Global,
    shapes: &[Shape<'_>],
    walks: [&[u32]; 2],
    wanted: &[(u32, u32, u64, u64)],
    miss: Miss,
) -> Result<bool, Fail> {
    let set = make_set(alloc, shapes)?.ok_or("within the limits")?;
    let graphs = check(alloc, &set).ok().ok_or("constrained")?;
    let crew = Crew {
        rt,
        alloc,
        effort: Effort::new(1, 100),
        gate: &OpenGate,
    };
    match analyse_edf(&crew, &Accepted::of(&set, &graphs))? {
        EdfAnswer::Done(evidence) => Ok(is_no(&evidence, walks, wanted, miss)),
        _ => Ok(false),
    }
}

// The step time at which tasks of these shapes, whose utilisation is above one, have too much work, if it is found within 100 steps.
fn overload_of(alloc: Global, shapes: &[Shape<'_>]) -> Result<Option<u64>, Fail> {
    let set = make_set(alloc, shapes)?.ok_or("within the limits")?;
    let graphs = check(alloc, &set).ok().ok_or("constrained")?;
    let proofs = ratios(alloc, &graphs)?;
    let Ok(Horizon::Over) = plan(&graphs, proofs.as_slice()) else {
        return Err("above one".into());
    };
    match overload(&graphs, proofs.as_slice(), 100) {
        Over::Found(t) => Ok(Some(t)),
        _ => Ok(None),
    }
}

#[test]
fn the_turns_of_two_loops_miss_at_twelve(rt: HostRuntime) -> Result<(), Fail> {
    let shapes: [Shape<'_>; 2] = [(&[(3, 4)], &[(0, 0, 4)]), (&[(2, 5)], &[(0, 0, 5)])];
    assert_eq!(rt; overload_of(rt.alloc(), &shapes)?, Some(12));
    let walks: [&[u32]; 2] = [&[0, 0, 0], &[0, 0]];
    // Three jobs of 3 and two of 2 need 13.
    let wanted = [
        (0, 0, 0, 3),
        (0, 0, 4, 3),
        (0, 0, 8, 3),
        (1, 0, 0, 2),
        (1, 0, 5, 2),
    ];
    let miss = Miss {
        task: 0,
        index: 2,
        deadline: 12,
    };
    assert!(rt; is_refused(&rt, rt.alloc(), &shapes, walks, &wanted, miss)?);
    Ok(())
}

#[test]
fn two_walks_of_one_vertex_miss_at_six(rt: HostRuntime) -> Result<(), Fail> {
    let shapes: [Shape<'_>; 2] = [BRANCHING, (&[(3, 4)], &[(0, 0, 10)])];
    let walks: [&[u32]; 2] = [&[1], &[0]];
    let wanted = [(0, 1, 0, 4), (1, 0, 0, 3)];
    // The job of 3 runs first, and 4 more are not done by 6.
    let miss = Miss {
        task: 0,
        index: 0,
        deadline: 6,
    };
    assert!(rt; is_refused(&rt, rt.alloc(), &shapes, walks, &wanted, miss)?);
    Ok(())
}
