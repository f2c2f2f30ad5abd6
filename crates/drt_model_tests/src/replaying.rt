//! Worked replays, and replays beside the plain tick machine.
ghost use Rattle.std.specs.Prelude.{◌≡◌, ◌≤◌, ◌<◌, ◌^◌, length};

use crate::looped::looped_set;
use drt_model::{Job, Miss, Policy, Release, legal, plain_trace};
use drt_replay::Board;
use std::alloc::Global;
use std::test::Fail;

// A release of a task: its time and its need.
fn at(release: (u32, u32, u32)) -> Release
    ensures { result.time ≤ 10 ^ 18 }
{
    let (task, time, need) = release;
    Release {
        task,
        vertex: 0,
        time: u64::from(time),
        need: u64::from(need),
    }
}

// Two tasks by priority, execution time and deadline; releases by task, time and need; and the first miss.
#[derive(Clone, Copy)]
struct Case {
    first: (u32, u32, u32),
    second: (u32, u32, u32),
    policy: Policy,
    releases: [(u32, u32, u32); 3],
    miss: Option<(u32, u32, u32)>,
}

// The job of a release, by hand.
fn job(case: Case, (task, time, need): (u32, u32, u32)) -> Job {
    let (priority, _, deadline) = if task == 0 { case.first } else { case.second };
    Job {
        task,
        priority,
        time: u64::from(time),
        deadline: u64::from(time) + u64::from(deadline),
        need: u64::from(need),
    }
}

// The first miss among the deadlines by now, counted over the picks of the plain machine.
fn plain_miss(jobs: &[Job], picks: &[Option<u32>], now: u64) -> Option<Miss>
    requires { length jobs.now < 2 ^ 32 }
{
    let mut first: Option<Miss> = None;
    for j in 0..jobs.len() {
        let job = jobs[j];
        let place = Some(j as u32);
        let had = picks
            .iter()
            .take(job.deadline as usize)
            .filter(|pick| **pick == place)
            .count();
        if job.deadline <= now && (had as u64) < job.need {
            let mut index = 0;
            for k in 0..j {
                if jobs[k].task == job.task {
                    index += 1;
                }
            }
            let miss = Miss {
                task: job.task,
                index,
                deadline: job.deadline,
            };
            let sooner = match first {
                Some(other) => {
                    (miss.deadline, miss.task, miss.index)
                        < (other.deadline, other.task, other.index)
                }
                None => true,
            };
            if sooner {
                first = Some(miss);
            }
        }
    }
    first
}

// What a board is to show at tick t.
fn expected(miss: Option<(u32, u32, u32)>, t: u64) -> Option<Miss> {
    match miss {
        Some((task, index, deadline)) if u64::from(deadline) <= t => Some(Miss {
            task,
            index,
            deadline: u64::from(deadline),
        }),
        _ => None,
    }
}

// Whether a replay shows at each tick what the plain machine does; a case by hand has its first miss as well.
fn replays(alloc: Global, case: Case, by_hand: bool) -> Result<bool, Fail> {
    let set = looped_set(alloc, 2, &[case.first, case.second])?.ok_or("past the limits")?;
    let [x, y, z] = case.releases;
    let releases = [at(x), at(y), at(z)];
    let jobs = [job(case, x), job(case, y), job(case, z)];
    if !legal(&set, &releases) {
        return Ok(false);
    }
    let picks = plain_trace(alloc, case.policy, &jobs, 20)?;
    let mut board = Board::start(alloc, &set, case.policy, &releases)?;
    Ok(shows(&mut board, case, by_hand, &jobs, picks.as_slice()))
}

// Whether the board shows the plain machine's misses at the ticks 0 to 19.
fn shows(
    board: &mut Board,
    case: Case,
    by_hand: bool,
    jobs: &[Job; 3],
    picks: &[Option<u32>],
) -> bool
    requires { board.old.ticks ≡ 0 }
{
    for t in 0..20 {
        board.run_until(t);
        let miss = board.first_miss();
        if miss != plain_miss(jobs, picks, t) || by_hand && miss != expected(case.miss, t) {
            return false;
        }
    }
    true
}

#[test]
fn first_misses_are_those_worked_by_hand_and_of_the_plain_machine(
    rt: HostRuntime,
) -> Result<(), Fail> {
    let worked = Case {
        first: (1, 2, 4),
        second: (2, 3, 6),
        policy: Policy::Fixed,
        releases: [(0, 0, 2), (0, 4, 2), (1, 0, 3)],
        miss: Some((1, 0, 6)),
    };
    let both_late = Case {
        first: (2, 1, 4),
        second: (1, 5, 4),
        policy: Policy::Fixed,
        releases: [(0, 0, 1), (0, 4, 1), (1, 0, 5)],
        miss: Some((0, 0, 4)),
    };
    let cases = [
        worked,
        Case {
            policy: Policy::Edf,
            miss: None,
            ..worked
        },
        // Needs below the worst case, and ticks with nothing to do.
        Case {
            releases: [(0, 3, 1), (0, 9, 2), (1, 0, 2)],
            miss: None,
            ..worked
        },
        // Both first jobs are late at 4, and the least task is named.
        both_late,
        // Equal deadlines: the first task runs first.
        Case {
            policy: Policy::Edf,
            miss: Some((1, 0, 4)),
            ..both_late
        },
        // The last tick before the deadline is enough, and one tick more isn't there.
        Case {
            first: (1, 4, 4),
            second: (2, 4, 8),
            policy: Policy::Edf,
            releases: [(0, 0, 4), (0, 9, 3), (1, 0, 4)],
            miss: None,
        },
        Case {
            first: (1, 4, 4),
            second: (2, 5, 8),
            policy: Policy::Edf,
            releases: [(0, 0, 4), (0, 9, 3), (1, 0, 5)],
            miss: Some((1, 0, 8)),
        },
        // A late job stays pending and delays the next one.
        Case {
            first: (1, 6, 4),
            second: (2, 1, 9),
            policy: Policy::Fixed,
            releases: [(0, 1, 6), (0, 5, 4), (1, 2, 1)],
            miss: Some((0, 0, 5)),
        },
    ];
    for (i, case) in cases.iter().enumerate() {
        assert!(rt; replays(rt.alloc(), *case, true)?, "case {i}");
    }
    Ok(())
}

// A stream of numbers that look random.
#[derive(Drop)]
struct Draws {
    state: u64,
}

impl Draws {
    // A number below `k`.
    fn draw(&mut self, k: u32) -> u32
        requires { 0 < k }
        ensures { result < k }
    {
        self.state = self
            .state
            .wrapping_mul(6_364_136_223_846_793_005)
            .wrapping_add(1_442_695_040_888_963_407);
        ((self.state >> 33) % u64::from(k)) as u32
    }
}

// Two tasks with small numbers, and two releases of the first and one of the second.
fn drawn(draws: &mut Draws) -> Case {
    let swapped = draws.draw(2);
    let (wcet, deadline) = (1 + draws.draw(4), 1 + draws.draw(6));
    let (other_wcet, other_deadline) = (1 + draws.draw(4), 1 + draws.draw(8));
    let start = draws.draw(4);
    let next = start + deadline + draws.draw(3);
    let other_start = draws.draw(5);
    Case {
        first: (1 + swapped, wcet, deadline),
        second: (2 - swapped, other_wcet, other_deadline),
        policy: if draws.draw(2) == 0 {
            Policy::Edf
        } else {
            Policy::Fixed
        },
        releases: [
            (0, start, 1 + draws.draw(wcet)),
            (0, next, 1 + draws.draw(wcet)),
            (1, other_start, 1 + draws.draw(other_wcet)),
        ],
        miss: None,
    }
}

#[test]
fn a_thousand_drawn_lists_are_replayed_as_by_the_plain_machine(
    rt: HostRuntime,
) -> Result<(), Fail> {
    let mut draws = Draws { state: 1 };
    for i in 0..1000 {
        let case = drawn(&mut draws);
        assert!(rt; replays(rt.alloc(), case, false)?, "list {i}");
    }
    Ok(())
}

// Whether the second of two releases of a task is far off, and the board at once shows when both are done.
fn is_replayed_at_once(alloc: Global) -> Result<bool, Fail> {
    let set = looped_set(alloc, 1, &[(1, 2, 5)])?.ok_or("past the limits")?;
    let first = Release {
        task: 0,
        vertex: 0,
        time: 0,
        need: 2,
    };
    let far = Release {
        task: 0,
        vertex: 0,
        time: 1_000_000_000_000_000,
        need: 2,
    };
    let releases = [first, far];
    if !legal(&set, &releases) {
        return Ok(false);
    }
    let mut board = Board::start(alloc, &set, Policy::Edf, &releases)?;
    board.run_until(1);
    let before = board.finish_time(0, 0);
    board.run_until(1_000_000_000_000_002);
    let near_end = board.finish_time(0, 0);
    let far_end = board.finish_time(0, 1);
    Ok(
        before == None
            && near_end == Some(2)
            && far_end == Some(1_000_000_000_000_002)
            && board.first_miss() == None,
    )
}

#[test]
fn a_release_at_ten_to_the_fifteen_is_replayed_at_once(rt: HostRuntime) -> Result<(), Fail> {
    assert!(rt; is_replayed_at_once(rt.alloc())?);
    Ok(())
}
