use crate::graphs::make_graph;
use crate::relief::Relief;
use crate::tables::has_front;
use drt_fixtures::Shape;
use drt_fixtures::shapes::RETURNING;
use drt_pool::{EagerGate, Gate, OpenGate};
use drt_wave::{DenseFront, fill};
use std::alloc::Global;
use std::sync::Wait;
use std::sync::atomic::{AtomicU64, Ordering};
use std::test::Fail;
use std::thread::Threads;

// The vertices a(1,1), b(5,1) with edges of 10,000 there and back: each of its waves but the last has 20,000 cells.
const FAR: Shape<'static> = (&[(1, 1), (5, 1)], &[(0, 1, 10_000), (1, 0, 10_000)]);

// The front of its walks up to 20,001, by their last vertices: that of a, b a, a b a, b, a b and b a b.
const FAR_FRONT: [(u32, u64, u64); 6] = [
    (0, 0, 1),
    (0, 10_000, 6),
    (0, 20_000, 7),
    (1, 0, 5),
    (1, 10_000, 6),
    (1, 20_000, 11),
];

// A shape, and the front of its walks up to a bound.
struct Case {
    shape: Shape<'static>,
    bound: u64,
    front: &'static [(u32, u64, u64)],
}

const CASES: [Case; 2] = [
    Case {
        shape: RETURNING,
        bound: 5,
        front: &[(0, 0, 1), (1, 0, 2), (2, 0, 1), (2, 1, 3), (2, 4, 4)],
    },
    Case {
        shape: FAR,
        bound: 20_001,
        front: &FAR_FRONT,
    },
];

// The works of a graph of this shape up to the bound, by so many workers.
fn works_by<G: Gate, R: Threads + Wait + Sync>(
    rt: &R,
    alloc: Global,
    shape: Shape<'_>,
    bound: u64,
    workers: u32,
    gate: &G,
) -> Result<DenseFront, Fail> {
    let graph = make_graph(alloc, shape, bound)?;
    if workers < 1 || workers > 16 {
        return Err("1 to 16 workers".into());
    }
    Ok(fill(rt, alloc, &graph, bound, workers, gate)?)
}

// Whether so many workers find this front by that gate.
fn finds<G: Gate, R: Threads + Wait + Sync>(
    rt: &R,
    alloc: Global,
    case: &Case,
    workers: u32,
    gate: &G,
) -> Result<bool, Fail> {
    let works = works_by(rt, alloc, case.shape, case.bound, workers, gate)?;
    has_front(alloc, &works, case.front)
}

// Whether so many workers find this front by the eager gate and by the open one.
fn finds_by_both<R: Threads + Wait + Sync>(
    rt: &R,
    alloc: Global,
    case: &Case,
    workers: u32,
) -> Result<bool, Fail> {
    Ok(finds(rt, alloc, case, workers, &EagerGate)? && finds(rt, alloc, case, workers, &OpenGate)?)
}

#[test]
fn each_number_of_workers_finds_the_same_front_also_of_wide_waves(
    rt: HostRuntime,
) -> Result<(), Fail> {
    for (i, case) in CASES.iter().enumerate() {
        for workers in [1u32, 2, 4, 16] {
            assert!(rt;
                finds_by_both(&rt, rt.alloc(), case, workers)?,
                "case {i} by {workers}"
            );
        }
    }
    Ok(())
}

// How many turns the first of two workers has in all, where the second one begins once the first has worked a row of blocks of the second wave,
// and the first one then waits until the second has worked all the others. None where one of the two waits in vain or the front is wrong.
//
// A wave of 20,000 cells has 313 blocks. By a turn a worker takes a seat for the wave that is open, or draws a row of up to 8 blocks and works
// them; where it finds no more it gives the seat back. So the first worker takes a seat in turn 0, works 39 whole rows in the turns up to 39, and
// the block that is left in turn 40. In turn 41 it takes a seat for the second wave, in turn 42 it works a row, and before turn 43 it waits. The
// second worker takes a seat for that wave in its turn 0, works 38 whole rows in the turns up to 38, and the block that is left in turn 39.
// Before its turn 40 the first one goes on.
fn turns_with_relief<R: Threads + Wait + Sync>(rt: &R, alloc: Global) -> Result<Option<u64>, Fail> {
    let gate = Relief::at(43, 40);
    let works = works_by(rt, alloc, FAR, 20_001, 2, &gate)?;
    if !has_front(alloc, &works, &FAR_FRONT)? {
        return Ok(None);
    }
    Ok(gate.first_turns())
}

// The first worker finds no block left in turn 43, in which the last wave is worked too, since that one is too small to be shared. It stops in
// turn 44, its 45th. Had the second worker worked no block of the second wave, the first one would have had 41 turns in that wave too, and 83 in
// all. Were the second wave not shared, it would have had 42.
#[test]
fn a_second_worker_works_the_rest_of_a_later_wave(rt: HostRuntime) -> Result<(), Fail> {
    assert!(rt; turns_with_relief(&rt, rt.alloc())? == Some(45));
    Ok(())
}

// A gate that counts the turns of each of two workers, and leaves the caller some turn alone.
#[derive(Drop)]
struct Counts {
    turns: [AtomicU64; 2],
}

impl Gate for Counts {
    fn before(&self, worker: u32, _turn: u64) {
        if worker < 2 {
            self.turns[worker as usize].fetch_add(1, Ordering::SeqCst);
        }
    }

    fn alone(&self) -> u64 {
        1
    }
}

// How many turns each of two workers has for the table of a shape that is too small to be shared.
fn turns_of<R: Threads + Wait + Sync>(
    rt: &R,
    alloc: Global,
    shape: Shape<'_>,
    bound: u64,
) -> Result<[u64; 2], Fail> {
    let gate = Counts {
        turns: [AtomicU64::new(0), AtomicU64::new(0)],
    };
    let _works = works_by(rt, alloc, shape, bound, 2, &gate)?;
    let first = gate.turns[0].load(Ordering::SeqCst);
    let second = gate.turns[1].load(Ordering::SeqCst);
    Ok([first, second])
}

// Six waves of three cells: in its first turn the caller takes a seat for the first wave, in its second it works that wave and then all others,
// and in its third it finds that all are worked. A wave of 20,000 cells takes it forty turns in place of one. The other worker finds all worked
// in its only turn.
#[test]
fn the_first_wave_is_worked_in_turns_as_later_ones_are(rt: HostRuntime) -> Result<(), Fail> {
    let small = turns_of(&rt, rt.alloc(), RETURNING, 5)?;
    let wide = turns_of(&rt, rt.alloc(), FAR, 20_001)?;
    assert!(rt; small == [3, 1] && wide == [42, 1]);
    Ok(())
}
