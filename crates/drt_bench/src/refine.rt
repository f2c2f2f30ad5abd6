//! How fast a frontier is refined.
//!
//! The arguments after the subject are a number of walks, a number of workers and a number of rounds; without them 100, 1 and 1. With no
//! worker the frontier is driven by its one owner, without the lock. All combinations are split down to the walks, so each round has four
//! steps for each walk, but for two. The answer has no times in it: `bench/refine` takes them from outside.
ghost use Rattle.std.specs.Prelude.{◌≡◌, ◌≤◌, ◌∷◌, []};
ghost use Rattle.drt_steps.specs.Time.{AreChosen};

use crate::input::number;
use drt_crew::Crew;
use drt_effort::Effort;
use drt_model::Memory;
use drt_pool::EagerGate;
use drt_refine::Frontier;
use drt_shared_frontier::refine;
use drt_test_tools::windows;
use drt_tree::Forest;
use std::alloc::Global;
use std::env::Args;
use std::sync::Wait;
use std::thread::Threads;

// How many steps a frontier may make.
const BUDGET: u64 = 1_000_000;

// The job's execution time, in ticks.
const WCET: u32 = 1;

// The number of steps of one round.
fn steps<R: Threads + Wait + Sync>(
    rt: &R,
    alloc: Global,
    forest: &Forest,
    root: u32,
    deadline: u32,
    workers: u32,
) -> Result<usize, Memory>
    requires roots { AreChosen deadline forest.now.pool (root ∷ []) }
    requires deadline { (1 ≤ deadline) × (deadline ≤ 1000000) }
    requires workers { workers ≤ 16 }
{
    let frontier = if workers == 0 {
        let mut frontier = Frontier::start(alloc, forest, &[root], WCET, deadline, BUDGET)?;
        let _reply = frontier.drive(forest, 0);
        frontier
    } else {
        let crew = Crew {
            rt,
            alloc,
            effort: Effort::new(workers, BUDGET),
            gate: &EagerGate,
        };
        let (frontier, _reply) = refine(&crew, forest, &[root], WCET, deadline)?;
        frontier
    };
    Ok(frontier.log().len())
}

// The number of steps of all rounds.
fn all_steps<R: Threads + Wait + Sync>(
    rt: &R,
    alloc: Global,
    walks: u32,
    workers: u32,
    rounds: u32,
) -> Result<u64, Memory>
    requires workers { workers ≤ 16 }
{
    let mut made: u64 = 0;
    let Some((forest, root)) = windows(alloc, walks)? else {
        return Ok(0);
    };
    let functions = forest.all();
    if root as usize >= functions.len() {
        return Ok(0);
    }
    let deadline = functions[root as usize].bound();
    if deadline == 0 || deadline > 1_000_000 {
        return Ok(0);
    }
    for _ in 0..rounds {
        let more = steps(rt, alloc, &forest, root, deadline as u32, workers)?;
        made = made.saturating_add(more as u64);
    }
    Ok(made)
}

/// Runs the subject with these arguments, and writes what it comes to.
pub fn run<R: Print + Threads + Wait + Sync>(
    rt: &R,
    alloc: Global,
    mut arguments: Args,
) -> anyhow::Result<()> {
    let walks = number(arguments.next(), 100).clamp(1, 50_000);
    let workers = number(arguments.next(), 1).min(16);
    let rounds = number(arguments.next(), 1);
    let made = all_steps(rt, alloc, walks, workers, rounds)?;
    println!(rt;
        "{} walks, {} workers, {} rounds: {} steps",
        walks, workers, rounds, made
    )?;
    Ok(())
}
