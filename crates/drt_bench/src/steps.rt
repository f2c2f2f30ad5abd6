//! How fast request functions are: the greater of two, and the least time over up to 31, again and again.
//!
//! The arguments after the subject are a call (`max_of` or `least_time`), a number of functions, a number of rises of each function and a
//! number of calls; without them `least_time`, 2, 3 and 1. The functions rise in turn, one at each tick, so that the greater of two rises
//! with each of them, and the least time comes by each rise of each function. The answer has no times in it: `bench/steps` takes them from
//! outside.
ghost use Rattle.std.specs.Prelude.{◌≡◌, ◌≤◌, length, true};
ghost use Rattle.drt_steps.specs.Time.{AreChosen};

use crate::input::number;
use drt_steps::{Steps, least_time};
use std::alloc::{AllocError, Global};
use std::env::Args;

// The function that rises by 1 after the time `first` and then each `separation` ticks.
fn function(
    alloc: Global,
    first: u64,
    separation: u64,
    rise_count: u64,
) -> Result<Steps, AllocError>
    requires first { first ≤ 1000 }
    requires separation { separation ≤ 1000 }
    requires few { rise_count ≤ 1000 }
{
    let mut function = Steps::flat(alloc, 1_000_000, 0)?;
    for i in 0..rise_count {
        function = function.raise_after(alloc, first + i * separation, 1)?;
    }
    Ok(function)
}

// As many functions as given, which rise in turn.
fn functions(alloc: Global, count: u32, rise_count: u64) -> Result<Vec<Steps>, AllocError>
    requires many { count ≤ 31 }
    requires few { rise_count ≤ 1000 }
{
    let mut pool = Vec::new(alloc);
    for k in 0..count {
        pool.push(function(alloc, k as u64 + 1, count as u64, rise_count)?)?;
    }
    Ok(pool)
}

// The number of rises together, by the greater of two functions; 0 where they have two bounds.
fn greatest(alloc: Global, a: &Steps, b: &Steps) -> Result<u64, AllocError> {
    if a.bound() != b.bound() {
        return Ok(0);
    }
    let greater = Steps::max_of(alloc, a, b)?;
    Ok(greater.at(greater.bound()))
}

// Whether each chosen number names a function of the pool that goes to the deadline.
fn are_chosen(deadline: u64, pool: &[Steps], chosen: &[u32]) -> bool
    ensures { result ≡ true → AreChosen deadline pool.now chosen.now }
{
    for k in chosen {
        if *k as usize >= pool.len() {
            return false;
        }
        if pool[*k as usize].bound() < deadline {
            return false;
        }
    }
    true
}

// The least time of a job of 2 ticks over the chosen functions; 0 where there is none.
fn least(pool: &[Steps], chosen: &[u32]) -> u64 {
    if chosen.len() > 31 || !are_chosen(1_000_000, pool, chosen) {
        return 0;
    }
    least_time(2, 1_000_000, pool, chosen).unwrap_or(0)
}

/// Runs the subject with these arguments, and writes what it comes to.
pub fn run(rt: &impl Print, alloc: Global, mut arguments: Args) -> anyhow::Result<()> {
    let greater = match arguments.next() {
        Some(call) => call.as_str() == "max_of",
        None => false,
    };
    let count = number(arguments.next(), 2).clamp(2, 31);
    let rise_count = number(arguments.next(), 3).min(1000);
    let call_count = number(arguments.next(), 1);
    let pool = functions(alloc, count, rise_count as u64)?;
    let mut chosen = Vec::new(alloc);
    for k in 0..count {
        chosen.push(k)?;
    }
    let mut answer = 0;
    for _ in 0..call_count {
        if greater && pool.len() >= 2 {
            answer = greatest(alloc, &pool[0], &pool[1])?;
        } else {
            answer = least(&pool, &chosen);
        }
    }
    println!(rt;
        "{} calls over {} functions of {} rises, the last with {}",
        call_count, count, rise_count, answer
    )?;
    Ok(())
}
