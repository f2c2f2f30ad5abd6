//! Searches of worked forests.
ghost use Rattle.std.specs.Prelude.{◌≡◌, ◌≤◌, ℕ, List, IfOk, length, true};
ghost use Rattle.drt_steps.specs.Time.{AreChosen, Passes};
ghost use Rattle.drt_refine.specs.Below.{AreBelow};

use drt_crew::Crew;
use drt_effort::Effort;
use drt_model::{Memory, Row};
use drt_pool::Gate;
use drt_refine::{FrontierReply, over_every_interleaving};
use drt_shared_frontier::refine;
use drt_steps::Steps;
use drt_tree::Forest;
use drt_worst::{Worst, worst};
use std::alloc::Global;
use std::sync::Wait;
use std::test::Fail;
use std::thread::Threads;

// How many steps show that a time passes for each tuple of a worked forest.
const STEPS: u64 = 1_000;

/// What is searched: a forest from these roots, for a vertex of this wcet and deadline.
#[derive(Clone, Copy)]
pub(crate) struct Terms<'a> {
    pub(crate) forest: &'a Forest,
    pub(crate) roots: &'a [u32],
    pub(crate) wcet: u32,
    pub(crate) deadline: u32,
}

// Whether each chosen number names a function of the pool that goes to the deadline.
fn are_chosen(deadline: u64, pool: &[Steps], chosen: &[u32]) -> bool
    ensures { result ≡ true → AreChosen deadline pool.now chosen.now }
{
    for k in chosen {
        if *k as usize >= pool.len() {
            return false;
        }
        if pool[*k as usize].bound() < deadline {
            return false;
        }
    }
    true
}

// Whether the functions of these nodes go to the deadline.
fn can_start(forest: &Forest, roots: &[u32], deadline: u32) -> bool
    ensures { result ≡ true → AreChosen deadline forest.now.pool roots.now }
{
    are_chosen(deadline as u64, forest.all(), roots)
}

// Whether a time passes for each tuple of leaves below the roots, by the frontier's own search, which one of the crew makes.
fn all_pass<G: Gate, R: Threads + Wait + Sync>(
    crew: &Crew<'_, G, R>,
    forest: &Forest,
    roots: &[u32],
    wcet: u32,
    deadline: u32,
) -> Result<bool, Memory>
    requires few { length roots.now ≤ 31 }
    requires roots { AreChosen deadline forest.now.pool roots.now }
    requires wcet { (1 ≤ wcet) × (wcet ≤ 1000000) }
    requires deadline { (1 ≤ deadline) × (deadline ≤ 1000000) }
    ensures { IfOk result (λ yes. yes ≡ true → (tuple : List ℕ) → AreBelow forest.now tuple roots.now → (t : ℕ) × Passes wcet deadline forest.now.pool tuple t) }
{
    over_every_interleaving();
    let one = crew.with(Effort::new(1, STEPS));
    let (_frontier, reply) = refine(&one, forest, roots, wcet, deadline)?;
    match reply {
        FrontierReply::Finished => Ok(true),
        _ => Ok(false),
    }
}

/// What so many workers find.
pub(crate) fn search<G: Gate, R: Threads + Wait + Sync>(
    rt: &R,
    alloc: Global,
    terms: &Terms<'_>,
    workers: u32,
    budget: u64,
    gate: &G,
) -> Result<Worst, Fail> {
    let Terms {
        forest,
        roots,
        wcet,
        deadline,
    } = *terms;
    if workers < 1 || workers > 16 || budget < 1 || budget > 1_000_000 {
        return Err("the workers and the budget are in range".into());
    }
    if wcet < 1 || wcet > 1_000_000 || deadline < 1 || deadline > 1_000_000 || roots.len() > 31 {
        return Err("the terms are in range".into());
    }
    if !can_start(forest, roots, deadline) {
        return Err("the functions go to the deadline".into());
    }
    let crew = Crew {
        rt,
        alloc,
        effort: Effort::new(workers, budget),
        gate,
    };
    if !all_pass(&crew, forest, roots, wcet, deadline)? {
        return Err("a time passes for each tuple".into());
    }
    Ok(worst(&crew, forest, roots, wcet, deadline)?)
}

/// Whether these are the combinations, in order.
pub(crate) fn are_rows(rows: &[Row<u32>], expected: &[&[u32]]) -> bool {
    if rows.len() != expected.len() {
        return false;
    }
    for i in 0..rows.len() {
        if rows[i].as_slice() != expected[i] {
            return false;
        }
    }
    true
}

/// Whether a budget was spent on these combinations, in order.
pub(crate) fn is_spent(found: &Worst, expected: &[&[u32]]) -> bool {
    match found {
        Worst::Spent { taken } => are_rows(taken.as_slice(), expected),
        Worst::Reached { .. } => false,
    }
}

/// Whether a budget was spent on so many combinations, the roots as the first.
pub(crate) fn is_spent_from(found: &Worst, roots: &[u32], count: u64) -> bool {
    match found {
        Worst::Spent { taken } => {
            let rows = taken.as_slice();
            rows.len() as u64 == count && rows.len() > 0 && rows[0].as_slice() == roots
        }
        Worst::Reached { .. } => false,
    }
}

/// Whether so many ticks were reached, by these leaves.
pub(crate) fn is_reached(found: &Worst, expected: u64, by: &[u32]) -> bool {
    match found {
        Worst::Reached { ticks, leaves } => *ticks == expected && leaves.as_slice() == by,
        Worst::Spent { .. } => false,
    }
}
