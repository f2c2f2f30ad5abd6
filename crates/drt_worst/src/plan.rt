//! What to do with a combination.

ghost use Rattle.std.specs.Prelude.{◌≡◌, ℕ, ◌<◌, ◌≤◌, length, Some, IfSome, IfOk, slice_set};
ghost use Rattle.drt_model.specs.Numbers.{most_time};
ghost use Rattle.drt_steps.specs.Time.{IsLeastTimeOf};
ghost use Rattle.drt_refine.specs.Below.{AreNodes, IsConcrete};
ghost use Rattle.drt_refine.specs.Eager.{IsSplitPlace};
ghost use Rattle.drt_worst.specs.Splitting.{IsSplit, PassesFor};
ghost use Rattle.drt_worst.specs.Subjects.{search_over};
ghost use Rattle.drt_worst.specs.Runs.{IsFit};
ghost use Rattle.drt_worst.specs.Plans.{choice_of, CanTake};

use crate::subject::Subject;
use drt_model::Row;
use drt_refine::choose_place;
use drt_steps::least_time;
use drt_tree::Forest;
use std::alloc::{AllocError as Memory, Global};

/// What is done with a combination: it is skipped, or its least time is reached, or it is split into two parts.
#[derive(Drop)]
pub(crate) enum Plan {
    Skips,
    Reaches(u64),
    Splits(Row<u32>, Row<u32>),
}

// A copy of a combination with another node at a place.
fn with_node(alloc: Global, nodes: &[u32], place: usize, node: u32) -> Result<Row<u32>, Memory>
    requires { place < length nodes.now }
    ensures { IfOk result (λ r. r ≡ slice_set nodes.now place node) }
{
    let mut copy = Vec::from_slice(alloc, nodes)?;
    copy[place] = node;
    Ok(Row::from_vec(copy))
}

/// The two parts of a combination, which is split at the place.
pub(crate) fn halves(
    alloc: Global,
    forest: &Forest,
    nodes: &[u32],
    place: u32,
) -> Result<(Row<u32>, Row<u32>), Memory>
    requires nodes { AreNodes forest.now nodes.now }
    requires place { IsSplitPlace forest.now nodes.now (Some place) }
    ensures { IfOk result (λ r. IsSplit forest.now nodes.now r.0 r.1) }
{
    let place = place as usize;
    match forest.children(nodes[place]) {
        Some((left, right)) => {
            let left = with_node(alloc, nodes, place, left)?;
            let right = with_node(alloc, nodes, place, right)?;
            Ok((left, right))
        }
        None => unreachable!(),
    }
}

/// What to do with a combination, where the value `seen` was reached.
pub(crate) fn make_plan(
    alloc: Global,
    subject: Subject<'_>,
    nodes: &[u32],
    seen: u64,
) -> Result<Plan, Memory>
    requires wcet { subject.wcet ≤ most_time }
    requires take { CanTake subject.forest.now subject.deadline nodes.now }
    requires some { IsConcrete subject.forest.now nodes.now → (t : ℕ) × PassesFor (search_over subject) nodes.now t }
    ensures { IfOk result (λ p. IsFit (search_over subject.entry) nodes.now seen (choice_of p)) }
{
    let least = least_time(
        subject.wcet as u64,
        subject.deadline as u64,
        subject.forest.all(),
        nodes,
    );
    if let Some(time) = least {
        if time <= seen {
            return Ok(Plan::Skips);
        }
    }
    split_or_reach(alloc, subject, nodes, seen, least)
}

// The same where the least time isn't at most `seen`.
fn split_or_reach(
    alloc: Global,
    subject: Subject<'_>,
    nodes: &[u32],
    seen: u64,
    least: Option<u64>,
) -> Result<Plan, Memory>
    requires take { CanTake subject.forest.now subject.deadline nodes.now }
    requires some { IsConcrete subject.forest.now nodes.now → (t : ℕ) × PassesFor (search_over subject) nodes.now t }
    requires least { IsLeastTimeOf subject.wcet subject.deadline subject.forest.now.pool nodes.now least }
    requires above { IfSome least (λ t. seen < t) }
    ensures { IfOk result (λ p. IsFit (search_over subject.entry) nodes.now seen (choice_of p)) }
{
    match choose_place(subject.forest, nodes) {
        Some(place) => {
            let (left, right) = halves(alloc, subject.forest, nodes, place)?;
            Ok(Plan::Splits(left, right))
        }
        None => match least {
            Some(time) => Ok(Plan::Reaches(time)),
            None => unreachable!(),
        },
    }
}
