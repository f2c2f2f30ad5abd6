//! The analysis.
ghost use Rattle.std.specs.Prelude.{IfOk};
ghost use Rattle.drt_edf.specs.Answers.{IsEdfAnswer};

use crate::above::above_one;
use crate::answer::EdfAnswer;
use crate::below::below_one;
use drt_accepted::Accepted;
use drt_claims::Evidence;
use drt_crew::Crew;
use drt_horizon::{Horizon, plan, ratios};
use drt_model::Memory;
use drt_pool::Gate;
use std::sync::Wait;
use std::thread::Threads;

/// Decides whether a set with constrained deadlines is schedulable under EDF. The crew's workers fill the wave table of a task together. Tasks
/// that have none are searched side by side, each by one worker, the longest first, where a reckoning finds several long ones; a single one is
/// searched by one worker, or by all where the gate's `alone` is 0. The gate sees each turn of workers that share a table, and each search that
/// a worker begins ahead. Each search ends after the steps of the crew's budget at the latest.
///
/// First come the ratios of all tasks, then the plan. A utilisation of one is told apart, with the ratios as evidence. Above one
/// the whole turns of the cycles are searched for a step time with more work than time. Below one each task's walks are searched
/// up to the horizon, in order of tasks, and the demands over the fronts are scanned.
///
/// Source: Stigge, Ekberg, Guan and Yi, "The Digraph Real-Time Task Model" (RTAS 2011).
pub fn analyse_edf<G: Gate, R: Threads + Wait + Sync>(
    crew: &Crew<'_, G, R>,
    set: &Accepted<'_>,
) -> Result<EdfAnswer, Memory>
    ensures { IfOk result (IsEdfAnswer set.now.tasks crew.now.effort.budget) }
{
    let graphs = set.graphs();
    let proofs = ratios(crew.alloc, graphs)?;
    graphs.keep_limits();
    match plan(graphs, proofs.as_slice()) {
        Ok(Horizon::Under { bound }) => below_one(crew, set, proofs, bound),
        Ok(Horizon::One) => Ok(EdfAnswer::Done(Evidence::UtilisationOne { ratios: proofs })),
        Ok(Horizon::Over) => above_one(crew.alloc, set, proofs.as_slice(), crew.effort),
        Err(beyond) => Ok(EdfAnswer::Beyond(beyond)),
    }
}
