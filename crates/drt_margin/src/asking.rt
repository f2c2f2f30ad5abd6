//! One set, asked of the analysis of its policy.
ghost use Rattle.std.specs.Prelude.{◌≡◌, ℕ, ◌+◌, ◌≤◌, ◌↔◌, IfOk, IsTrue};
ghost use Rattle.drt_model.specs.Numbers.{most_time};
ghost use Rattle.drt_model.specs.Constrained.{AreConstrained};
ghost use Rattle.drt_model.specs.Contents.{Contents};
ghost use Rattle.drt_model.specs.declared.jobs.Policy.{Policy};
ghost use Rattle.drt_model.specs.declared.jobs.Policy.TheVariants as policies;
ghost use Rattle.drt_claims.specs.Claims.{graphs_of};
ghost use Rattle.drt_margin.specs.Margin.{plus_set, wcet_at};
ghost use Rattle.drt_claims.specs.Ranges.{IsEvidenceInRange};
ghost use Rattle.drt_margin.specs.Answers.{IsAffirmative, IsVerdictUnder};
ghost use Rattle.drt_margin.specs.Steps.{IsAsked, IsFinding};

use crate::answer::MarginTrail;
use crate::question::Question;
use crate::times::{with_less, with_more};
use drt_accepted::Accepted;
use drt_claims::Evidence;
use drt_crew::Crew;
use drt_edf::{EdfAnswer, analyse_edf};
use drt_fixed::{Analysed, analyse_fixed};
use drt_graph::{GraphError, Graphs, check};
use drt_horizon::Beyond;
use drt_model::{Memory, Policy, TaskSet};
use drt_pool::Gate;
use std::alloc::Global;
use std::sync::Wait;
use std::thread::Threads;

/// What the analysis of one set found.
#[derive(Drop)]
pub enum Finding {
    /// The set is schedulable and, under EDF, its utilisation is below one.
    Yes(Evidence),
    /// It isn't.
    Other(Evidence),
    /// Under EDF, its numbers are out of reach.
    Beyond(Beyond),
    /// A budget was spent.
    Undecided(MarginTrail),
}

/// What is found of the set with so many ticks more, and the set as it was.
pub fn ask<G: Gate, R: Threads + Wait + Sync>(
    crew: &Crew<'_, G, R>,
    set: TaskSet,
    question: Question,
    add: u32,
) -> Result<(TaskSet, Finding), Memory>
    requires asked { IsAsked set question }
    requires limit { wcet_at set.tasks question.task question.vertex + add ≤ most_time }
    ensures same { IfOk result (λ r. r.0 ≡ set) }
    ensures finding { IfOk result (λ r. IsFinding question.policy (plus_set set question.task question.vertex add) crew.now.effort.budget r.1) }
{
    let more = with_more(crew.alloc, set, question.task, question.vertex, add);
    let finding = analyse(crew, &more, question.policy)?;
    let set = with_less(crew.alloc, more, question.task, question.vertex, add);
    Ok((set, finding))
}

// What is found of the set under the policy.
fn analyse<G: Gate, R: Threads + Wait + Sync>(
    crew: &Crew<'_, G, R>,
    set: &TaskSet,
    policy: Policy,
) -> Result<Finding, Memory>
    requires { AreConstrained set.now.tasks }
    ensures { IfOk result (IsFinding policy set.now crew.now.effort.budget) }
{
    let graphs = make_graphs(crew.alloc, set)?;
    let accepted = Accepted::of(set, &graphs);
    match policy {
        Policy::Edf => analyse_by_edf(crew, &accepted),
        Policy::Fixed => analyse_by_priorities(crew, &accepted),
    }
}

// What is found under EDF.
fn analyse_by_edf<G: Gate, R: Threads + Wait + Sync>(
    crew: &Crew<'_, G, R>,
    set: &Accepted<'_>,
) -> Result<Finding, Memory>
    ensures { IfOk result (IsFinding policies.Edf set.now crew.now.effort.budget) }
{
    match analyse_edf(crew, set)? {
        EdfAnswer::Done(evidence) => Ok(decided(evidence)),
        EdfAnswer::Beyond(beyond) => Ok(Finding::Beyond(beyond)),
        EdfAnswer::Undecided(trail) => Ok(Finding::Undecided(MarginTrail::Edf(trail))),
    }
}

// What is found under fixed priorities.
fn analyse_by_priorities<G: Gate, R: Threads + Wait + Sync>(
    crew: &Crew<'_, G, R>,
    set: &Accepted<'_>,
) -> Result<Finding, Memory>
    ensures { IfOk result (IsFinding policies.Fixed set.now crew.now.effort.budget) }
{
    let Analysed { evidence, trail } = analyse_fixed(crew, set)?;
    match trail {
        Some(spent) => Ok(Finding::Undecided(MarginTrail::Fixed(spent))),
        None => Ok(decided(evidence)),
    }
}

// A yes, or another kind of evidence.
fn decided(evidence: Evidence) -> Finding
    ensures { (policy : Policy) (set : Contents) (budget : ℕ) → IsVerdictUnder policy set evidence → IsEvidenceInRange evidence → IsFinding policy set budget result }
{
    if is_affirmative(&evidence) {
        Finding::Yes(evidence)
    } else {
        Finding::Other(evidence)
    }
}

// Whether the evidence is a yes.
fn is_affirmative(evidence: &Evidence) -> bool
    ensures { IsTrue result ↔ IsAffirmative evidence.now }
{
    match evidence {
        Evidence::EdfYes { .. } => true,
        Evidence::EdfNo { .. } => false,
        Evidence::UtilisationOne { .. } => false,
        Evidence::FixedYes { .. } => true,
        Evidence::FixedStates { .. } => true,
        Evidence::FixedNo { .. } => false,
        Evidence::Undecided => false,
    }
}

// The graphs of a set with constrained deadlines.
fn make_graphs(alloc: Global, set: &TaskSet) -> Result<Graphs, Memory>
    requires { AreConstrained set.now.tasks }
    ensures { IfOk result (λ graphs. graphs ≡ graphs_of set.now.tasks) }
{
    match check(alloc, set) {
        Ok(graphs) => Ok(graphs),
        Err(GraphError::DeadlinePastSeparation { .. }) => unreachable!(),
        Err(GraphError::Memory) => Err(Memory),
    }
}
