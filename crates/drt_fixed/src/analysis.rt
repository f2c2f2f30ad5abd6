//! The analysis.
ghost use Rattle.std.specs.Prelude.{◌≡◌, ℕ, ◌≤◌, IfOk, IfSome};
ghost use Rattle.drt_model.specs.Contents.{Contents};
ghost use Rattle.drt_claims.specs.Ranges.{IsEvidenceInRange};
ghost use Rattle.drt_sp.specs.Answers.{IsTreeUndecided};
ghost use Rattle.drt_sp.specs.Evidence.{under_fixed};
ghost use Rattle.drt_fixed.specs.Answers.{IsAnalysed, IsByStates, IsDecision};

use crate::foresight::is_beyond_trees;
use crate::ranges::is_in_range;
use crate::searching::find_by_states;
use drt_accepted::Accepted;
use drt_check::{Judgement, check};
use drt_claims::{Dossier, Evidence};
use drt_crew::Crew;
use drt_effort::Effort;
use drt_model::{Memory, Policy, TaskSet};
use drt_pool::Gate;
use drt_priorities::copy_of;
use drt_sp::{ALLOWANCE, Answer, FixedTrail};
use std::sync::Wait;
use std::thread::Threads;

/// What the analysis of a set under fixed priorities found: its evidence, and the trail of a spent budget where nothing
/// is decided.
#[derive(Drop)]
pub struct Analysed {
    pub evidence: Evidence,
    pub trail: Option<FixedTrail>,
}

/// Decides whether a set is schedulable under fixed priorities.
///
/// First each table and each frontier of `drt_sp` has the crew's budget or 4,096 steps, whichever is less; in the
/// latter case one worker makes them, unless they are bound to be spent. Where they are and the budget is greater, the
/// states of each vertex are searched, with the budget for each; and where that finds nothing, tables and frontiers
/// have the whole budget.
pub fn analyse_fixed<G: Gate, R: Threads + Wait + Sync>(
    crew: &Crew<'_, G, R>,
    set: &Accepted<'_>,
) -> Result<Analysed, Memory>
    ensures { IfOk result (IsAnalysed set.now crew.now.effort.budget) }
{
    if let Some(answer) = try_trees(crew, set)? {
        return Ok(answer);
    }
    if let Some(evidence) = decide_by_states(crew, set)? {
        return Ok(decided(evidence));
    }
    match drt_sp::analyse_fixed(crew, set)? {
        Answer::Meets(evidence) => Ok(decided(evidence)),
        Answer::Misses(evidence) => Ok(decided(evidence)),
        Answer::Undecided(trail) => Ok(undecided(trail)),
    }
}

// The answer of a first attempt by trees: none where its steps are spent, or are bound to be, and the budget has more.
fn try_trees<G: Gate, R: Threads + Wait + Sync>(
    crew: &Crew<'_, G, R>,
    set: &Accepted<'_>,
) -> Result<Option<Analysed>, Memory>
    ensures { IfOk result (λ found. IfSome found (IsAnalysed set.now crew.now.effort.budget)) }
{
    if crew.effort.budget() > ALLOWANCE && is_beyond_trees(crew.alloc, set)? {
        return Ok(None);
    }
    let few = crew.with(first_effort(&crew.effort));
    match drt_sp::analyse_fixed(&few, set)? {
        Answer::Meets(evidence) => Ok(Some(decided(evidence))),
        Answer::Misses(evidence) => Ok(Some(decided(evidence))),
        Answer::Undecided(trail) if crew.effort.budget() <= ALLOWANCE => {
            Ok(Some(undecided(trail)))
        }
        Answer::Undecided(_) => Ok(None),
    }
}

/// The effort of a first attempt by trees: 4,096 steps by one worker, where the budget has more; else all of it, since
/// nothing comes after it.
pub fn first_effort(effort: &Effort) -> Effort
    ensures { effort.now.budget ≤ 4096 → result.budget ≡ effort.now.budget }
{
    if effort.budget() <= ALLOWANCE {
        *effort
    } else {
        effort.alone().at_most(ALLOWANCE)
    }
}

/// The evidence by tails and states, where some is found with the crew's budget of states for each vertex and the
/// checker accepts it.
pub fn decide_by_states<G: Gate, R: Threads + Wait + Sync>(
    crew: &Crew<'_, G, R>,
    set: &Accepted<'_>,
) -> Result<Option<Evidence>, Memory>
    ensures { IfOk result (IsByStates set.now) }
{
    let Some(evidence) = find_by_states(crew, set)? else {
        return Ok(None);
    };
    if !is_in_range(&evidence) {
        return Ok(None);
    }
    let dossier = dossier_of(copy_of(crew.alloc, set.set())?, evidence);
    match check(crew.alloc, &dossier)? {
        Judgement::Schedulable => Ok(Some(dossier.evidence)),
        Judgement::Unschedulable => Ok(Some(dossier.evidence)),
        _ => Ok(None),
    }
}

// The answer with this evidence.
fn decided(evidence: Evidence) -> Analysed
    ensures { (set : Contents) (budget : ℕ) → IsDecision set evidence → IsAnalysed set budget result }
{
    Analysed {
        evidence,
        trail: None,
    }
}

// That nothing is decided, and why.
fn undecided(trail: FixedTrail) -> Analysed
    ensures { (set : Contents) (budget : ℕ) → IsTreeUndecided set budget trail → IsAnalysed set budget result }
{
    Analysed {
        evidence: Evidence::Undecided,
        trail: Some(trail),
    }
}

// The dossier of a set under fixed priorities with this evidence.
fn dossier_of(set: TaskSet, evidence: Evidence) -> Dossier
    requires { IsEvidenceInRange evidence }
    ensures { result ≡ under_fixed set evidence }
{
    Dossier {
        policy: Policy::Fixed,
        set,
        evidence,
    }
}
