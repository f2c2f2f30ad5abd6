//! The check of a dossier.
ghost use Rattle.std.specs.Prelude.{◌≡◌, ◌↔◌, ℕ, IfOk, IsTrue, MatchOption};
ghost use Rattle.std.specs.Option.{option_copied};
ghost use Rattle.drt_model.specs.Constrained.{AreConstrained};
ghost use Rattle.drt_claims.specs.Claims.{graphs_of};
ghost use Rattle.drt_claims.specs.Kinds.{HasReleases};
ghost use Rattle.drt_claims.specs.Rules.{Accepts, Keeps, Rejects};
ghost use Rattle.drt_check.specs.Deciding.{IsKnownOf, IsRuleDecided, IsNextRule};
ghost use Rattle.drt_check.specs.Judging.{IsAcceptance, IsStatementJudged, IsSoundJudgement};
ghost use Rattle.drt_check.specs.declared.judgement.Judgement.TheVariants.{Rejected};

use crate::judgement::Judgement;
use crate::known::Known;
use crate::laws::accepted_is_sound;
use crate::parts::{claimed, has_releases, is_undecided};
use crate::rules::{RULES, applies, keeps, keeps_plainly};
use drt_claims::{Dossier, Rule};
use drt_graph::{GraphError, Graphs, first_past};
use drt_model::Memory;
use std::alloc::Global;

/// The judgement of a dossier, whoever made it. There is nothing to check where its evidence is `undecided`. Else it is
/// rejected with the least number of a rule that applies and isn't kept, or accepted, and then what it claims holds.
pub fn check(alloc: Global, dossier: &Dossier) -> Result<Judgement, Memory>
    ensures judged { IfOk result (IsStatementJudged dossier.now) }
    ensures accepted { IfOk result (λ judgement. IsAcceptance judgement ↔ Accepts dossier.now) }
    ensures rejected { IfOk result (λ judgement. (number : ℕ) → (judgement ≡ Rejected number) ↔ Rejects dossier.now number) }
    ensures sound { IfOk result (IsSoundJudgement dossier.now) }
{
    if is_undecided(dossier) {
        return Ok(Judgement::NothingToCheck);
    }
    dossier.set.keep_limits();
    accepted_is_sound();
    match first_broken(alloc, dossier)? {
        Some(rule) => Ok(Judgement::Rejected {
            number: rule.number(),
        }),
        None => Ok(claimed(dossier)),
    }
}

// The first rule that applies and isn't kept, if there is one. No rule on releases that miss asks for graphs, and none are made for them.
fn first_broken(alloc: Global, dossier: &Dossier) -> Result<Option<Rule>, Memory>
    ensures { IfOk result (IsRuleDecided dossier.now) }
{
    if has_releases(dossier) {
        return first_broken_of_releases(alloc, dossier);
    }
    match drt_graph::check(alloc, &dossier.set) {
        Ok(graphs) => first_broken_of(alloc, Some(&graphs), dossier),
        Err(GraphError::DeadlinePastSeparation { .. }) => Ok(Some(Rule::ConstrainedDeadlines)),
        Err(GraphError::Memory) => Err(Memory),
    }
}

// The same where the evidence has releases.
fn first_broken_of_releases(alloc: Global, dossier: &Dossier) -> Result<Option<Rule>, Memory>
    requires { HasReleases dossier.now.evidence }
    ensures { IfOk result (IsRuleDecided dossier.now) }
{
    match first_past(dossier.set.tasks()) {
        Some(_) => Ok(Some(Rule::ConstrainedDeadlines)),
        None => first_broken_of(alloc, None, dossier),
    }
}

// The same where the deadlines are constrained.
fn first_broken_of(
    alloc: Global,
    graphs: Option<&Graphs>,
    dossier: &Dossier,
) -> Result<Option<Rule>, Memory>
    requires graphs { MatchOption (option_copied graphs) (HasReleases dossier.now.evidence) (λ made. made ≡ graphs_of dossier.now.set.tasks) }
    requires constrained { AreConstrained dossier.now.set.tasks }
    ensures { IfOk result (IsRuleDecided dossier.now) }
{
    let mut known = Known::new(alloc, &dossier.set)?;
    'rules: for i in 0..RULES.len() {
        let rule = RULES[i];
        if applies(rule, dossier) && !is_kept(alloc, rule, graphs, dossier, &mut known)? {
            return Ok(Some(rule));
        }
    }
    Ok(None)
}

// Whether the dossier keeps the rule, by the graphs where they were made.
fn is_kept(
    alloc: Global,
    rule: Rule,
    graphs: Option<&Graphs>,
    dossier: &Dossier,
    known: &mut Known,
) -> Result<bool, Memory>
    requires graphs { MatchOption (option_copied graphs) (HasReleases dossier.now.evidence) (λ made. made ≡ graphs_of dossier.now.set.tasks) }
    requires constrained { AreConstrained dossier.now.set.tasks }
    requires next { IsNextRule dossier.now rule }
    requires known { IsKnownOf dossier.now known.old }
    ensures known { IsKnownOf dossier.now known.new }
    ensures decided { IfOk result (λ kept. IsTrue kept ↔ Keeps rule dossier.now) }
{
    match graphs {
        Some(graphs) => keeps(alloc, rule, graphs, dossier, known),
        None => keeps_plainly(alloc, rule, dossier),
    }
}
