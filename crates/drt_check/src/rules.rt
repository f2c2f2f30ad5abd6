//! The rules, one row for each.
ghost use Rattle.std.specs.Prelude.{◌≡◌, ◌≢◌, ◌↔◌, AllPairs, IfOk, IsTrue};
ghost use Rattle.drt_model.specs.Constrained.{AreConstrained};
ghost use Rattle.drt_claims.specs.Claims.{graphs_of};
ghost use Rattle.drt_claims.specs.Rules.{Applies, HasClaimedUtilisation, Keeps};
ghost use Rattle.drt_claims.specs.declared.rule.Rule.TheVariants.{ClaimedUtilisation};
ghost use Rattle.drt_check.specs.Deciding.{AsksForNoGraphs, IsKnownOf, IsNextRule, IsOnStates};
ghost use Rattle.drt_check_trees.specs.Order.{IsPriorityOrder};

use crate::claimed::{ClaimRule, all_keep, are_lowest};
use crate::known::Known;
use crate::parts::{
    fronts_of, has_releases, is_of_policy, miss_of, proofs_of, ratios_of, releases_of, searches_of,
    tails_of, trees_of,
};
use crate::releases::is_least_miss;
use crate::utilisation::{is_below_one, is_fine, is_horizon_near, is_one, near_horizon};
use drt_check_fronts::{are_closed, are_in_order, have_openings, have_room};
use drt_check_proofs::{have_passing_times, have_shapes, is_proof_per_vertex};
use drt_check_searches::{
    bound_walks, has_rising_tails, have_dominated_splits, have_passing_states, have_states,
    is_search_per_vertex,
};
use drt_check_trees::{are_trees, cover_walks, have_short_walks, is_tree_per_higher_task};
use drt_claims::{Dossier, Evidence, Rule};
use drt_graph::Graphs;
use drt_model::{Memory, legal};
use std::alloc::Global;

/// The rules in the order of their numbers.
pub const RULES: [Rule; 30] = [
    Rule::ConstrainedDeadlines,
    Rule::KindOfPolicy,
    Rule::RatioPerTask,
    Rule::LowestTerms,
    Rule::PotentialPerVertex,
    Rule::FittingPotentials,
    Rule::ClosedCycles,
    Rule::TightCycles,
    Rule::FineScale,
    Rule::ClaimedUtilisation,
    Rule::NearHorizon,
    Rule::OrderedFronts,
    Rule::CoveredOpenings,
    Rule::CoveredExtensions,
    Rule::Room,
    Rule::TreePerHigherTask,
    Rule::ShortWalks,
    Rule::CoveredWalks,
    Rule::TreeShapes,
    Rule::ProofPerVertex,
    Rule::ProofShapes,
    Rule::PassingTimes,
    Rule::LegalReleases,
    Rule::LeastMiss,
    Rule::RisingTails,
    Rule::BoundingTails,
    Rule::SearchPerVertex,
    Rule::SearchStates,
    Rule::PassingStates,
    Rule::DominatedChildren,
];

/// Whether the rule applies to the kind of the dossier's evidence.
pub fn applies(rule: Rule, dossier: &Dossier) -> bool
    ensures { IsTrue result ↔ Applies rule dossier.now.evidence }
{
    let evidence = &dossier.evidence;
    match rule {
        Rule::ConstrainedDeadlines | Rule::KindOfPolicy => true,
        Rule::RatioPerTask
        | Rule::LowestTerms
        | Rule::PotentialPerVertex
        | Rule::FittingPotentials
        | Rule::ClosedCycles
        | Rule::TightCycles
        | Rule::FineScale
        | Rule::ClaimedUtilisation => {
            matches!(
                evidence,
                Evidence::EdfYes { .. } | Evidence::UtilisationOne { .. }
            )
        }
        Rule::NearHorizon
        | Rule::OrderedFronts
        | Rule::CoveredOpenings
        | Rule::CoveredExtensions
        | Rule::Room => matches!(evidence, Evidence::EdfYes { .. }),
        Rule::TreePerHigherTask
        | Rule::ShortWalks
        | Rule::CoveredWalks
        | Rule::TreeShapes
        | Rule::ProofPerVertex
        | Rule::ProofShapes
        | Rule::PassingTimes => matches!(evidence, Evidence::FixedYes { .. }),
        Rule::LegalReleases | Rule::LeastMiss => has_releases(dossier),
        Rule::RisingTails
        | Rule::BoundingTails
        | Rule::SearchPerVertex
        | Rule::SearchStates
        | Rule::PassingStates
        | Rule::DominatedChildren => matches!(evidence, Evidence::FixedStates { .. }),
    }
}

/// Whether the dossier keeps the rule, where it keeps those that apply and have smaller numbers. The first was decided
/// before.
pub fn keeps(
    alloc: Global,
    rule: Rule,
    graphs: &Graphs,
    dossier: &Dossier,
    known: &mut Known,
) -> Result<bool, Memory>
    requires graphs { graphs.now ≡ graphs_of dossier.now.set.tasks }
    requires constrained { AreConstrained dossier.now.set.tasks }
    requires next { IsNextRule dossier.now rule }
    requires known { IsKnownOf dossier.now known.old }
    ensures known { IsKnownOf dossier.now known.new }
    ensures decided { IfOk result (λ kept. IsTrue kept ↔ Keeps rule dossier.now) }
{
    let order = known.order.as_slice();
    let horizon = &mut known.horizon;
    let ratios = ratios_of(dossier);
    let fronts = fronts_of(dossier);
    let trees = trees_of(dossier);
    let proofs = proofs_of(dossier);
    match rule {
        Rule::ConstrainedDeadlines | Rule::KindOfPolicy | Rule::LegalReleases | Rule::LeastMiss =>
            keeps_plainly(alloc, rule, dossier),
        Rule::RatioPerTask => Ok(ratios.len() == graphs.count() as usize),
        Rule::LowestTerms => Ok(are_lowest(ratios)),
        Rule::PotentialPerVertex => Ok(all_keep(ClaimRule::Counted, graphs, ratios)),
        Rule::FittingPotentials => Ok(all_keep(ClaimRule::Fits, graphs, ratios)),
        Rule::ClosedCycles => Ok(all_keep(ClaimRule::Closed, graphs, ratios)),
        Rule::TightCycles => Ok(all_keep(ClaimRule::Tight, graphs, ratios)),
        Rule::FineScale => Ok(is_fine(ratios)),
        Rule::ClaimedUtilisation => Ok(has_claimed_utilisation(graphs, dossier)),
        Rule::NearHorizon => Ok(is_horizon_near(graphs, ratios, horizon)),
        Rule::OrderedFronts => Ok(are_in_order(
            graphs,
            fronts,
            near_horizon(graphs, ratios, horizon),
        )),
        Rule::CoveredOpenings => Ok(have_openings(
            graphs,
            fronts,
            near_horizon(graphs, ratios, horizon),
        )),
        Rule::CoveredExtensions => Ok(are_closed(
            graphs,
            fronts,
            near_horizon(graphs, ratios, horizon),
        )),
        Rule::Room => have_room(alloc, graphs, fronts, near_horizon(graphs, ratios, horizon)),
        Rule::TreePerHigherTask => Ok(is_tree_per_higher_task(&dossier.set, trees)),
        Rule::ShortWalks => Ok(have_short_walks(&dossier.set, graphs, order, trees)),
        Rule::CoveredWalks => cover_walks(alloc, &dossier.set, graphs, order, trees),
        Rule::TreeShapes => are_trees(alloc, trees),
        Rule::ProofPerVertex => Ok(is_proof_per_vertex(&dossier.set, proofs)),
        Rule::ProofShapes => have_shapes(alloc, &dossier.set, trees, proofs),
        Rule::PassingTimes => {
            have_passing_times(alloc, &dossier.set, graphs, order, trees, proofs)
        }
        Rule::RisingTails
        | Rule::BoundingTails
        | Rule::SearchPerVertex
        | Rule::SearchStates
        | Rule::PassingStates
        | Rule::DominatedChildren => keeps_of_states(alloc, rule, graphs, dossier, order),
    }
}

// The same of a rule on tails and states.
fn keeps_of_states(
    alloc: Global,
    rule: Rule,
    graphs: &Graphs,
    dossier: &Dossier,
    order: &[u32],
) -> Result<bool, Memory>
    requires graphs { graphs.now ≡ graphs_of dossier.now.set.tasks }
    requires constrained { AreConstrained dossier.now.set.tasks }
    requires next { IsNextRule dossier.now rule }
    requires order { IsPriorityOrder dossier.now.set.tasks order.now }
    requires distinct { AllPairs (λ s t. s.priority ≢ t.priority) dossier.now.set.tasks }
    requires states { IsOnStates rule }
    ensures { IfOk result (λ kept. IsTrue kept ↔ Keeps rule dossier.now) }
{
    let set = &dossier.set;
    let tails = tails_of(dossier);
    let searches = searches_of(dossier);
    match rule {
        Rule::RisingTails => Ok(has_rising_tails(set, graphs, order, tails)),
        Rule::BoundingTails => Ok(bound_walks(set, graphs, order, tails)),
        Rule::SearchPerVertex => Ok(is_search_per_vertex(set, searches)),
        Rule::SearchStates => Ok(have_states(set, graphs, order, searches)),
        Rule::PassingStates => have_passing_states(alloc, set, tails, searches),
        Rule::DominatedChildren => Ok(have_dominated_splits(set, graphs, order, searches)),
        _ => Ok(true),
    }
}

/// The same of a rule that asks for no graphs.
pub fn keeps_plainly(alloc: Global, rule: Rule, dossier: &Dossier) -> Result<bool, Memory>
    requires constrained { AreConstrained dossier.now.set.tasks }
    requires next { IsNextRule dossier.now rule }
    requires plain { AsksForNoGraphs rule }
    ensures { IfOk result (λ kept. IsTrue kept ↔ Keeps rule dossier.now) }
{
    let releases = releases_of(dossier);
    match rule {
        Rule::KindOfPolicy => Ok(is_of_policy(dossier)),
        Rule::LegalReleases => Ok(legal(&dossier.set, releases)),
        Rule::LeastMiss => is_least_miss(
            alloc,
            &dossier.set,
            dossier.policy,
            releases,
            miss_of(dossier),
        ),
        _ => Ok(true),
    }
}

// Whether the utilisation of the ratios is below one for a yes, and one for a claim of that.
fn has_claimed_utilisation(graphs: &Graphs, dossier: &Dossier) -> bool
    requires graphs { graphs.now ≡ graphs_of dossier.now.set.tasks }
    requires next { IsNextRule dossier.now ClaimedUtilisation }
    ensures { IsTrue result ↔ HasClaimedUtilisation dossier.now.evidence }
{
    graphs.count();
    let ratios = ratios_of(dossier);
    match &dossier.evidence {
        Evidence::EdfYes { .. } => is_below_one(ratios),
        Evidence::UtilisationOne { .. } => is_one(ratios),
        _ => true,
    }
}
