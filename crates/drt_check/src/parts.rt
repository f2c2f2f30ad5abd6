//! What a dossier has, by the kind of its evidence.
ghost use Rattle.std.specs.Prelude.{◌≡◌, ◌↔◌, All, IsTrue};
ghost use Rattle.drt_claims.specs.Kinds.{HasReleases, IsOfPolicy, fronts_of, stated_miss, proofs_of, ratios_of, stated_releases, searches_of, tails_of, trees_of};
ghost use Rattle.drt_claims.specs.Ranges.{AreInRangeReleases, IsInRangeEntry, IsInRangeProof, IsInRangeRatio, IsInRangeTree};
ghost use Rattle.drt_claims.specs.declared.evidence.Evidence.TheVariants.{Undecided};
ghost use Rattle.drt_check.specs.Judging.{claimed};

use crate::judgement::Judgement;
use drt_claims::{Dossier, Evidence, FrontEntry, ProofClaim, RatioClaim, TreeClaim};
use drt_model::{Miss, Policy, Release, Row};
use drt_states::{SearchClaim, TailClaim};

/// Whether nothing is claimed.
pub fn is_undecided(dossier: &Dossier) -> bool
    ensures { IsTrue result ↔ (dossier.now.evidence ≡ Undecided) }
{
    matches!(&dossier.evidence, Evidence::Undecided)
}

/// Whether the kind of the evidence is one of the policy's.
pub fn is_of_policy(dossier: &Dossier) -> bool
    ensures { IsTrue result ↔ IsOfPolicy dossier.now.policy dossier.now.evidence }
{
    match &dossier.evidence {
        Evidence::EdfYes { .. } | Evidence::EdfNo { .. } | Evidence::UtilisationOne { .. } => {
            dossier.policy == Policy::Edf
        }
        Evidence::FixedYes { .. } | Evidence::FixedStates { .. } | Evidence::FixedNo { .. } => {
            dossier.policy == Policy::Fixed
        }
        Evidence::Undecided => true,
    }
}

/// Whether the evidence has releases that are to miss.
pub fn has_releases(dossier: &Dossier) -> bool
    ensures { IsTrue result ↔ HasReleases dossier.now.evidence }
{
    matches!(
        &dossier.evidence,
        Evidence::EdfNo { .. } | Evidence::FixedNo { .. }
    )
}

/// The judgement of accepted evidence.
pub fn claimed(dossier: &Dossier) -> Judgement
    ensures { result ≡ claimed dossier.now.evidence }
{
    match &dossier.evidence {
        Evidence::EdfYes { .. } | Evidence::FixedYes { .. } | Evidence::FixedStates { .. } => {
            Judgement::Schedulable
        }
        Evidence::EdfNo { .. } | Evidence::FixedNo { .. } => Judgement::Unschedulable,
        Evidence::UtilisationOne { .. } => Judgement::UtilisationOne,
        Evidence::Undecided => Judgement::NothingToCheck,
    }
}

/// The claimed ratios, and none where the evidence has none.
pub fn ratios_of(dossier: &Dossier) -> &[RatioClaim]
    ensures value { result.now ≡ ratios_of dossier.now.evidence }
    ensures in_range { All IsInRangeRatio result.now }
{
    match &dossier.evidence {
        Evidence::EdfYes { ratios, .. } => ratios.as_slice(),
        Evidence::UtilisationOne { ratios } => ratios.as_slice(),
        _ => &[],
    }
}

/// The claimed fronts, and none where the evidence has none.
pub fn fronts_of(dossier: &Dossier) -> &[Row<FrontEntry>]
    ensures value { result.now ≡ fronts_of dossier.now.evidence }
    ensures in_range { All (All IsInRangeEntry) result.now }
{
    match &dossier.evidence {
        Evidence::EdfYes { fronts, .. } => fronts.as_slice(),
        _ => &[],
    }
}

/// The releases that are to miss, and none where the evidence has none.
pub fn releases_of(dossier: &Dossier) -> &[Release]
    ensures value { result.now ≡ stated_releases dossier.now.evidence }
    ensures in_range { AreInRangeReleases result.now (stated_miss dossier.now.evidence) }
{
    match &dossier.evidence {
        Evidence::EdfNo { releases, .. } => releases.as_slice(),
        Evidence::FixedNo { releases, .. } => releases.as_slice(),
        _ => &[],
    }
}

/// The miss that is named, and that of no job where the evidence names none.
pub fn miss_of(dossier: &Dossier) -> Miss
    ensures { result ≡ stated_miss dossier.now.evidence }
{
    match &dossier.evidence {
        Evidence::EdfNo { miss, .. } => *miss,
        Evidence::FixedNo { miss, .. } => *miss,
        _ => Miss {
            task: 0,
            index: 0,
            deadline: 0,
        },
    }
}

/// The claimed trees, and none where the evidence has none.
pub fn trees_of(dossier: &Dossier) -> &[TreeClaim]
    ensures value { result.now ≡ trees_of dossier.now.evidence }
    ensures in_range { All IsInRangeTree result.now }
{
    match &dossier.evidence {
        Evidence::FixedYes { trees, .. } => trees.as_slice(),
        _ => &[],
    }
}

/// The claimed proofs, and none where the evidence has none.
pub fn proofs_of(dossier: &Dossier) -> &[ProofClaim]
    ensures value { result.now ≡ proofs_of dossier.now.evidence }
    ensures in_range { All IsInRangeProof result.now }
{
    match &dossier.evidence {
        Evidence::FixedYes { proofs, .. } => proofs.as_slice(),
        _ => &[],
    }
}

/// The claimed tails, and none where the evidence has none.
pub fn tails_of(dossier: &Dossier) -> &[TailClaim]
    ensures { result.now ≡ tails_of dossier.now.evidence }
{
    match &dossier.evidence {
        Evidence::FixedStates { tails, .. } => tails.as_slice(),
        _ => &[],
    }
}

/// The claimed searches, and none where the evidence has none.
pub fn searches_of(dossier: &Dossier) -> &[SearchClaim]
    ensures { result.now ≡ searches_of dossier.now.evidence }
{
    match &dossier.evidence {
        Evidence::FixedStates { searches, .. } => searches.as_slice(),
        _ => &[],
    }
}
