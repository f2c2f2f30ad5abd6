//! The lines below the set: the kind of the evidence, its blocks, and the last line.
ghost use Rattle.std.specs.Prelude.{ℕ, List, IfOk, IfErr};
ghost use Rattle.drt_file.specs.trusted.Canonical.{written};
ghost use Rattle.drt_evidence.specs.Blocks.{AreNamed, IsOfKind, IsStop, ReadsBlock, named_block};
ghost use Rattle.drt_evidence.specs.declared.reading.line_forms.KindOfEvidence.TheVariants.{EdfYes, FixedStates, FixedYes};
ghost use Rattle.drt_evidence.specs.LineForms.{AreItemsCounted};
ghost use Rattle.drt_claims.specs.Ranges.{IsEvidenceInRange, IsInRangeFront, IsInRangeProof, IsInRangeRatio, IsInRangeSearch, IsInRangeTail, IsInRangeTree};
ghost use Rattle.drt_evidence.specs.Text.{body_lines, evidence_lines, front_block, proof_block, ratio_block, search_block, tail_block, tree_block};

use crate::reading::block::read_counted;
use crate::reading::forms::{read_kind, read_last, read_miss};
use crate::reading::line_forms::KindOfEvidence;
use crate::reading::text::{Stop, Text};
use drt_claims::{Evidence, ProofClaim, RatioClaim, TreeClaim};
use drt_graph::FrontEntry;
use drt_model::{Miss, Release, Row};
use drt_states::{SearchClaim, TailClaim};
use std::alloc::Global;

// How many ratios, and the lines of each.
fn read_ratios(alloc: Global, text: &mut Text) -> Result<Row<RatioClaim>, Stop>
    ensures read { IfOk result (λ x. ReadsBlock (λ rs. written (ratio_block rs)) (AreItemsCounted IsInRangeRatio) text.old.rest.now x text.new.rest.now) }
    ensures stops { IfErr result (IsStop (λ rs. written (ratio_block rs)) (AreItemsCounted IsInRangeRatio) text.old.rest.now) }
{
    read_counted(alloc, text, b"ratios")
}

// How many fronts, and the lines of each.
fn read_fronts(alloc: Global, text: &mut Text) -> Result<Row<Row<FrontEntry>>, Stop>
    ensures read { IfOk result (λ x. ReadsBlock (λ fs. written (front_block fs)) (AreItemsCounted IsInRangeFront) text.old.rest.now x text.new.rest.now) }
    ensures stops { IfErr result (IsStop (λ fs. written (front_block fs)) (AreItemsCounted IsInRangeFront) text.old.rest.now) }
{
    read_counted(alloc, text, b"fronts")
}

// How many trees, and the lines of each.
fn read_trees(alloc: Global, text: &mut Text) -> Result<Row<TreeClaim>, Stop>
    ensures read { IfOk result (λ x. ReadsBlock (λ ts. written (tree_block ts)) (AreItemsCounted IsInRangeTree) text.old.rest.now x text.new.rest.now) }
    ensures stops { IfErr result (IsStop (λ ts. written (tree_block ts)) (AreItemsCounted IsInRangeTree) text.old.rest.now) }
{
    read_counted(alloc, text, b"trees")
}

// How many proofs, and the line of each.
fn read_proofs(alloc: Global, text: &mut Text) -> Result<Row<ProofClaim>, Stop>
    ensures read { IfOk result (λ x. ReadsBlock (λ ps. written (proof_block ps)) (AreItemsCounted IsInRangeProof) text.old.rest.now x text.new.rest.now) }
    ensures stops { IfErr result (IsStop (λ ps. written (proof_block ps)) (AreItemsCounted IsInRangeProof) text.old.rest.now) }
{
    read_counted(alloc, text, b"proofs")
}

// How many tails, and the lines of each.
fn read_tails(alloc: Global, text: &mut Text) -> Result<Row<TailClaim>, Stop>
    ensures read { IfOk result (λ x. ReadsBlock (λ ts. written (tail_block ts)) (AreItemsCounted IsInRangeTail) text.old.rest.now x text.new.rest.now) }
    ensures stops { IfErr result (IsStop (λ ts. written (tail_block ts)) (AreItemsCounted IsInRangeTail) text.old.rest.now) }
{
    read_counted(alloc, text, b"tails")
}

// How many searches, and the lines of each.
fn read_searches(alloc: Global, text: &mut Text) -> Result<Row<SearchClaim>, Stop>
    ensures read { IfOk result (λ x. ReadsBlock (λ ss. written (search_block ss)) (AreItemsCounted IsInRangeSearch) text.old.rest.now x text.new.rest.now) }
    ensures stops { IfErr result (IsStop (λ ss. written (search_block ss)) (AreItemsCounted IsInRangeSearch) text.old.rest.now) }
{
    read_counted(alloc, text, b"searches")
}

// How many releases, the line of each, and that of the miss.
fn read_releases(alloc: Global, text: &mut Text) -> Result<(Row<Release>, Miss), Stop>
    ensures read { IfOk result (λ x. ReadsBlock named_block AreNamed text.old.rest.now x text.new.rest.now) }
    ensures stops { IfErr result (IsStop named_block AreNamed text.old.rest.now) }
{
    let releases = read_counted(alloc, text, b"releases")?;
    let miss = read_miss(text)?;
    Ok((releases, miss))
}

// The evidence of a yes under EDF.
fn read_edf_yes(alloc: Global, text: &mut Text) -> Result<Evidence, Stop>
    ensures read { IfOk result (λ x. ReadsBlock (λ e. written (body_lines e)) (IsOfKind EdfYes) text.old.rest.now x text.new.rest.now) }
    ensures stops { IfErr result (IsStop (λ e. written (body_lines e)) (IsOfKind EdfYes) text.old.rest.now) }
{
    let ratios = read_ratios(alloc, text)?;
    let fronts = read_fronts(alloc, text)?;
    Ok(Evidence::EdfYes { ratios, fronts })
}

// The evidence of a yes under fixed priorities.
fn read_fixed_yes(alloc: Global, text: &mut Text) -> Result<Evidence, Stop>
    ensures read { IfOk result (λ x. ReadsBlock (λ e. written (body_lines e)) (IsOfKind FixedYes) text.old.rest.now x text.new.rest.now) }
    ensures stops { IfErr result (IsStop (λ e. written (body_lines e)) (IsOfKind FixedYes) text.old.rest.now) }
{
    let trees = read_trees(alloc, text)?;
    let proofs = read_proofs(alloc, text)?;
    Ok(Evidence::FixedYes { trees, proofs })
}

// The evidence of a yes under fixed priorities by tails and states.
fn read_fixed_states(alloc: Global, text: &mut Text) -> Result<Evidence, Stop>
    ensures read { IfOk result (λ x. ReadsBlock (λ e. written (body_lines e)) (IsOfKind FixedStates) text.old.rest.now x text.new.rest.now) }
    ensures stops { IfErr result (IsStop (λ e. written (body_lines e)) (IsOfKind FixedStates) text.old.rest.now) }
{
    let tails = read_tails(alloc, text)?;
    let searches = read_searches(alloc, text)?;
    Ok(Evidence::FixedStates { tails, searches })
}

// The blocks of a kind of evidence.
fn read_body(alloc: Global, text: &mut Text, kind: KindOfEvidence) -> Result<Evidence, Stop>
    ensures read { IfOk result (λ x. ReadsBlock (λ e. written (body_lines e)) (IsOfKind kind) text.old.rest.now x text.new.rest.now) }
    ensures stops { IfErr result (IsStop (λ e. written (body_lines e)) (IsOfKind kind) text.old.rest.now) }
{
    match kind {
        KindOfEvidence::EdfYes => read_edf_yes(alloc, text),
        KindOfEvidence::EdfNo => {
            let (releases, miss) = read_releases(alloc, text)?;
            Ok(Evidence::EdfNo { releases, miss })
        }
        KindOfEvidence::UtilisationOne => {
            let ratios = read_ratios(alloc, text)?;
            Ok(Evidence::UtilisationOne { ratios })
        }
        KindOfEvidence::FixedYes => read_fixed_yes(alloc, text),
        KindOfEvidence::FixedStates => read_fixed_states(alloc, text),
        KindOfEvidence::FixedNo => {
            let (releases, miss) = read_releases(alloc, text)?;
            Ok(Evidence::FixedNo { releases, miss })
        }
        KindOfEvidence::Undecided => Ok(Evidence::Undecided),
    }
}

// The lines below the set.
pub(crate) fn read_evidence(alloc: Global, text: &mut Text) -> Result<Evidence, Stop>
    ensures read { IfOk result (λ x. ReadsBlock (λ e. written (evidence_lines e)) IsEvidenceInRange text.old.rest.now x text.new.rest.now) }
    ensures stops { IfErr result (IsStop (λ e. written (evidence_lines e)) IsEvidenceInRange text.old.rest.now) }
{
    let kind = read_kind(text)?;
    let evidence = read_body(alloc, text, kind)?;
    read_last(text)?;
    Ok(evidence)
}
