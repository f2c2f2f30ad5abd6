//! The text of a dossier.
ghost use Rattle.std.specs.Prelude.{◌≡◌, ◌++◌, codes, IfOk, OnOk};
ghost use Rattle.drt_file.specs.trusted.Canonical.{written, written_line};
ghost use Rattle.drt_evidence.specs.Text.{body_lines, evidence_lines, head_lines, kind_word, text, word_line};
ghost use Rattle.drt_file.specs.trusted.Words.{policy_word};

mod fronts;
mod proofs;
mod ratios;
mod releases;
mod searches;
mod tails;
mod trees;

use drt_claims::{Dossier, Evidence};
use drt_file::{push_line, push_set};
use drt_model::{Memory, Policy, Row};
use fronts::push_fronts;
use proofs::push_proofs;
use ratios::push_ratios;
pub use releases::push_release_lines;
use releases::push_releases;
use searches::push_searches;
use std::alloc::Global;
use tails::push_tails;
use trees::push_trees;

/// The one text of a dossier, in bytes: fields parted by one space, lines ended by LF, numbers without leading zeros.
pub fn print(alloc: Global, dossier: &Dossier) -> Result<Row<u8>, Memory>
    ensures { IfOk result (λ bytes. bytes ≡ text dossier.now) }
{
    let mut bytes = Vec::new(alloc);
    push_head(&mut bytes, dossier.policy)?;
    push_set(&mut bytes, &dossier.set)?;
    push_evidence(&mut bytes, &dossier.evidence)?;
    Ok(Row::from_vec(bytes))
}

// Adds the lines above the set.
fn push_head(bytes: &mut Vec<u8>, policy: Policy) -> Result<(), Memory>
    ensures { OnOk result (bytes.new.items ≡ bytes.old.items ++ written (head_lines policy)) }
{
    push_line(bytes, &[b"drt-dossier".as_slice(), b"1"])?;
    push_line(bytes, &[b"policy".as_slice(), word_of(policy)])?;
    Ok(())
}

// The keyword of a policy.
fn word_of(policy: Policy) -> &'static [u8]
    ensures { result.now ≡ policy_word policy }
{
    match policy {
        Policy::Edf => b"edf",
        Policy::Fixed => b"fixed",
    }
}

// Adds the lines below the set.
pub(crate) fn push_evidence(bytes: &mut Vec<u8>, evidence: &Evidence) -> Result<(), Memory>
    ensures { OnOk result (bytes.new.items ≡ bytes.old.items ++ written (evidence_lines evidence.now)) }
{
    push_line(bytes, &[b"evidence".as_slice(), kind_of(evidence)])?;
    push_body(bytes, evidence)?;
    push_line(bytes, &[b"close".as_slice()])
}

// The keyword of the kind of evidence.
fn kind_of(evidence: &Evidence) -> &'static [u8]
    ensures { result.now ≡ kind_word evidence.now }
{
    match evidence {
        Evidence::EdfYes { .. } => b"edf-yes",
        Evidence::EdfNo { .. } => b"edf-no",
        Evidence::UtilisationOne { .. } => b"utilisation-one",
        Evidence::FixedYes { .. } => b"fixed-yes",
        Evidence::FixedStates { .. } => b"fixed-states",
        Evidence::FixedNo { .. } => b"fixed-no",
        Evidence::Undecided => b"undecided",
    }
}

// Adds the blocks of evidence.
fn push_body(bytes: &mut Vec<u8>, evidence: &Evidence) -> Result<(), Memory>
    ensures { OnOk result (bytes.new.items ≡ bytes.old.items ++ written (body_lines evidence.now)) }
{
    match evidence {
        Evidence::EdfYes { ratios, fronts } => {
            push_ratios(bytes, ratios.as_slice())?;
            push_fronts(bytes, fronts.as_slice())
        }
        Evidence::EdfNo { releases, miss } | Evidence::FixedNo { releases, miss } => {
            push_releases(bytes, releases.as_slice(), *miss)
        }
        Evidence::UtilisationOne { ratios } => push_ratios(bytes, ratios.as_slice()),
        Evidence::FixedYes { trees, proofs } => {
            push_trees(bytes, trees.as_slice())?;
            push_proofs(bytes, proofs.as_slice())
        }
        Evidence::FixedStates { tails, searches } => {
            push_tails(bytes, tails.as_slice())?;
            push_searches(bytes, searches.as_slice())
        }
        Evidence::Undecided => Ok(()),
    }
}
