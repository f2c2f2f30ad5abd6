//! Blocks of one line.
//!
//! Each function takes the first line of a text, where it says a value, and answers with the value.
ghost use Rattle.std.specs.Prelude.{◌≡◌, ℕ, List, Some, None, false, length, IfOk, IfErr};
ghost use Rattle.drt_file.specs.trusted.Canonical.{written_line};
ghost use Rattle.drt_file.specs.trusted.Cutting.{HasNoFeed};
ghost use Rattle.drt_evidence.specs.Blocks.{IsStop, ReadsBlock, close_block, first_block};
ghost use Rattle.drt_evidence.specs.declared.reading.text.Stop.TheVariants.{Fault};
ghost use Rattle.drt_evidence.specs.LineForms.{AreItemsCounted, IsAny, IsInRangeWritten, IsInRangeWrittenSearch, kind_line};
ghost use Rattle.drt_evidence.specs.LineForms.{numbers_line, policy_line, potentials_line, written_ratio_line, written_search_line};
ghost use Rattle.drt_claims.specs.Ranges.{IsInRangeCurve, IsInRangeEntry, IsInRangeMiss, IsInRangePair, IsInRangePotential, IsInRangeProof, IsInRangeRelease, IsInRangeState, IsNumber};
ghost use Rattle.drt_evidence.specs.Text.{count_line, curve_line, entry_line, miss_line, pair_line, proof_line, release_line, state_line};

use crate::reading::line_forms::{
    KindOfEvidence, WrittenRatio, WrittenSearch, count_of, entry_of, is_first_line, is_last_line,
    kind_of, miss_of, pair_of, policy_of, ratio_of, release_of, search_of,
};
use crate::reading::list_lines::{numbers_of, potentials_of, proof_of};
use crate::reading::state_lines::{jumps_of, state_of};
use crate::reading::text::{Stop, Text, first_line, refused};
use drt_claims::{Pair, ProofClaim};
use drt_graph::FrontEntry;
use drt_model::{Miss, Policy, Release, Row};
use drt_states::{Jump, StateClaim};
use std::alloc::Global;

// What was found in the first line of a text, which goes on with the others; or the refusal of that line, where nothing was found.
fn taken<'a, T>(text: &mut Text<'a>, others: &'a [u8], found: Option<T>) -> Result<T, Stop>
    ensures read { IfOk result (λ x. (found ≡ Some x) × (text.new.rest.now ≡ others.now)) }
    ensures stops { IfErr result (λ e. (found ≡ None) × (e ≡ Fault (length text.old.rest.now) false)) }
{
    match found {
        Some(found) => {
            text.rest = others;
            Ok(found)
        }
        None => Err(refused(text.rest)),
    }
}

// The first line of a dossier.
pub(crate) fn read_first(text: &mut Text) -> Result<(), Stop>
    ensures read { IfOk result (λ u. ReadsBlock first_block IsAny text.old.rest.now u text.new.rest.now) }
    ensures stops { IfErr result (IsStop first_block IsAny text.old.rest.now) }
{
    let (line, others) = first_line(text.rest)?;
    taken(text, others, is_first_line(line).then_some(()))
}

// The last line of a dossier.
pub(crate) fn read_last(text: &mut Text) -> Result<(), Stop>
    ensures read { IfOk result (λ u. ReadsBlock close_block IsAny text.old.rest.now u text.new.rest.now) }
    ensures stops { IfErr result (IsStop close_block IsAny text.old.rest.now) }
{
    let (line, others) = first_line(text.rest)?;
    taken(text, others, is_last_line(line).then_some(()))
}

// The line of a policy.
pub(crate) fn read_policy(text: &mut Text) -> Result<Policy, Stop>
    ensures read { IfOk result (λ x. ReadsBlock (λ y. written_line (policy_line y)) IsAny text.old.rest.now x text.new.rest.now) }
    ensures stops { IfErr result (IsStop (λ y. written_line (policy_line y)) IsAny text.old.rest.now) }
{
    let (line, others) = first_line(text.rest)?;
    taken(text, others, policy_of(line))
}

// The line of a kind of evidence.
pub(crate) fn read_kind(text: &mut Text) -> Result<KindOfEvidence, Stop>
    ensures read { IfOk result (λ x. ReadsBlock (λ y. written_line (kind_line y)) IsAny text.old.rest.now x text.new.rest.now) }
    ensures stops { IfErr result (IsStop (λ y. written_line (kind_line y)) IsAny text.old.rest.now) }
{
    let (line, others) = first_line(text.rest)?;
    taken(text, others, kind_of(line))
}

// The line of a count.
pub(crate) fn read_count(text: &mut Text, word: &[u8]) -> Result<u32, Stop>
    requires { HasNoFeed word.now }
    ensures read { IfOk result (λ x. ReadsBlock (λ y. written_line (count_line word.now y)) IsNumber text.old.rest.now x text.new.rest.now) }
    ensures stops { IfErr result (IsStop (λ y. written_line (count_line word.now y)) IsNumber text.old.rest.now) }
{
    let (line, others) = first_line(text.rest)?;
    taken(text, others, count_of(line, word))
}

// The line of a numerator and a denominator.
pub(crate) fn read_ratio_line(text: &mut Text) -> Result<WrittenRatio, Stop>
    ensures read { IfOk result (λ x. ReadsBlock (λ y. written_line (written_ratio_line y)) IsInRangeWritten text.old.rest.now x text.new.rest.now) }
    ensures stops { IfErr result (IsStop (λ y. written_line (written_ratio_line y)) IsInRangeWritten text.old.rest.now) }
{
    let (line, others) = first_line(text.rest)?;
    taken(text, others, ratio_of(line))
}

// The line of a label of a front.
pub(crate) fn read_entry(text: &mut Text) -> Result<FrontEntry, Stop>
    ensures read { IfOk result (λ x. ReadsBlock (λ y. written_line (entry_line y)) IsInRangeEntry text.old.rest.now x text.new.rest.now) }
    ensures stops { IfErr result (IsStop (λ y. written_line (entry_line y)) IsInRangeEntry text.old.rest.now) }
{
    let (line, others) = first_line(text.rest)?;
    taken(text, others, entry_of(line))
}

// The line of a release.
pub(crate) fn read_release(text: &mut Text) -> Result<Release, Stop>
    ensures read { IfOk result (λ x. ReadsBlock (λ y. written_line (release_line y)) IsInRangeRelease text.old.rest.now x text.new.rest.now) }
    ensures stops { IfErr result (IsStop (λ y. written_line (release_line y)) IsInRangeRelease text.old.rest.now) }
{
    let (line, others) = first_line(text.rest)?;
    taken(text, others, release_of(line))
}

// The line of a miss.
pub(crate) fn read_miss(text: &mut Text) -> Result<Miss, Stop>
    ensures read { IfOk result (λ x. ReadsBlock (λ y. written_line (miss_line y)) IsInRangeMiss text.old.rest.now x text.new.rest.now) }
    ensures stops { IfErr result (IsStop (λ y. written_line (miss_line y)) IsInRangeMiss text.old.rest.now) }
{
    let (line, others) = first_line(text.rest)?;
    taken(text, others, miss_of(line))
}

// The line of a pair of a tree.
pub(crate) fn read_pair(text: &mut Text) -> Result<Pair, Stop>
    ensures read { IfOk result (λ x. ReadsBlock (λ y. written_line (pair_line y)) IsInRangePair text.old.rest.now x text.new.rest.now) }
    ensures stops { IfErr result (IsStop (λ y. written_line (pair_line y)) IsInRangePair text.old.rest.now) }
{
    let (line, others) = first_line(text.rest)?;
    taken(text, others, pair_of(line))
}

// The line of a list of numbers.
pub(crate) fn read_numbers(alloc: Global, text: &mut Text, word: &[u8]) -> Result<Row<u32>, Stop>
    requires { HasNoFeed word.now }
    ensures read { IfOk result (λ x. ReadsBlock (λ y. written_line (numbers_line word.now y)) (AreItemsCounted IsNumber) text.old.rest.now x text.new.rest.now) }
    ensures stops { IfErr result (IsStop (λ y. written_line (numbers_line word.now y)) (AreItemsCounted IsNumber) text.old.rest.now) }
{
    let (line, others) = first_line(text.rest)?;
    let found = numbers_of(alloc, line, word)?;
    taken(text, others, found)
}

// The line of potentials.
pub(crate) fn read_potentials(alloc: Global, text: &mut Text) -> Result<Row<i64>, Stop>
    ensures read { IfOk result (λ x. ReadsBlock (λ y. written_line (potentials_line y)) (AreItemsCounted IsInRangePotential) text.old.rest.now x text.new.rest.now) }
    ensures stops { IfErr result (IsStop (λ y. written_line (potentials_line y)) (AreItemsCounted IsInRangePotential) text.old.rest.now) }
{
    let (line, others) = first_line(text.rest)?;
    let found = potentials_of(alloc, line)?;
    taken(text, others, found)
}

// The line of a proof.
pub(crate) fn read_proof(alloc: Global, text: &mut Text) -> Result<ProofClaim, Stop>
    ensures read { IfOk result (λ x. ReadsBlock (λ y. written_line (proof_line y)) IsInRangeProof text.old.rest.now x text.new.rest.now) }
    ensures stops { IfErr result (IsStop (λ y. written_line (proof_line y)) IsInRangeProof text.old.rest.now) }
{
    let (line, others) = first_line(text.rest)?;
    let found = proof_of(alloc, line)?;
    taken(text, others, found)
}

// The line of a vertex of a tail.
pub(crate) fn read_jumps(alloc: Global, text: &mut Text) -> Result<Row<Jump>, Stop>
    ensures read { IfOk result (λ x. ReadsBlock (λ y. written_line (curve_line y)) IsInRangeCurve text.old.rest.now x text.new.rest.now) }
    ensures stops { IfErr result (IsStop (λ y. written_line (curve_line y)) IsInRangeCurve text.old.rest.now) }
{
    let (line, others) = first_line(text.rest)?;
    let found = jumps_of(alloc, line)?;
    taken(text, others, found)
}

// The line of a state.
pub(crate) fn read_state(alloc: Global, text: &mut Text) -> Result<StateClaim, Stop>
    ensures read { IfOk result (λ x. ReadsBlock (λ y. written_line (state_line y)) IsInRangeState text.old.rest.now x text.new.rest.now) }
    ensures stops { IfErr result (IsStop (λ y. written_line (state_line y)) IsInRangeState text.old.rest.now) }
{
    let (line, others) = first_line(text.rest)?;
    let found = state_of(alloc, line)?;
    taken(text, others, found)
}

// The first line of a search.
pub(crate) fn read_search_line(text: &mut Text) -> Result<WrittenSearch, Stop>
    ensures read { IfOk result (λ x. ReadsBlock (λ y. written_line (written_search_line y)) IsInRangeWrittenSearch text.old.rest.now x text.new.rest.now) }
    ensures stops { IfErr result (IsStop (λ y. written_line (written_search_line y)) IsInRangeWrittenSearch text.old.rest.now) }
{
    let (line, others) = first_line(text.rest)?;
    taken(text, others, search_of(line))
}
