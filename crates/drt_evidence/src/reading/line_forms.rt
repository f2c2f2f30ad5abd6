//! Lines with a fixed number of fields.
//!
//! Each function is given a line without its LF, and answers with the value that the line says, or with `None` where it says none.
ghost use Rattle.std.specs.Prelude.{◌≡◌, ◌<◌, ◌≤◌, ◌↔◌, ◌∷◌, [], IsTrue, codes, decimal, MatchOption};
ghost use Rattle.std.specs.List.{join_with_byte};
ghost use Rattle.drt_evidence.specs.LineForms.{AreBoth, IsAny, IsForm, IsInRangeWritten, IsInRangeWrittenSearch, IsLineOf, IsNoForm};
ghost use Rattle.drt_evidence.specs.LineForms.{IsNoLine, kind_line, pair_form, policy_line, written_ratio_line, written_search_line};
ghost use Rattle.drt_claims.specs.Ranges.{IsInRangeEntry, IsInRangeMiss, IsInRangePair, IsInRangeRelease, IsNumber, IsTick};
ghost use Rattle.drt_evidence.specs.Text.{count_line, entry_line, miss_line, pair_line, release_line, word_line};

use crate::reading::fields::{behind_word, cut_field, index_of, number_of};
use drt_claims::{MOST_NUMBER, MOST_PART, MOST_TICKS, MOST_WORK, Pair};
use drt_graph::FrontEntry;
use drt_model::{Miss, Policy, Release};

/// A kind of evidence, as the line above its blocks names it.
#[derive(Debug, Clone, Copy, PartialEq, Eq)]
pub enum KindOfEvidence {
    EdfYes,
    EdfNo,
    UtilisationOne,
    FixedYes,
    FixedStates,
    FixedNo,
    Undecided,
}

/// The numerator and the denominator of a ratio.
#[derive(Debug, Clone, Copy, PartialEq, Eq)]
pub struct WrittenRatio {
    pub num: u64,
    pub den: u64,
}

/// The task and the vertex of a search, and how many states it has.
#[derive(Debug, Clone, Copy, PartialEq, Eq)]
pub struct WrittenSearch {
    pub task: u32,
    pub vertex: u32,
    pub count: u32,
}

// Whether the line is the first one of a dossier.
pub(crate) fn is_first_line(line: &[u8]) -> bool
    ensures { IsTrue result ↔ (line.now ≡ join_with_byte 32 (codes "drt-dossier" ∷ codes "1" ∷ [])) }
{
    line == b"drt-dossier 1".as_slice()
}

// Whether the line is the last one of a dossier.
pub(crate) fn is_last_line(line: &[u8]) -> bool
    ensures { IsTrue result ↔ (line.now ≡ join_with_byte 32 (word_line (codes "close"))) }
{
    line == b"close".as_slice()
}

// The policy that the line names.
pub(crate) fn policy_of(line: &[u8]) -> Option<Policy>
    ensures { MatchOption result (IsNoLine policy_line IsAny line.now) (IsLineOf policy_line IsAny line.now) }
{
    if line == b"policy edf".as_slice() {
        Some(Policy::Edf)
    } else if line == b"policy fixed".as_slice() {
        Some(Policy::Fixed)
    } else {
        None
    }
}

// The kind of evidence that the line names.
pub(crate) fn kind_of(line: &[u8]) -> Option<KindOfEvidence>
    ensures { MatchOption result (IsNoLine kind_line IsAny line.now) (IsLineOf kind_line IsAny line.now) }
{
    if line == b"evidence edf-yes".as_slice() {
        Some(KindOfEvidence::EdfYes)
    } else if line == b"evidence edf-no".as_slice() {
        Some(KindOfEvidence::EdfNo)
    } else if line == b"evidence utilisation-one".as_slice() {
        Some(KindOfEvidence::UtilisationOne)
    } else if line == b"evidence fixed-yes".as_slice() {
        Some(KindOfEvidence::FixedYes)
    } else if line == b"evidence fixed-states".as_slice() {
        Some(KindOfEvidence::FixedStates)
    } else if line == b"evidence fixed-no".as_slice() {
        Some(KindOfEvidence::FixedNo)
    } else if line == b"evidence undecided".as_slice() {
        Some(KindOfEvidence::Undecided)
    } else {
        None
    }
}

// The count that the line says behind this keyword.
pub(crate) fn count_of(line: &[u8], word: &[u8]) -> Option<u32>
    ensures { MatchOption result (IsNoLine (λ n. count_line word.now n) IsNumber line.now) (IsLineOf (λ n. count_line word.now n) IsNumber line.now) }
{
    index_of(behind_word(line, word)?)
}

// Two numbers, each at most so great, with a space between them.
fn two_of(bytes: &[u8], first: u64, second: u64) -> Option<(u64, u64)>
    requires { (first < 18446744073709551615) × (second < 18446744073709551615) }
    ensures { MatchOption result
        (IsNoForm (pair_form decimal decimal) (AreBoth (λ n. n ≤ first) (λ n. n ≤ second)) bytes.now)
        (IsForm (pair_form decimal decimal) (AreBoth (λ n. n ≤ first) (λ n. n ≤ second)) bytes.now) }
{
    let (field, rest) = cut_field(bytes);
    let rest = rest?;
    let number = number_of(field, first)?;
    Some((number, number_of(rest, second)?))
}

// Three numbers, each at most so great, with a space between them.
fn three_of(bytes: &[u8], first: u64, second: u64, third: u64) -> Option<(u64, (u64, u64))>
    requires { (first < 18446744073709551615) × (second < 18446744073709551615) × (third < 18446744073709551615) }
    ensures { MatchOption result
        (IsNoForm (pair_form decimal (pair_form decimal decimal)) (AreBoth (λ n. n ≤ first) (AreBoth (λ n. n ≤ second) (λ n. n ≤ third))) bytes.now)
        (IsForm (pair_form decimal (pair_form decimal decimal)) (AreBoth (λ n. n ≤ first) (AreBoth (λ n. n ≤ second) (λ n. n ≤ third))) bytes.now) }
{
    let (field, rest) = cut_field(bytes);
    let rest = rest?;
    let number = number_of(field, first)?;
    Some((number, two_of(rest, second, third)?))
}

// The numerator and the denominator that the line says.
pub(crate) fn ratio_of(line: &[u8]) -> Option<WrittenRatio>
    ensures { MatchOption result (IsNoLine written_ratio_line IsInRangeWritten line.now) (IsLineOf written_ratio_line IsInRangeWritten line.now) }
{
    let (num, den) = two_of(behind_word(line, b"ratio")?, MOST_PART, MOST_PART)?;
    if den == 0 {
        return None;
    }
    Some(WrittenRatio { num, den })
}

// The pair that the line says.
pub(crate) fn pair_of(line: &[u8]) -> Option<Pair>
    ensures { MatchOption result (IsNoLine pair_line IsInRangePair line.now) (IsLineOf pair_line IsInRangePair line.now) }
{
    let (left, right) = two_of(behind_word(line, b"pair")?, MOST_NUMBER, MOST_NUMBER)?;
    Some(Pair {
        left: left as u32,
        right: right as u32,
    })
}

// The label of a front that the line says.
pub(crate) fn entry_of(line: &[u8]) -> Option<FrontEntry>
    ensures { MatchOption result (IsNoLine entry_line IsInRangeEntry line.now) (IsLineOf entry_line IsInRangeEntry line.now) }
{
    let rest = behind_word(line, b"label")?;
    let (vertex, (offset, work)) = three_of(rest, MOST_NUMBER, MOST_TICKS, MOST_WORK)?;
    Some(FrontEntry {
        vertex: vertex as u32,
        offset,
        work,
    })
}

// The miss that the line says.
pub(crate) fn miss_of(line: &[u8]) -> Option<Miss>
    ensures { MatchOption result (IsNoLine miss_line IsInRangeMiss line.now) (IsLineOf miss_line IsInRangeMiss line.now) }
{
    let rest = behind_word(line, b"miss")?;
    let (task, (index, deadline)) = three_of(rest, MOST_NUMBER, MOST_NUMBER, MOST_TICKS)?;
    Some(Miss {
        task: task as u32,
        index: index as u32,
        deadline,
    })
}

// The task of a release, and its vertex, its time and its need.
fn parts_of_release(bytes: &[u8]) -> Option<(u64, (u64, (u64, u64)))>
    ensures { MatchOption result
        (IsNoForm (pair_form decimal (pair_form decimal (pair_form decimal decimal))) (AreBoth IsNumber (AreBoth IsNumber (AreBoth IsTick IsTick))) bytes.now)
        (IsForm (pair_form decimal (pair_form decimal (pair_form decimal decimal))) (AreBoth IsNumber (AreBoth IsNumber (AreBoth IsTick IsTick))) bytes.now) }
{
    let (field, rest) = cut_field(bytes);
    let rest = rest?;
    let task = number_of(field, MOST_NUMBER)?;
    Some((task, three_of(rest, MOST_NUMBER, MOST_TICKS, MOST_TICKS)?))
}

// The release that the line says.
pub(crate) fn release_of(line: &[u8]) -> Option<Release>
    ensures { MatchOption result (IsNoLine release_line IsInRangeRelease line.now) (IsLineOf release_line IsInRangeRelease line.now) }
{
    let (task, (vertex, (time, need))) = parts_of_release(behind_word(line, b"release")?)?;
    Some(Release {
        task: task as u32,
        vertex: vertex as u32,
        time,
        need,
    })
}

// The task, the vertex and the count that the first line of a search says.
pub(crate) fn search_of(line: &[u8]) -> Option<WrittenSearch>
    ensures { MatchOption result (IsNoLine written_search_line IsInRangeWrittenSearch line.now) (IsLineOf written_search_line IsInRangeWrittenSearch line.now) }
{
    let rest = behind_word(line, b"search")?;
    let (task, (vertex, count)) = three_of(rest, MOST_NUMBER, MOST_NUMBER, MOST_NUMBER)?;
    Some(WrittenSearch {
        task: task as u32,
        vertex: vertex as u32,
        count: count as u32,
    })
}
