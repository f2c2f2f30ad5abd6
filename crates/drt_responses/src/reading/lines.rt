//! Lines of a text of responses.
//!
//! Each function is given a line without its LF, and answers with the value that the line says, or with `None` where it says none.
ghost use Rattle.std.specs.Prelude.{◌≡◌, ◌≤◌, ◌↔◌, IsTrue, decimal, MatchOption};
ghost use Rattle.std.specs.List.{join_with_byte};
ghost use Rattle.drt_evidence.specs.LineForms.{AreBoth, IsForm, IsLineOf, IsNoForm, IsNoLine, pair_form};
ghost use Rattle.drt_claims.specs.Ranges.{IsInRangeRelease, IsNumber, IsTick};
ghost use Rattle.drt_evidence.specs.Text.{count_line, release_line};
ghost use Rattle.drt_responses.specs.Rows.{IsInRangeHeading, IsInRangeOpening, first_words, heading_line, opening_line};

use crate::reading::fields::{behind_word, cut_field, number_of};
use drt_claims::{MOST_NUMBER, MOST_TICKS};
use drt_model::Release;

/// The task, the vertex and the ticks of a response, as its first line says them.
#[derive(Debug, Clone, Copy, PartialEq, Eq)]
pub struct Opening {
    pub task: u32,
    pub vertex: u32,
    pub ticks: u64,
}

/// The line where a response or the end is due.
#[derive(Debug, Clone, Copy, PartialEq, Eq)]
pub enum Heading {
    Opens(Opening),
    Closes,
}

// Whether the line is the first one of a text of responses.
pub(crate) fn is_first_line(line: &[u8]) -> bool
    ensures { IsTrue result ↔ (line.now ≡ join_with_byte 32 first_words) }
{
    line == b"drt-response 1".as_slice()
}

// The count that the line says behind this keyword.
pub(crate) fn count_of(line: &[u8], word: &[u8]) -> Option<u32>
    ensures { MatchOption result (IsNoLine (λ n. count_line word.now n) IsNumber line.now) (IsLineOf (λ n. count_line word.now n) IsNumber line.now) }
{
    index_of(behind_word(line, word)?)
}

// The number of a task or a vertex, or the count, that the field is.
fn index_of(field: &[u8]) -> Option<u32>
    ensures { MatchOption result (IsNoForm decimal IsNumber field.now) (IsForm decimal IsNumber field.now) }
{
    match number_of(field, MOST_NUMBER) {
        Some(n) => Some(n as u32),
        None => None,
    }
}

// Two numbers, each at most so great, with a space between them.
fn two_of(bytes: &[u8], first: u64, second: u64) -> Option<(u64, u64)>
    ensures { MatchOption result
        (IsNoForm (pair_form decimal decimal) (AreBoth (λ n. n ≤ first) (λ n. n ≤ second)) bytes.now)
        (IsForm (pair_form decimal decimal) (AreBoth (λ n. n ≤ first) (λ n. n ≤ second)) bytes.now) }
{
    let (field, rest) = cut_field(bytes);
    let rest = rest?;
    let number = number_of(field, first)?;
    Some((number, number_of(rest, second)?))
}

// Three numbers, each at most so great, with a space between them.
fn three_of(bytes: &[u8], first: u64, second: u64, third: u64) -> Option<(u64, (u64, u64))>
    ensures { MatchOption result
        (IsNoForm (pair_form decimal (pair_form decimal decimal)) (AreBoth (λ n. n ≤ first) (AreBoth (λ n. n ≤ second) (λ n. n ≤ third))) bytes.now)
        (IsForm (pair_form decimal (pair_form decimal decimal)) (AreBoth (λ n. n ≤ first) (AreBoth (λ n. n ≤ second) (λ n. n ≤ third))) bytes.now) }
{
    let (field, rest) = cut_field(bytes);
    let rest = rest?;
    let number = number_of(field, first)?;
    Some((number, two_of(rest, second, third)?))
}

// The task of a release, and its vertex, its time and its need.
fn parts_of_release(bytes: &[u8]) -> Option<(u64, (u64, (u64, u64)))>
    ensures { MatchOption result
        (IsNoForm (pair_form decimal (pair_form decimal (pair_form decimal decimal))) (AreBoth IsNumber (AreBoth IsNumber (AreBoth IsTick IsTick))) bytes.now)
        (IsForm (pair_form decimal (pair_form decimal (pair_form decimal decimal))) (AreBoth IsNumber (AreBoth IsNumber (AreBoth IsTick IsTick))) bytes.now) }
{
    let (field, rest) = cut_field(bytes);
    let rest = rest?;
    let task = number_of(field, MOST_NUMBER)?;
    Some((task, three_of(rest, MOST_NUMBER, MOST_TICKS, MOST_TICKS)?))
}

// The release that the line says.
pub(crate) fn release_of(line: &[u8]) -> Option<Release>
    ensures { MatchOption result (IsNoLine release_line IsInRangeRelease line.now) (IsLineOf release_line IsInRangeRelease line.now) }
{
    let (task, (vertex, (time, need))) = parts_of_release(behind_word(line, b"release")?)?;
    Some(Release {
        task: task as u32,
        vertex: vertex as u32,
        time,
        need,
    })
}

// The task, the vertex and the ticks that the first line of a response says.
fn opening_of(line: &[u8]) -> Option<Opening>
    ensures { MatchOption result (IsNoLine opening_line IsInRangeOpening line.now) (IsLineOf opening_line IsInRangeOpening line.now) }
{
    let rest = behind_word(line, b"response")?;
    let (task, (vertex, ticks)) = three_of(rest, MOST_NUMBER, MOST_NUMBER, u64::MAX)?;
    Some(Opening {
        task: task as u32,
        vertex: vertex as u32,
        ticks,
    })
}

// What the line says where a response or the end is due.
pub(crate) fn heading_of(line: &[u8]) -> Option<Heading>
    ensures { MatchOption result (IsNoLine heading_line IsInRangeHeading line.now) (IsLineOf heading_line IsInRangeHeading line.now) }
{
    if line == b"close".as_slice() {
        return Some(Heading::Closes);
    }
    match opening_of(line) {
        Some(opening) => Some(Heading::Opens(opening)),
        None => None,
    }
}
