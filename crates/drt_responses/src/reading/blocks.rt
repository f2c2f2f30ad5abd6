//! Blocks of a text of responses.
ghost use Rattle.std.specs.Prelude.{◌≡◌, Some, None, length, false, codes, IfOk, IfErr};
ghost use Rattle.drt_file.specs.trusted.Canonical.{written_line};
ghost use Rattle.drt_file.specs.trusted.Cutting.{HasNoFeed};
ghost use Rattle.drt_evidence.specs.Blocks.{AreSoMany, ReadsBlock, in_turn};
ghost use Rattle.drt_evidence.specs.LineForms.{AreItemsCounted, IsAny};
ghost use Rattle.drt_claims.specs.Ranges.{IsInRangeRelease, IsNumber};
ghost use Rattle.drt_evidence.specs.Text.{count_line, release_line};
ghost use Rattle.drt_responses.specs.Ranges.{AreResponsesInRange};
ghost use Rattle.drt_responses.specs.Rows.{IsInRangeHeading, IsResponsesStop, first_responses_block, heading_line, releases_block, rows_block};
ghost use Rattle.drt_responses.specs.declared.reading.text.Stop.TheVariants.{Fault};

use crate::reading::lines::{Heading, count_of, heading_of, is_first_line, release_of};
use crate::reading::text::{Stop, Text, first_line, refused};
use crate::response::Response;
use drt_model::{Release, Row};
use std::alloc::Global;

// What was found in the first line of a text, which goes on with the others; or the refusal of that line, where nothing was found.
fn taken<'a, T>(text: &mut Text<'a>, others: &'a [u8], found: Option<T>) -> Result<T, Stop>
    ensures read { IfOk result (λ x. (found ≡ Some x) × (text.new.rest.now ≡ others.now)) }
    ensures stops { IfErr result (λ e. (found ≡ None) × (e ≡ Fault (length text.old.rest.now) false)) }
{
    match found {
        Some(found) => {
            text.rest = others;
            Ok(found)
        }
        None => Err(refused(text.rest)),
    }
}

// The first line of a text of responses.
pub(crate) fn read_first(text: &mut Text) -> Result<(), Stop>
    ensures read { IfOk result (λ u. ReadsBlock first_responses_block IsAny text.old.rest.now u text.new.rest.now) }
    ensures stops { IfErr result (IsResponsesStop first_responses_block IsAny text.old.rest.now) }
{
    let (line, others) = first_line(text.rest)?;
    taken(text, others, is_first_line(line).then_some(()))
}

// The line where a response or the end is due.
fn read_heading(text: &mut Text) -> Result<Heading, Stop>
    ensures read { IfOk result (λ x. ReadsBlock (λ y. written_line (heading_line y)) IsInRangeHeading text.old.rest.now x text.new.rest.now) }
    ensures stops { IfErr result (IsResponsesStop (λ y. written_line (heading_line y)) IsInRangeHeading text.old.rest.now) }
{
    let (line, others) = first_line(text.rest)?;
    taken(text, others, heading_of(line))
}

// The line of a count.
fn read_count(text: &mut Text, word: &[u8]) -> Result<u32, Stop>
    requires { HasNoFeed word.now }
    ensures read { IfOk result (λ x. ReadsBlock (λ y. written_line (count_line word.now y)) IsNumber text.old.rest.now x text.new.rest.now) }
    ensures stops { IfErr result (IsResponsesStop (λ y. written_line (count_line word.now y)) IsNumber text.old.rest.now) }
{
    let (line, others) = first_line(text.rest)?;
    taken(text, others, count_of(line, word))
}

// The line of a release.
fn read_release(text: &mut Text) -> Result<Release, Stop>
    ensures read { IfOk result (λ x. ReadsBlock (λ y. written_line (release_line y)) IsInRangeRelease text.old.rest.now x text.new.rest.now) }
    ensures stops { IfErr result (IsResponsesStop (λ y. written_line (release_line y)) IsInRangeRelease text.old.rest.now) }
{
    let (line, others) = first_line(text.rest)?;
    taken(text, others, release_of(line))
}

// So many releases, one a line.
fn read_each_release(alloc: Global, text: &mut Text, count: u32) -> Result<Vec<Release>, Stop>
    ensures read { IfOk result (λ rs. ReadsBlock (in_turn (λ r. written_line (release_line r))) (AreSoMany count IsInRangeRelease) text.old.rest.now rs.items text.new.rest.now) }
    ensures stops { IfErr result (IsResponsesStop (in_turn (λ r. written_line (release_line r))) (AreSoMany count IsInRangeRelease) text.old.rest.now) }
{
    let mut releases = Vec::new(alloc);
    for _ in 0..count {
        let release = read_release(text)?;
        releases.push(release)?;
    }
    Ok(releases)
}

// How many releases there are, and the line of each.
fn read_releases(alloc: Global, text: &mut Text) -> Result<Row<Release>, Stop>
    ensures read { IfOk result (λ rs. ReadsBlock releases_block (AreItemsCounted IsInRangeRelease) text.old.rest.now rs text.new.rest.now) }
    ensures stops { IfErr result (IsResponsesStop releases_block (AreItemsCounted IsInRangeRelease) text.old.rest.now) }
{
    let count = read_count(text, b"releases")?;
    let releases = read_each_release(alloc, text, count)?;
    Ok(Row::from_vec(releases))
}

// Responses, down to the last line.
pub(crate) fn read_rows(alloc: Global, text: &mut Text) -> Result<Row<Response>, Stop>
    ensures read { IfOk result (λ rs. ReadsBlock rows_block AreResponsesInRange text.old.rest.now rs text.new.rest.now) }
    ensures stops { IfErr result (IsResponsesStop rows_block AreResponsesInRange text.old.rest.now) }
{
    let mut responses = Vec::new(alloc);
    'rows: while let Heading::Opens(opening) = read_heading(text)? {
        let releases = read_releases(alloc, text)?;
        responses.push(Response {
            task: opening.task,
            vertex: opening.vertex,
            ticks: opening.ticks,
            releases,
        })?;
    }
    Ok(Row::from_vec(responses))
}
