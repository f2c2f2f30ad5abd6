//! `timeline` of a response: the releases that reach it, drawn up to the tick after which its job finishes.
ghost use Rattle.std.specs.Prelude.{◌≡◌, ◌≤◌, ◌⊎◌, List, IfErr, IfOk, length};
ghost use Rattle.drt_model.specs.Numbers.{most_text};
ghost use Rattle.drt_command.specs.Rules.{IsUnmadeCause};
ghost use Rattle.drt_command_files.specs.TaskFiles.{IsAccepted, IsFileFault};
ghost use Rattle.drt_responses.specs.Ranges.{AreResponsesInRange, IsInRangeResponse};
ghost use Rattle.drt_responses.specs.Reading.{IsResponsesText};
ghost use Rattle.drt_responses.specs.declared.response.Response.{Response};
ghost use Rattle.drt_model.specs.declared.jobs.Policy.TheVariants.{Fixed};
ghost use Rattle.drt_command_timeline.specs.Drawn.{IsDrawn};
ghost use Rattle.drt_command_timeline.specs.Reached.{IsReachedResponse};
ghost use Rattle.drt_command_timeline.specs.Response.{DrawsIn, DrawsResponse, IsFaultIn, IsResponseFault, IsTextFault, response_timeline_rules};

use crate::drawing::draw;
use crate::inputs::cut_at;
use crate::no::MOST_BYTES;
use crate::reached::{is_reached, response_of};
use drt_command::{Command, Input, Promised, Report, Unmade};
use drt_command_files::{read_set, spot_of};
use drt_file::laws::texts_read_as_one_set;
use drt_model::{Policy, Row, TaskSet};
use drt_outcome::fault::{DOSSIER_TOO_LONG, Fault, NO_SUCH_VERTEX, TOO_LONG};
use drt_outcome::outcome::{Trail, YES};
use drt_responses::{Response, ResponseError};
use std::alloc::Global;

/// The code of bytes that are no text of responses.
pub const NO_RESPONSES: u8 = 6;

/// The rule that a response is reached by its releases.
pub const REACHED_RESPONSE: u8 = 31;

// The most bytes of a task file.
const MOST_FILE_BYTES: usize = 1_048_576;

/// The command `timeline` of the response of the vertex with these names, as text, or as a picture.
#[derive(Debug, Drop)]
pub struct ResponseTimeline {
    pub svg: bool,
    pub task: Row<u8>,
    pub vertex: Row<u8>,
}

impl Promised for ResponseTimeline {
    ghost rules = { λ t. response_timeline_rules t.svg t.task t.vertex };

    fn laws(&self) {
        texts_read_as_one_set();
    }

    fn input(&self) -> Input {
        Input::AtMost {
            bytes: MOST_BYTES,
            longer: Fault::Dossier {
                line: 0,
                code: DOSSIER_TOO_LONG,
            },
        }
    }
}

impl Command for ResponseTimeline {
    fn make(&self, alloc: Global, bytes: &[u8]) -> Result<Report, Unmade> {
        make_response(alloc, bytes, self)
    }
}

// The report of the named response behind a file.
fn make_response(alloc: Global, bytes: &[u8], command: &ResponseTimeline) -> Result<Report, Unmade>
    requires { length bytes.now ≤ most_text }
    ensures draws { IfOk result (DrawsResponse command.now.svg command.now.task command.now.vertex bytes.now) }
    ensures unmade { IfErr result (IsUnmadeCause (IsResponseFault command.now.task command.now.vertex) bytes.now) }
{
    let at = cut_at(bytes);
    let set = accept(alloc, &bytes[..at])?;
    let responses = read_responses(alloc, &bytes[at..])?;
    draw_named(alloc, command, &set, responses.as_slice())
}

// The set that the file is accepted as.
fn accept(alloc: Global, file: &[u8]) -> Result<TaskSet, Unmade>
    ensures accepted { IfOk result (IsAccepted file.now) }
    ensures unmade { IfErr result (IsUnmadeCause IsFileFault file.now) }
{
    if file.len() > MOST_FILE_BYTES {
        return Err(Unmade::Refused(Fault::File {
            line: 0,
            code: TOO_LONG,
        }));
    }
    let (set, _graphs) = read_set(alloc, file)?;
    Ok(set)
}

// The responses that the text says.
fn read_responses(alloc: Global, text: &[u8]) -> Result<Row<Response>, Unmade>
    requires { length text.now ≤ most_text }
    ensures read { IfOk result (λ responses. IsResponsesText responses text.now) }
    ensures only { IfOk result (λ responses. (found : List Response) → IsResponsesText found text.now → responses ≡ found) }
    ensures unmade { IfErr result (IsUnmadeCause IsTextFault text.now) }
{
    match drt_responses::read(alloc, text) {
        Ok(responses) => Ok(responses),
        Err(ResponseError::Fault { line }) => Err(Unmade::Refused(Fault::Dossier {
            line,
            code: NO_RESPONSES,
        })),
        Err(ResponseError::Memory) => Err(Unmade::Memory),
    }
}

// The report of the named response of these.
fn draw_named(
    alloc: Global,
    command: &ResponseTimeline,
    set: &TaskSet,
    responses: &[Response],
) -> Result<Report, Unmade>
    requires { AreResponsesInRange responses.now }
    ensures draws { IfOk result (DrawsIn command.now.svg command.now.task command.now.vertex set.now.tasks responses.now) }
    ensures unmade { IfErr result (IsUnmadeCause (λ task fault. IsFaultIn task command.now.vertex set.now.tasks responses.now fault) command.now.task) }
{
    let (task, vertex) = match spot_of(set, command.task.as_slice(), command.vertex.as_slice()) {
        Some(spot) => spot,
        None => return Err(Unmade::Refused(Fault::Limit {
            code: NO_SUCH_VERTEX,
        })),
    };
    match response_of(responses, task, vertex) {
        Some(response) => draw_response(alloc, command.svg, set, response),
        None => Err(Unmade::Refused(Fault::Rule {
            number: REACHED_RESPONSE,
        })),
    }
}

// The report of a response, where it is reached.
fn draw_response(
    alloc: Global,
    svg: bool,
    set: &TaskSet,
    response: &Response,
) -> Result<Report, Unmade>
    requires { IsInRangeResponse response.now }
    ensures reached { IfOk result (λ m. IsReachedResponse set.now.tasks response.now) }
    ensures drawn { IfOk result (λ m. IsDrawn svg set.now.tasks Fixed response.now.releases response.now.ticks m.text) }
    ensures made { IfOk result (λ m. (m.status ≡ 0) × (m.trail ≡ Trail.Nothing)) }
    ensures unmade { IfErr result (λ e. (e ≡ Unmade.Memory) ⊎ ((e ≡ Unmade.Refused (Fault.Rule 31)) × ¬ IsReachedResponse set.now.tasks response.now)) }
{
    if !is_reached(alloc, set, response)? {
        return Err(Unmade::Refused(Fault::Rule {
            number: REACHED_RESPONSE,
        }));
    }
    let releases = response.releases.as_slice();
    let text = draw(alloc, svg, set, Policy::Fixed, releases, response.ticks)?;
    Ok(Report::new(YES, text))
}
