//! A whole text of responses, and where bytes stop being one.
ghost use Rattle.std.specs.Prelude.{◌≡◌, ◌≤◌, ◌+◌, ◌-◌, ℕ, List, length, take, IfOk, IfErr};
ghost use Rattle.drt_model.specs.Numbers.{most_text};
ghost use Rattle.drt_file.specs.trusted.CanonicalPrefix.{line_count};
ghost use Rattle.drt_evidence.specs.Blocks.{ReadsBlock};
ghost use Rattle.drt_responses.specs.Ranges.{AreResponsesInRange};
ghost use Rattle.drt_responses.specs.Reading.{GivesResponses, IsTextCause, IsResponsesText};
ghost use Rattle.drt_responses.specs.Rows.{IsResponsesStop};
ghost use Rattle.drt_responses.specs.Text.{response_text};
ghost use Rattle.drt_responses.specs.declared.fault.ResponseError.TheVariants.{Fault, Memory};
ghost use Rattle.drt_responses.specs.declared.response.Response.{Response};

use crate::fault::ResponseError;
use crate::reading::blocks::{read_first, read_rows};
use crate::reading::text::{Stop, Text};
use crate::response::Response;
use drt_model::Row;
use std::alloc::Global;

// The responses whose text stands at the front of a text.
fn read_responses(alloc: Global, from: &mut Text) -> Result<Row<Response>, Stop>
    ensures read { IfOk result (λ rs. ReadsBlock response_text AreResponsesInRange from.old.rest.now rs from.new.rest.now) }
    ensures stops { IfErr result (IsResponsesStop response_text AreResponsesInRange from.old.rest.now) }
{
    read_first(from)?;
    let responses = read_rows(alloc, from)?;
    Ok(responses)
}

// How many LFs bytes have.
fn feeds_in(bytes: &[u8]) -> usize
    ensures count { result ≡ line_count bytes.now }
    ensures within { result ≤ length bytes.now }
{
    bytes.iter().filter(|b| **b == b'\n').count()
}

// The fault of the line that so many last bytes begin with.
fn fault(bytes: &[u8], left: usize) -> ResponseError
    requires size { length bytes.now ≤ most_text }
    requires within { left ≤ length bytes.now }
    ensures { result ≡ Fault (1 + line_count (take (length bytes.now - left) bytes.now)) }
{
    ResponseError::Fault {
        line: 1 + feeds_in(&bytes[..bytes.len() - left]) as u32,
    }
}

/// The responses whose text the bytes are, or the line at which they stop being the text of any.
///
/// Lists take the room of what follows, and none by the count above them.
pub fn read(alloc: Global, bytes: &[u8]) -> Result<Row<Response>, ResponseError>
    requires { length bytes.now ≤ most_text }
    ensures read { IfOk result (λ responses. IsResponsesText responses bytes.now) }
    ensures found { (responses : List Response) → IsResponsesText responses bytes.now → GivesResponses result responses }
    ensures fault { IfErr result (IsTextCause bytes.now) }
{
    let mut from = Text { rest: bytes };
    match read_responses(alloc, &mut from) {
        Ok(responses) => {
            if from.rest.is_empty() {
                Ok(responses)
            } else {
                Err(fault(bytes, from.rest.len()))
            }
        }
        Err(stop) => Err(cause_of(bytes, stop)),
    }
}

// Why a text that stops there is none of responses.
fn cause_of(bytes: &[u8], stop: Stop) -> ResponseError
    requires size { length bytes.now ≤ most_text }
    requires stops { IsResponsesStop response_text AreResponsesInRange bytes.now stop }
    ensures fault { IsTextCause bytes.now result }
    ensures none { (responses : List Response) → IsResponsesText responses bytes.now → result ≡ Memory }
{
    match stop {
        Stop::Fault { left, missing: _ } => fault(bytes, left),
        Stop::Memory => ResponseError::Memory,
    }
}
