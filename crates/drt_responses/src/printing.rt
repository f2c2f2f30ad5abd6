//! The text of responses, printed.
ghost use Rattle.std.specs.Prelude.{◌≡◌, ◌++◌, IfOk, OnOk};
ghost use Rattle.std.specs.List.{flat_map};
ghost use Rattle.drt_file.specs.trusted.Canonical.{written, written_line};
ghost use Rattle.drt_responses.specs.Text.{response_line, response_lines, response_text};

use crate::response::Response;
use drt_evidence::push_release_lines;
use drt_file::push_line;
use drt_model::{Memory, Row};
use itoa::Buffer;
use std::alloc::Global;

/// The text of responses, in bytes: for each its line and those of its releases, between the first line and the last.
pub fn print(alloc: Global, responses: &[Response]) -> Result<Row<u8>, Memory>
    ensures { IfOk result (λ text. text ≡ response_text responses.now) }
{
    let mut text = Vec::new(alloc);
    push_line(&mut text, &[b"drt-response".as_slice(), b"1"])?;
    push_responses(&mut text, responses)?;
    push_line(&mut text, &[b"close".as_slice()])?;
    Ok(Row::from_vec(text))
}

// Adds the lines of each response.
fn push_responses(text: &mut Vec<u8>, responses: &[Response]) -> Result<(), Memory>
    ensures { OnOk result (text.new.items ≡ text.old.items ++ written (flat_map response_lines responses.now)) }
{
    for response in responses {
        push_response(text, response)?;
    }
    Ok(())
}

// Adds the line of a response, and those of its releases.
fn push_response(text: &mut Vec<u8>, response: &Response) -> Result<(), Memory>
    ensures { OnOk result (text.new.items ≡ text.old.items ++ written (response_lines response.now)) }
{
    push_own_line(text, response)?;
    push_release_lines(text, response.releases.as_slice())
}

// Adds the line of a response.
fn push_own_line(text: &mut Vec<u8>, response: &Response) -> Result<(), Memory>
    ensures { OnOk result (text.new.items ≡ text.old.items ++ written_line (response_line response.now)) }
{
    let mut task = Buffer::new();
    let mut vertex = Buffer::new();
    let mut ticks = Buffer::new();
    push_line(
        text,
        &[
            b"response".as_slice(),
            task.format(response.task).as_bytes(),
            vertex.format(response.vertex).as_bytes(),
            ticks.format(response.ticks).as_bytes(),
        ],
    )
}
