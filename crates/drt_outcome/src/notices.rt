//! What the program says of an outcome on standard error.
ghost use Rattle.std.specs.Prelude.{◌≡◌, ◌++◌, IfOk, OnOk, decimal};
ghost use Rattle.drt_outcome.specs.Notices.{fault_notice, notice_of};

use crate::fault::Fault;
use crate::outcome::{
    DOSSIER_REFUSED, EVIDENCE_REJECTED, FILE_REFUSED, OUT_OF_MEMORY, Outcome, READ_FAILED,
    WORDS_REFUSED, WRITE_FAILED,
};
use drt_model::{Memory, Row};
use itoa::Buffer;
use std::alloc::Global;

/// The line that the program prints on standard error after a run, with its LF: why there is no
/// answer. It is empty where there is one.
pub fn notice(alloc: Global, outcome: &Outcome) -> Result<Row<u8>, Memory>
    ensures { IfOk result (λ text. text ≡ notice_of outcome.now.status outcome.now.fault) }
{
    let text = match outcome.status {
        FILE_REFUSED | EVIDENCE_REJECTED | DOSSIER_REFUSED => {
            return fault_notice(alloc, &outcome.fault);
        }
        WORDS_REFUSED => b"drt: words refused\n".as_slice(),
        READ_FAILED => b"drt: read failed\n".as_slice(),
        WRITE_FAILED => b"drt: write failed\n".as_slice(),
        OUT_OF_MEMORY => b"drt: out of memory\n".as_slice(),
        _ => b"".as_slice(),
    };
    Ok(Row::from_vec(Vec::from_slice(alloc, text)?))
}

// The line of a refused input.
fn fault_notice(alloc: Global, fault: &Fault) -> Result<Row<u8>, Memory>
    ensures { IfOk result (λ text. text ≡ fault_notice fault.now) }
{
    let mut text = Vec::new(alloc);
    match fault {
        Fault::Nothing => {}
        Fault::File { line, code } => {
            push(&mut text, b"drt: line ", *line)?;
            push(&mut text, b": fault ", u32::from(*code))?;
            text.push(b'\n')?;
        }
        Fault::Edge { task, edge, .. } => {
            push(&mut text, b"drt: task ", *task)?;
            push(&mut text, b": edge ", *edge)?;
            text.extend_from_slice(b": fault 20\n")?;
        }
        Fault::Limit { code } => {
            push(&mut text, b"drt: fault ", u32::from(*code))?;
            text.push(b'\n')?;
        }
        Fault::Probe { add, code } => {
            push(&mut text, b"drt: add ", *add)?;
            push(&mut text, b": fault ", u32::from(*code))?;
            text.push(b'\n')?;
        }
        Fault::Rule { number } => {
            push(
                &mut text,
                b"drt: evidence rejected by rule ",
                u32::from(*number),
            )?;
            text.push(b'\n')?;
        }
        Fault::Dossier { line, code } => {
            push(&mut text, b"drt: dossier line ", *line)?;
            push(&mut text, b": fault ", u32::from(*code))?;
            text.push(b'\n')?;
        }
    }
    Ok(Row::from_vec(text))
}

// Adds some text and a number behind it.
fn push(text: &mut Vec<u8>, before: &[u8], number: u32) -> Result<(), Memory>
    ensures { OnOk result (text.new.items ≡ text.old.items ++ before.now ++ decimal number) }
{
    let mut buffer = Buffer::new();
    text.extend_from_slice(before)?;
    text.extend_from_slice(buffer.format(number).as_bytes())?;
    Ok(())
}
