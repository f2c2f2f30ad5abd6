//! The line below the notice.
ghost use Rattle.std.specs.Prelude.{◌≡◌, ◌++◌, IfOk, List, ℕ, OnOk, decimal, string_bytes};
ghost use Rattle.drt_advice.specs.Advice.{advice_of, edge_sentence, fault_sentence, line_of, more_steps, sentence_of, spent_at, spent_in, trail_sentence};

use crate::sentences::{dossier_sentence, file_sentence, rule_sentence};
use drt_model::{Memory, Row};
use drt_outcome::outcome::{
    DOSSIER_REFUSED, EVIDENCE_REJECTED, FILE_REFUSED, OUT_OF_MEMORY, READ_FAILED, UNDECIDED,
    WORDS_REFUSED, WRITE_FAILED,
};
use drt_outcome::{Fault, Outcome, PastEdge, Trail};
use itoa::Buffer;
use std::alloc::Global;

/// The line that the program says below its notice, with its LF: what is wrong in a plain sentence, and what to do. It is empty where
/// there is an answer.
pub fn advise(alloc: Global, outcome: &Outcome) -> Result<Row<u8>, Memory>
    ensures { IfOk result (λ text. text ≡ advice_of outcome.now) }
{
    let sentence = sentence_of(alloc, outcome)?;
    line_of(alloc, sentence.as_slice())
}

// The line of a sentence.
fn line_of(alloc: Global, sentence: &[u8]) -> Result<Row<u8>, Memory>
    ensures { IfOk result (λ text. text ≡ line_of sentence.now) }
{
    let mut text = Vec::new(alloc);
    if !sentence.is_empty() {
        text.extend_from_slice(b"drt: ")?;
        text.extend_from_slice(sentence)?;
        text.push(b'\n')?;
    }
    Ok(Row::from_vec(text))
}

// The sentence of an outcome.
fn sentence_of(alloc: Global, outcome: &Outcome) -> Result<Vec<u8>, Memory>
    ensures { IfOk result (λ text. text.items ≡ sentence_of outcome.now) }
{
    let text = match outcome.status {
        UNDECIDED => return trail_sentence(alloc, &outcome.trail),
        FILE_REFUSED | EVIDENCE_REJECTED | DOSSIER_REFUSED => {
            return fault_sentence(alloc, &outcome.fault);
        }
        WORDS_REFUSED =>
            b"write: drt edf, sp, response, assign, margin, check, timeline, util, upgrade, convert or bench, with --workers N (1 to 16) and --budget N (1 to 1,000,000) where the command has them; the file comes on standard input, as in drt edf < FILE (man ./docs/drt.1)".as_slice(),
        READ_FAILED => b"standard input can't be read: is it a file?".as_slice(),
        WRITE_FAILED => b"standard output takes no more: what it holds is cut".as_slice(),
        OUT_OF_MEMORY =>
            b"the analysis needs more memory than there is: give fewer steps with --budget, or fewer workers with --workers".as_slice(),
        _ => b"".as_slice(),
    };
    Ok(Vec::from_slice(alloc, text)?)
}

// The sentence of a fault.
fn fault_sentence(alloc: Global, fault: &Fault) -> Result<Vec<u8>, Memory>
    ensures { IfOk result (λ text. text.items ≡ fault_sentence fault.now) }
{
    let text = match fault {
        Fault::Nothing => "",
        Fault::File { code, .. } | Fault::Limit { code } => file_sentence(*code),
        Fault::Edge { past, .. } => return edge_sentence(alloc, past),
        Fault::Probe { add, code } => return probe_sentence(alloc, *add, *code),
        Fault::Rule { number } => return broken_sentence(alloc, *number),
        Fault::Dossier { code, .. } => dossier_sentence(*code),
    };
    Ok(Vec::from_slice(alloc, text.as_bytes())?)
}

// The sentence of an edge whose separation is below the deadline of its source.
fn edge_sentence(alloc: Global, past: &PastEdge) -> Result<Vec<u8>, Memory>
    ensures { IfOk result (λ text. text.items ≡ edge_sentence past.now) }
{
    let from = past.from.as_slice();
    let mut text = Vec::new(alloc);
    push_name(&mut text, b"edge ", from)?;
    push_name(&mut text, b" ", past.to.as_slice())?;
    push_name(&mut text, b" of task ", past.task.as_slice())?;
    push(&mut text, b" has separation ", u64::from(past.separation))?;
    push(
        &mut text,
        b", below the deadline ",
        u64::from(past.deadline),
    )?;
    push_name(&mut text, b" of ", from)?;
    text.extend_from_slice(b": raise the separation or lower the deadline")?;
    Ok(text)
}

// The sentence of a limit that the set passes with so many ticks more.
fn probe_sentence(alloc: Global, add: u32, code: u8) -> Result<Vec<u8>, Memory>
    ensures { IfOk result (λ text. text.items ≡ fault_sentence (Fault.Probe add code)) }
{
    let after = b" more ticks of this vertex: ";
    let limit = file_sentence(code);
    around(alloc, b"with ", u64::from(add), after, limit.as_bytes())
}

// A number with texts around it.
fn around(
    alloc: Global,
    before: &[u8],
    number: u64,
    after: &[u8],
    last: &[u8],
) -> Result<Vec<u8>, Memory>
    ensures { IfOk result (λ text. text.items ≡ before.now ++ decimal number ++ after.now ++ last.now) }
{
    let mut text = Vec::new(alloc);
    push(&mut text, before, number)?;
    text.extend_from_slice(after)?;
    text.extend_from_slice(last)?;
    Ok(text)
}

// The sentence of a rule that is broken.
fn broken_sentence(alloc: Global, number: u8) -> Result<Vec<u8>, Memory>
    ensures { IfOk result (λ text. text.items ≡ fault_sentence (Fault.Rule number)) }
{
    let mut text = Vec::from_slice(alloc, rule_sentence(number).as_bytes())?;
    text.extend_from_slice(b": don't trust this evidence, and analyse the set again")?;
    Ok(text)
}

// Which search spent its budget, and what helps.
fn trail_sentence(alloc: Global, trail: &Trail) -> Result<Vec<u8>, Memory>
    ensures { IfOk result (λ text. text.items ≡ trail_sentence trail.now) }
{
    match trail {
        Trail::Nothing => Ok(Vec::from_slice(
            alloc,
            b"the dossier says that nothing is decided, so there is nothing to check",
        )?),
        Trail::Bench { .. } => Ok(Vec::new(alloc)),
        Trail::Table { task, .. } => spent_at(
            alloc,
            b"undecided: the search of the walks of task ",
            u64::from(*task),
        ),
        Trail::Overload { last } => spent_at(
            alloc,
            b"undecided: the search for an overload, at time ",
            *last,
        ),
        Trail::Refine { task, vertex, .. } => spent_in(
            alloc,
            b"undecided: the refinement for vertex ",
            *vertex,
            *task,
        ),
        Trail::Assign { task, vertex, .. } => spent_in(
            alloc,
            b"undecided: the refinement below the other open tasks for vertex ",
            *vertex,
            *task,
        ),
        Trail::Response { task, vertex, .. } => spent_in(
            alloc,
            b"undecided: the search for the response of vertex ",
            *vertex,
            *task,
        ),
    }
}

// That the search of something with a number spent its budget, and what helps.
fn spent_at(alloc: Global, search: &[u8], number: u64) -> Result<Vec<u8>, Memory>
    ensures { IfOk result (λ text. text.items ≡ spent_at search.now number) }
{
    let mut text = Vec::new(alloc);
    push(&mut text, search, number)?;
    push_more_steps(&mut text)?;
    Ok(text)
}

// The same of a vertex of a task.
fn spent_in(alloc: Global, search: &[u8], vertex: u32, task: u32) -> Result<Vec<u8>, Memory>
    ensures { IfOk result (λ text. text.items ≡ spent_in search.now vertex task) }
{
    let mut text = Vec::new(alloc);
    push(&mut text, search, u64::from(vertex))?;
    push(&mut text, b" of task ", u64::from(task))?;
    push_more_steps(&mut text)?;
    Ok(text)
}

// Adds what helps where a budget was spent.
fn push_more_steps(text: &mut Vec<u8>) -> Result<(), Memory>
    ensures { OnOk result (text.new.items ≡ text.old.items ++ more_steps) }
{
    text.extend_from_slice(
        b" spent its budget: give more with --budget (at most 1,000,000), or make the set simpler",
    )?;
    Ok(())
}

// Adds some text and a name behind it.
fn push_name(text: &mut Vec<u8>, before: &[u8], name: &[u8]) -> Result<(), Memory>
    ensures { OnOk result (text.new.items ≡ text.old.items ++ before.now ++ name.now) }
{
    text.extend_from_slice(before)?;
    text.extend_from_slice(name)?;
    Ok(())
}

// Adds some text and a number behind it.
fn push(text: &mut Vec<u8>, before: &[u8], number: u64) -> Result<(), Memory>
    ensures { OnOk result (text.new.items ≡ text.old.items ++ before.now ++ decimal number) }
{
    let mut buffer = Buffer::new();
    text.extend_from_slice(before)?;
    text.extend_from_slice(buffer.format(number).as_bytes())?;
    Ok(())
}
