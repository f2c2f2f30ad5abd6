//! One run between a source and a sink that never fail.
use drt_io::{SureSink, SureSource};
use drt_model::{Memory, Row};
use drt_pool::{Gate, OpenGate};
use drt_top::{Fault, Outcome, run};
use std::alloc::Global;
use std::sync::Wait;
use std::test::Fail;
use std::thread::Threads;

/// The program's name, and these words behind it.
pub(crate) fn split_words(alloc: Global, line: &str) -> Result<Vec<String>, Memory> {
    let mut words = Vec::new(alloc);
    words.push(String::from_str(alloc, "drt")?)?;
    for word in line.split_whitespace() {
        words.push(String::from_str(alloc, word)?)?;
    }
    Ok(words)
}

// The top call, without its clauses, so that no caller carries them.
fn run_surely<G: Gate>(
    rt: &(impl Threads + Wait + Sync),
    alloc: Global,
    words: &[String],
    source: &mut SureSource,
    sink: &mut SureSink,
    gate: &G,
) -> Outcome {
    run(rt, alloc, words, source, sink, gate)
}

/// How a run over this text ends, and what is then written.
pub(crate) fn answer_to<G: Gate>(
    rt: &(impl Threads + Wait + Sync),
    alloc: Global,
    words: &str,
    text: &[u8],
    gate: &G,
) -> Result<(Outcome, Row<u8>), Fail> {
    let words = split_words(alloc, words)?;
    let mut source = SureSource::new(Row::from_vec(Vec::from_slice(alloc, text)?));
    let mut sink = SureSink::with_room(alloc, 100_000)?;
    let outcome = run_surely(rt, alloc, words.as_slice(), &mut source, &mut sink, gate);
    let held = Row::from_vec(Vec::from_slice(alloc, sink.bytes())?);
    Ok((outcome, held))
}

/// What a run over this text writes.
pub(crate) fn write_for<G: Gate>(
    rt: &(impl Threads + Wait + Sync),
    alloc: Global,
    words: &str,
    text: &[u8],
    gate: &G,
) -> Result<Row<u8>, Fail> {
    let (_outcome, held) = answer_to(rt, alloc, words, text, gate)?;
    Ok(held)
}

/// The status of a run over this text.
pub(crate) fn status_of<G: Gate>(
    rt: &(impl Threads + Wait + Sync),
    alloc: Global,
    words: &str,
    text: &str,
    gate: &G,
) -> Result<u8, Fail> {
    let (outcome, _held) = answer_to(rt, alloc, words, text.as_bytes(), gate)?;
    Ok(outcome.status)
}

/// Whether a run over this text ends with that status and no fault, and writes this.
pub(crate) fn writes<G: Gate>(
    rt: &(impl Threads + Wait + Sync),
    alloc: Global,
    words: &str,
    text: &str,
    gate: &G,
    status: u8,
    written: &str,
) -> Result<bool, Fail> {
    let (outcome, held) = answer_to(rt, alloc, words, text.as_bytes(), gate)?;
    Ok(
        outcome.status == status
            && matches!(&outcome.fault, Fault::Nothing)
            && held.as_slice() == written.as_bytes(),
    )
}
