//! Drawn sets: small ones, answered by one worker and by four that are begun at once, and two that `bench` draws.
use crate::running::{answer_to, write_for};
use drt_gen::generate;
use drt_model::Row;
use drt_pool::{EagerGate, OpenGate};
use drt_test_tools::{Draws, drawn_set};
use std::alloc::Global;
use std::sync::Wait;
use std::test::Fail;
use std::thread::Threads;

const DRAWN_SETS: u32 = 1000;

// So many are asked for priorities and margins.
const SOME_SETS: u32 = 200;

// The statuses of a run over this text and of `check` over what it writes.
fn statuses_of(
    rt: &(impl Threads + Wait + Sync),
    alloc: Global,
    words: &str,
    text: &[u8],
) -> Result<(u8, u8), Fail> {
    let (answer, dossier) = answer_to(rt, alloc, words, text, &EagerGate)?;
    let (judgement, _line) = answer_to(rt, alloc, "check", dossier.as_slice(), &EagerGate)?;
    Ok((answer.status, judgement.status))
}

// The status of two commands on this text and of `check` on what they write, where it is the same.
fn common_status(
    rt: &(impl Threads + Wait + Sync),
    alloc: Global,
    words: (&str, &str),
    text: &[u8],
) -> Result<Option<u8>, Fail> {
    let (first, judged) = statuses_of(rt, alloc, words.0, text)?;
    let second = statuses_of(rt, alloc, words.1, text)?;
    if first == judged && second == (first, first) {
        Ok(Some(first))
    } else {
        Ok(None)
    }
}

// The text of the next set.
fn draw_text(alloc: Global, draws: &mut Draws) -> Result<Row<u8>, Fail> {
    let set = drawn_set(alloc, draws)?.ok_or("within the limits")?;
    Ok(drt_file::print(alloc, &set)?)
}

// The common status on the next set.
fn next_status(
    rt: &(impl Threads + Wait + Sync),
    alloc: Global,
    words: (&str, &str),
    draws: &mut Draws,
) -> Result<Option<u8>, Fail> {
    let text = draw_text(alloc, draws)?;
    common_status(rt, alloc, words, text.as_slice())
}

// How many of the drawn sets have each of the statuses 0, 1 and 2 by both.
fn count_statuses(
    rt: &(impl Threads + Wait + Sync),
    alloc: Global,
    words: (&str, &str),
) -> Result<[u32; 3], Fail> {
    let mut draws = Draws { state: 20 };
    let mut counts = [0u32; 3];
    for _ in 0..DRAWN_SETS {
        match next_status(rt, alloc, words, &mut draws)? {
            Some(0) => counts[0] = counts[0].saturating_add(1),
            Some(1) => counts[1] = counts[1].saturating_add(1),
            Some(2) => counts[2] = counts[2].saturating_add(1),
            _ => {}
        }
    }
    Ok(counts)
}

// Whether each drawn set is answered alike, and each of yes and no is the answer of at least a tenth.
fn are_answered_alike(
    rt: &(impl Threads + Wait + Sync),
    alloc: Global,
    words: (&str, &str),
) -> Result<bool, Fail> {
    let [yes, no, one] = count_statuses(rt, alloc, words)?;
    let all = yes.saturating_add(no).saturating_add(one);
    Ok(all == DRAWN_SETS && yes >= DRAWN_SETS / 10 && no >= DRAWN_SETS / 10)
}

#[test]
fn drawn_sets_are_answered_alike_by_one_worker_and_by_four(rt: HostRuntime) -> Result<(), Fail> {
    for words in [
        ("edf --workers 1", "edf --workers 4"),
        ("sp --workers 1", "sp --workers 4"),
    ] {
        assert!(rt; are_answered_alike(&rt, rt.alloc(), words)?, "{}", words.0);
    }
    Ok(())
}

// Whether these words write the same for a text, by workers that are begun at once.
fn write_alike(
    rt: &(impl Threads + Wait + Sync),
    alloc: Global,
    commands: [&str; 4],
    text: &[u8],
) -> Result<bool, Fail> {
    let wanted = write_for(rt, alloc, commands[0], text, &EagerGate)?;
    let mut alike = true;
    for words in commands {
        let written = write_for(rt, alloc, words, text, &EagerGate)?;
        alike = alike && written.as_slice() == wanted.as_slice();
    }
    Ok(alike)
}

// Whether these words write the same for each of some drawn sets.
fn are_written_alike(
    rt: &(impl Threads + Wait + Sync),
    alloc: Global,
    commands: [&str; 4],
) -> Result<bool, Fail> {
    let mut draws = Draws { state: 30 };
    let mut alike = true;
    for _ in 0..SOME_SETS {
        let text = draw_text(alloc, &mut draws)?;
        alike = alike && write_alike(rt, alloc, commands, text.as_slice())?;
    }
    Ok(alike)
}

#[test]
fn priorities_and_margins_of_drawn_sets_are_those_of_one_worker(
    rt: HostRuntime,
) -> Result<(), Fail> {
    for commands in [
        [
            "assign --workers 1",
            "assign --workers 2",
            "assign --workers 4",
            "assign --workers 16",
        ],
        [
            "margin T0 v0 --workers 1",
            "margin T0 v0 --workers 2",
            "margin T0 v0 --workers 4",
            "margin T0 v0 --workers 16",
        ],
        [
            "margin --fixed T1 v0 --workers 1",
            "margin --fixed T1 v0 --workers 2",
            "margin --fixed T1 v0 --workers 4",
            "margin --fixed T1 v0 --workers 16",
        ],
    ] {
        assert!(rt;
            are_written_alike(&rt, rt.alloc(), commands)?,
            "{}",
            commands[0]
        );
    }
    Ok(())
}

// The word by which a line of `bench` says what `check` says.
fn word_of(judgement: &[u8]) -> &'static str {
    match judgement {
        b"schedulable\n" => "yes",
        b"unschedulable\n" => "no",
        b"utilisation-one\n" => "one",
        b"nothing-to-check\n" => "undecided",
        _ => "nothing",
    }
}

// The word for what `check` says of what a command writes for this text.
fn judge(
    rt: &(impl Threads + Wait + Sync),
    alloc: Global,
    words: &str,
    text: &[u8],
) -> Result<&'static str, Fail> {
    let dossier = write_for(rt, alloc, words, text, &OpenGate)?;
    let line = write_for(rt, alloc, "check", dossier.as_slice(), &OpenGate)?;
    Ok(word_of(line.as_slice()))
}

// The words for the dossiers of the set of this number under EDF and under fixed priorities.
fn judge_number(
    rt: &(impl Threads + Wait + Sync),
    alloc: Global,
    number: u64,
) -> Result<(&'static str, &'static str), Fail> {
    let set = generate(alloc, number)?;
    let text = drt_file::print(alloc, &set)?;
    let edf = judge(rt, alloc, "edf --budget=1000000", text.as_slice())?;
    let fixed = judge(rt, alloc, "sp --budget=1000000", text.as_slice())?;
    Ok((edf, fixed))
}

// Whether the line of these words has the words that `check` has for the dossiers of the set of this number.
fn agrees(
    rt: &(impl Threads + Wait + Sync),
    alloc: Global,
    words: &str,
    number: u64,
) -> Result<bool, Fail> {
    let (edf, fixed) = judge_number(rt, alloc, number)?;
    let front = format!(in alloc; "{{\"edf\":\"{edf}\",\"fixed\":\"{fixed}\",")?;
    let line = write_for(rt, alloc, words, b"", &OpenGate)?;
    Ok(line.as_slice().starts_with(front.as_bytes()))
}

#[test]
fn words_of_bench_are_those_of_the_dossiers_of_its_set(rt: HostRuntime) -> Result<(), Fail> {
    for (words, number) in [("bench 1", 1), ("bench 4", 4)] {
        assert!(rt; agrees(&rt, rt.alloc(), words, number)?, "{words}");
    }
    Ok(())
}
