//! Runs between sources and sinks that fail: those over memory, whose calls of some numbers fail, and the adapters over std's readers and writers.
use crate::running::{split_words, writes};
use drt_fixtures::texts::{BRANCHING_LATE, PERIODIC};
use drt_io::{FromRead, FromWrite, MemorySink, MemorySource};
use drt_model::{Memory, Row};
use drt_pool::OpenGate;
use drt_top::{Fault, Outcome, notice, run};
use std::alloc::Global;
use std::io;
use std::io::{Cursor, Read};
use std::sync::Wait;
use std::test::Fail;
use std::thread::Threads;

// What a run is given: its words, its input, and the numbers of the read and of the write that fail, 0 for none.
#[derive(Clone, Copy)]
struct Given<'a> {
    words: &'a str,
    text: &'a str,
    failing: (u64, u64),
}

// A source that gives 16 bytes in a call.
fn make_source(alloc: Global, given: Given<'_>) -> Result<MemorySource, Memory> {
    let bytes = Row::from_vec(Vec::from_slice(alloc, given.text.as_bytes())?);
    let failing = Row::from_vec(Vec::from_slice(alloc, &[given.failing.0])?);
    Ok(MemorySource::new(bytes, 16, failing))
}

// A sink that takes 7 bytes in a call.
fn make_sink(alloc: Global, given: Given<'_>) -> Result<MemorySink, Memory> {
    let failing = Row::from_vec(Vec::from_slice(alloc, &[given.failing.1])?);
    MemorySink::new(alloc, 2000, 7, failing)
}

// The top call over memory, without its clauses, so that no caller carries them.
fn run_over_memory(
    rt: &(impl Threads + Wait + Sync),
    alloc: Global,
    words: &[String],
    source: &mut MemorySource,
    sink: &mut MemorySink,
) -> Outcome {
    run(rt, alloc, words, source, sink, &OpenGate)
}

// How a run over memory ends, and what the sink then holds.
fn perform(
    rt: &(impl Threads + Wait + Sync),
    alloc: Global,
    given: Given<'_>,
) -> Result<(Outcome, MemorySink), Fail> {
    let words = split_words(alloc, given.words)?;
    let mut source = make_source(alloc, given)?;
    let mut sink = make_sink(alloc, given)?;
    let outcome = run_over_memory(rt, alloc, words.as_slice(), &mut source, &mut sink);
    Ok((outcome, sink))
}

// Whether a run ends with that status, no fault and that notice, and this is written.
fn ends(
    rt: &(impl Threads + Wait + Sync),
    alloc: Global,
    given: Given<'_>,
    status: u8,
    written: &str,
    line: &str,
) -> Result<bool, Fail> {
    let (outcome, sink) = perform(rt, alloc, given)?;
    let said = notice(alloc, &outcome)?;
    Ok(
        outcome.status == status
            && matches!(&outcome.fault, Fault::Nothing)
            && sink.bytes() == written.as_bytes()
            && said.as_slice() == line.as_bytes(),
    )
}

// The first read fails, so that it shows where it is made.
#[test]
fn words_that_mean_nothing_are_refused_before_anything_is_read(
    rt: HostRuntime,
) -> Result<(), Fail> {
    for words in [
        "",
        "walk",
        "help sp",
        "sp --workers=0",
        "sp --workers=17",
        "sp --budget=1000001",
        "edf --workers=-1",
        "edf --workers=0",
        "edf --workers=17",
        "edf --budget=1000001",
        "upgrade --workers=2",
        "check --workers 2",
        "bench",
        "bench 1 2",
        "bench x",
        "bench -1",
        "bench 18446744073709551616",
        "bench --workers=0 1",
        "bench --workers=17 1",
        "bench 1 --workers x",
        "bench --budget=5 1",
    ] {
        let given = Given {
            words,
            text: PERIODIC,
            failing: (1, 1),
        };
        assert!(rt;
            ends(&rt, rt.alloc(), given, 5, "", "drt: words refused\n")?,
            "of {words}"
        );
    }
    Ok(())
}

const DOSSIER: &str =
    "drt-dossier 1\npolicy edf\ndrt 1\ntask T\nvertex a 2 5\nedge a a 5\nend\nevidence edf-yes\nratios 1\nratio 2 5\ncycle 1 0\npotentials 1 0\nfronts 1\nfront 0\nclose\n";

#[test]
fn a_failed_read_or_write_has_its_status(rt: HostRuntime) -> Result<(), Fail> {
    let cases = [
        ("sp", PERIODIC, (1u64, 0u64), 6u8, "", "drt: read failed\n"),
        ("sp", PERIODIC, (0, 2), 7, "drt-dos", "drt: write failed\n"),
        ("edf", BRANCHING_LATE, (2, 0), 6, "", "drt: read failed\n"),
        ("check", DOSSIER, (2, 0), 6, "", "drt: read failed\n"),
        (
            "check",
            DOSSIER,
            (0, 2),
            7,
            "schedul",
            "drt: write failed\n",
        ),
        ("check", DOSSIER, (0, 0), 0, "schedulable\n", ""),
    ];
    for (words, text, failing, status, written, line) in cases {
        let given = Given {
            words,
            text,
            failing,
        };
        assert!(rt;
            ends(&rt, rt.alloc(), given, status, written, line)?,
            "{words}: {line}"
        );
    }
    Ok(())
}

#[test]
fn nothing_fails_between_a_sure_source_and_a_sure_sink(rt: HostRuntime) -> Result<(), Fail> {
    let written =
        "drt-dossier 1\npolicy fixed\ndrt 1\ntask T\nvertex a 2 5\nedge a a 5\nend\nevidence fixed-yes\ntrees 0\nproofs 1\nproof 0 0 1 p2\nclose\n";
    assert!(rt; writes(&rt, rt.alloc(), "sp", PERIODIC, &OpenGate, 0, written)?);
    Ok(())
}

// A reader that gives what it has, and then fails or is at its end.
#[derive(Drop)]
struct Fading<'a> {
    rest: &'a [u8],
    fails: bool,
}

impl Read for Fading<'_> {
    fn read(&mut self, buf: &mut [u8]) -> io::Result<usize> {
        if self.rest.is_empty() && self.fails {
            return Err(io::Error::from(io::ErrorKind::BrokenPipe));
        }
        self.rest.read(buf)
    }
}

// The top call from such a reader to a writer without room for it all, without its clauses.
fn run_short(
    rt: &(impl Threads + Wait + Sync),
    alloc: Global,
    words: &[String],
    source: &mut FromRead<Fading<'_>>,
    sink: &mut FromWrite<Cursor<&mut [u8]>>,
) -> Outcome {
    run(rt, alloc, words, source, sink, &OpenGate)
}

// The status of a run of `edf` from such a reader, which writes into this room.
fn fill(
    rt: &(impl Threads + Wait + Sync),
    alloc: Global,
    fails: bool,
    room: &mut [u8],
) -> Result<u8, Fail> {
    let words = split_words(alloc, "edf")?;
    let mut source = FromRead::new(Fading {
        rest: PERIODIC.as_bytes(),
        fails,
    });
    let mut sink = FromWrite::new(Cursor::new(room));
    let outcome = run_short(rt, alloc, words.as_slice(), &mut source, &mut sink);
    Ok(outcome.status)
}

// Whether a run of `edf` from such a reader ends so, with these bytes in a room of 8.
fn is_cut(
    rt: &(impl Threads + Wait + Sync),
    alloc: Global,
    fails: bool,
    status: u8,
    held: &[u8],
) -> Result<bool, Fail> {
    let mut room = [0u8; 8];
    let ended = fill(rt, alloc, fails, room.as_mut_slice())?;
    Ok(ended == status && room.as_slice() == held)
}

#[test]
fn errors_of_the_reader_and_of_the_writer_have_their_status(rt: HostRuntime) -> Result<(), Fail> {
    for (fails, status, held) in [(true, 6u8, b"\0\0\0\0\0\0\0\0"), (false, 7, b"drt-doss")] {
        assert!(rt;
            is_cut(&rt, rt.alloc(), fails, status, held.as_slice())?,
            "status {status}"
        );
    }
    Ok(())
}
