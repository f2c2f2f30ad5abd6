//! Canonical texts at the front of files, by hand.
use drt_file::{CanonicalError, print, read_canonical};
use drt_model::{Memory, TaskSet};
use std::alloc::Global;
use std::test::Fail;

// A task of two vertices with an edge each way, and one of one vertex and no edge.
pub(crate) const TWO_TASKS: &[u8] =
    b"drt 2\ntask A\npriority 7\nvertex a 1 10\nvertex b_2 20 300\nedge a b_2 15\nedge b_2 a 400\ntask B-1\npriority 1000000\nvertex x 1000000 1000000\nend\n";

// Whether a file has this fault: its line, and whether that line is missing; line 0 for none.
fn has_fault(alloc: Global, text: &[u8], line: u32, missing: bool) -> bool {
    if text.len() > 100_000 {
        return false;
    }
    match read_canonical(alloc, text) {
        Ok(_) => line == 0,
        Err(
            CanonicalError::Fault {
                line: at,
                missing: cut,
            },
        ) => at == line && cut == missing,
        Err(CanonicalError::Memory) => false,
    }
}

fn two_tasks_before(alloc: Global, tail: &[u8]) -> Result<Vec<u8>, Memory> {
    let mut bytes = Vec::from_slice(alloc, TWO_TASKS)?;
    bytes.extend_from_slice(tail)?;
    Ok(bytes)
}

fn is_two_tasks(alloc: Global, set: &TaskSet) -> Result<bool, Memory> {
    Ok(set.version() == 2 && set.tasks().len() == 2 && print(alloc, set)?.as_slice() == TWO_TASKS)
}

// Whether the text of two tasks is read in front of these bytes, and no more.
fn is_read_before(alloc: Global, tail: &[u8]) -> Result<bool, Fail> {
    let bytes = two_tasks_before(alloc, tail)?;
    if bytes.as_slice().len() > 1000 {
        return Ok(false);
    }
    let front = read_canonical(alloc, bytes.as_slice())?;
    Ok(front.length == 140 && is_two_tasks(alloc, &front.set)?)
}

#[test]
fn the_text_at_the_front_is_read_whatever_follows(rt: HostRuntime) -> Result<(), Fail> {
    let tails = [
        b"".as_slice(),
        b"\n".as_slice(),
        b"plan\xff".as_slice(),
        b"drt 1\ntask T\nvertex a 2 5\nend\n".as_slice(),
    ];
    for tail in tails {
        assert!(rt; is_read_before(rt.alloc(), tail)?);
    }
    Ok(())
}

#[test]
fn wherever_a_text_is_cut_its_next_line_is_missing(rt: HostRuntime) {
    let mut line = 1;
    for (i, b) in TWO_TASKS.iter().enumerate() {
        assert!(rt; has_fault(rt.alloc(), &TWO_TASKS[..i], line, true));
        if *b == b'\n' && line < 1000 {
            line += 1;
        }
    }
    assert_eq!(rt; line, 12);
}

#[test]
fn a_line_without_its_feed_is_missing_and_another_is_unfit(rt: HostRuntime) {
    let texts = [
        (b"drt 1".as_slice(), 1, true),
        (b"\xff".as_slice(), 1, true),
        (b"drt 3\n".as_slice(), 1, false),
        (b"drt 1\ndrt 1\n".as_slice(), 2, false),
        (b"drt 1\ntask T\nend\n\xff".as_slice(), 3, false),
        (b"drt 1\ntask T\nvertex a 2 5\nend".as_slice(), 4, true),
        (b"drt 1\ntask T\nvertex a 2 5\nend\n".as_slice(), 0, false),
        (b"drt 1\ntask T\nvertex a 2 5\nend \n".as_slice(), 4, false),
        (b"drt 1\ntask T\nvertex a 2 5\ntask U\n".as_slice(), 5, true),
    ];
    for (text, line, missing) in texts {
        assert!(rt; has_fault(rt.alloc(), text, line, missing));
    }
}
