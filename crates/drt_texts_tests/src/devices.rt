//! Sources and sinks over memory.
use drt_io::{MemorySink, MemorySource, ReadEnd, SureSink, SureSource, read_all, write_all};
use drt_model::{Memory, Row};
use std::alloc::Global;
use std::test::Fail;

// The bytes 0, 1, 2, ..
const BYTES: [u8; 24] = [
    0, 1, 2, 3, 4, 5, 6, 7, 8, 9, 10, 11, 12, 13, 14, 15, 16, 17, 18, 19, 20, 21, 22, 23,
];

// So many of them.
fn counting(count: usize) -> &'static [u8] {
    &BYTES[..count.min(24)]
}

// A row of so many of them.
fn counted(alloc: Global, count: usize) -> Result<Row<u8>, Memory> {
    Ok(Row::from_vec(Vec::from_slice(alloc, counting(count))?))
}

fn numbers(alloc: Global, number: u64) -> Result<Row<u64>, Memory> {
    Ok(Row::from_vec(Vec::from_slice(alloc, &[number])?))
}

// Whether reading so many bytes by pieces, where the read of this number fails, ends so: with how many bytes, or why not.
fn is_read(
    alloc: Global,
    count: usize,
    failing: u64,
    limit: u64,
    wanted: Result<usize, ReadEnd>,
) -> Result<bool, Memory> {
    let mut source = MemorySource::new(counted(alloc, count)?, 7, numbers(alloc, failing)?);
    match read_all(alloc, &mut source, limit) {
        Ok(all) => Ok(wanted == Ok(all.as_slice().len())),
        Err(end) => Ok(wanted == Err(end)),
    }
}

// 24 bytes in pieces of 7 are four reads and one that finds the end.
#[test]
fn reading_ends_at_the_limit_and_at_a_failing_read(rt: HostRuntime) -> Result<(), Fail> {
    let cases = [
        (10usize, 0u64, 10u64, Ok(10usize)),
        (11, 0, 10, Err(ReadEnd::TooLong)),
        (24, 1, 100, Err(ReadEnd::Failed)),
        (24, 2, 100, Err(ReadEnd::Failed)),
        (24, 3, 100, Err(ReadEnd::Failed)),
        (24, 4, 100, Err(ReadEnd::Failed)),
        (24, 5, 100, Err(ReadEnd::Failed)),
        (24, 6, 100, Ok(24)),
    ];
    for (count, failing, limit, wanted) in cases {
        assert!(rt;
            is_read(rt.alloc(), count, failing, limit, wanted)?,
            "{count} bytes, read {failing}"
        );
    }
    Ok(())
}

// Whether writing 24 bytes by pieces of 7 into this room ends so, and the sink then has the first of them.
fn is_written(
    alloc: Global,
    room: usize,
    failing: u64,
    is_whole: bool,
    held: usize,
) -> Result<bool, Fail> {
    let mut sink = MemorySink::new(alloc, room, 7, numbers(alloc, failing)?)?;
    let found = write_all(&mut sink, &BYTES);
    Ok(found.is_ok() == is_whole && sink.bytes() == counting(held))
}

#[test]
fn a_failing_write_and_a_full_room_leave_the_pieces_before_them(
    rt: HostRuntime,
) -> Result<(), Fail> {
    let cases = [
        (100usize, 1u64, false, 0usize),
        (100, 2, false, 7),
        (100, 3, false, 14),
        (100, 4, false, 21),
        (100, 5, true, 24),
        (10, 0, false, 10),
    ];
    for (room, failing, is_whole, held) in cases {
        assert!(rt;
            is_written(rt.alloc(), room, failing, is_whole, held)?,
            "room {room}, write {failing}"
        );
    }
    Ok(())
}

// Whether a sure sink with room for 10 bytes takes 24 from a sure source, and holds the first 10.
fn is_sure(alloc: Global) -> Result<bool, Fail> {
    let mut source = SureSource::new(counted(alloc, 24)?);
    let all = read_all(alloc, &mut source, 24).ok().ok_or("read")?;
    let mut sink = SureSink::with_room(alloc, 10)?;
    let found = write_all(&mut sink, all.as_slice());
    Ok(found.is_ok() && sink.bytes() == counting(10))
}

#[test]
fn a_sure_sink_gives_up_what_has_no_room(rt: HostRuntime) -> Result<(), Fail> {
    assert!(rt; is_sure(rt.alloc())?);
    Ok(())
}
