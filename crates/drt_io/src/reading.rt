//! Reading to the end of input.
ghost use Rattle.std.specs.Prelude.{◌≡◌, ◌≤◌, IfOk, IfSome, OnOk, length, Err};
ghost use Rattle.std.specs.Io.KnownBytes.{IsAtEnd};
ghost use Rattle.drt_io.specs.Causes.{HasCause, Rose};
ghost use Rattle.drt_io.specs.Reading.{TakesWithin};

use crate::device::Source;
use drt_model::Row;
use std::alloc::Global;

/// Why reading to the end of input didn't come to the end.
#[derive(Clone, Copy, Debug, PartialEq, Eq)]
pub enum ReadEnd {
    /// A read failed.
    Failed,
    /// There is more input than the limit allows.
    TooLong,
    /// There is no memory for the bytes.
    Memory,
}

// The most bytes that one read asks for.
const PIECE: usize = 8192;

/// Reads to the end of input, which may be at most `limit` bytes away. It takes at most one byte
/// more than the limit from the source.
pub fn read_all<S: Source>(alloc: Global, source: &mut S, limit: u64) -> Result<Row<u8>, ReadEnd>
    ensures all { IfOk result (λ bytes. IfSome (S.left source.old) (λ left. bytes ≡ left)) }
    ensures end { OnOk result (IsAtEnd (S.left source.new)) }
    ensures short { IfOk result (λ bytes. length bytes ≤ limit) }
    ensures taken { TakesWithin limit (S.left source.old) (S.left source.new) result }
    ensures failed { result ≡ Err ReadEnd.Failed → Rose (S.faults source.old) (S.faults source.new) }
    ensures later { S.faults source.old ≤ S.faults source.new }
{
    let mut bytes = Vec::new(alloc);
    let mut buffer = [0u8; PIECE];
    loop {
        let room = limit - bytes.len() as u64;
        let most = room.saturating_add(1).min(PIECE as u64) as usize;
        let count = match source.read(&mut buffer[..most]) {
            Ok(count) => count,
            Err(_) => return Err(ReadEnd::Failed),
        };
        if count == 0 {
            return Ok(Row::from_vec(bytes));
        }
        if count as u64 > room {
            return Err(ReadEnd::TooLong);
        }
        if bytes.extend_from_slice(&buffer[..count]).is_err() {
            return Err(ReadEnd::Memory);
        }
    }
}
