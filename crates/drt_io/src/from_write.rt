//! Standard writers as sinks.
ghost use Rattle.std.specs.Prelude.{◌≡◌};
ghost use Rattle.std.specs.Io.{WritesAtMost};
ghost use Rattle.drt_io.specs.Writing.{MovesOn, WriteGrows};

use crate::device::{Failed, Sink};
use crate::steady::Steady;
use std::io::Write;
use std::marker::Model;

/// A writer of std as a sink, flushed after each write. It tells the bytes that the writer tells.
/// Each error of the writer and of a flush, and each write that takes nothing of a non-empty
/// piece, raises its count of faults. Bytes whose flush failed count as not taken, and nothing
/// more is written after them.
#[derive(Drop)]
pub struct FromWrite<W: Steady + Drop> {
    writer: W,
    unflushed: usize,
    faults: u64,
}

impl<W: Steady + Drop> Model for FromWrite<W> {
    ghost use Rattle.drt_io.specs.Devices.{Outflow, without_last};

    ghost Value = { Outflow };

    ghost view = { λ s. record { held = without_last s.unflushed (W.contents s.writer); faults = s.faults } };
}

impl<W: Steady + Drop> FromWrite<W> {
    /// A sink that writes to the writer.
    pub fn new(writer: W) -> FromWrite<W>
        ensures { result ≡ record { held = W.contents writer; faults = 0 } }
    {
        FromWrite {
            writer,
            unflushed: 0,
            faults: 0,
        }
    }

    // A write and the flush after it.
    fn write_out(&mut self, piece: &[u8]) -> Result<usize, Failed>
        ensures bound { WritesAtMost result piece.now }
        ensures progress { MovesOn result piece.now }
        ensures bytes { WriteGrows self.old.held self.new.held result piece.now }
        ensures same { self.new.faults ≡ self.old.faults }
    {
        if self.unflushed > 0 {
            return Err(Failed);
        }
        let count = match self.writer.write(piece) {
            Ok(count) => count,
            Err(_) => return Err(Failed),
        };
        if count == 0 && !piece.is_empty() {
            return Err(Failed);
        }
        match self.writer.flush() {
            Ok(()) => Ok(count),
            Err(_) => {
                self.unflushed = count;
                Err(Failed)
            }
        }
    }
}

impl<W: Steady + Drop> Sink for FromWrite<W> {
    ghost held = { λ s. s.held };

    ghost faults = { λ s. s.faults };

    fn write(&mut self, piece: &[u8]) -> Result<usize, Failed> {
        match self.write_out(piece) {
            Ok(count) => Ok(count),
            Err(failed) => {
                self.faults = self.faults.saturating_add(1);
                Err(failed)
            }
        }
    }
}
