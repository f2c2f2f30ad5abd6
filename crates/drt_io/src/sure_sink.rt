//! A sink into memory that never fails.
ghost use Rattle.std.specs.Prelude.{◌≡◌, ◌+◌, ◌-◌, ◌^◌, ◌++◌, [], Ok, IfOk, length, take, min};
ghost use Rattle.std.specs.Io.{WritesAtMost};
ghost use Rattle.drt_io.specs.Causes.{HasCause};
ghost use Rattle.drt_io.specs.Devices.{told};
ghost use Rattle.drt_io.specs.Writing.{MovesOn, WriteGrows};

use crate::device::{Failed, Sink};
use crate::pieces::append;
use drt_model::Memory;
use std::alloc::Global;
use std::marker::Model;

/// A sink with room for so many bytes. Its `faults` is the constant 0, so it never fails. It
/// tells `held` until bytes come for which there is no room; these are counted and given up.
#[derive(Debug, Drop)]
pub struct SureSink {
    held: Vec<u8>,
    room: usize,
    lost: u64,
}

impl Model for SureSink {
    ghost use Rattle.std.specs.Prelude.{◌≤◌, vec_capacity, vec_len};
    ghost use Rattle.drt_io.specs.Devices.{KeptBytes};

    ghost Value = { KeptBytes };

    ghost view = { λ s. record { bytes = s.held.items; room = s.room; lost = s.lost } };

    ghost invariant = { λ s. (vec_len s.held ≤ s.room) × (s.room ≤ vec_capacity s.held) };
}

impl SureSink {
    /// A sink with room for so many bytes, which it takes at once.
    pub fn with_room(alloc: Global, bytes: usize) -> Result<SureSink, Memory>
        ensures { IfOk result (λ s. s ≡ record { bytes = []; room = bytes; lost = 0 }) }
    {
        let held = Vec::with_capacity(alloc, bytes)?;
        Ok(SureSink {
            held,
            room: bytes,
            lost: 0,
        })
    }

    /// The bytes in its room: all that it has taken, as long as there was room for them.
    pub fn bytes(&self) -> &[u8]
        ensures { result.now ≡ self.now.bytes }
    {
        self.held.as_slice()
    }
}

impl Sink for SureSink {
    ghost held = { told };

    ghost faults = { λ _. 0 };

    fn write(&mut self, piece: &[u8]) -> Result<usize, Failed>
        ensures bound { WritesAtMost result piece.now }
        ensures progress { MovesOn result piece.now }
        ensures bytes { WriteGrows (told self.old) (told self.new) result piece.now }
        ensures cause { HasCause 0 0 result }
        ensures sure { result ≡ Ok (length piece.now) }
        ensures kept { self.new.bytes ≡ take self.old.room (self.old.bytes ++ piece.now) }
        ensures lost { self.new.lost ≡ min (self.old.lost + (length piece.now - (self.old.room - length self.old.bytes))) (2 ^ 64 - 1) }
        ensures room { self.new.room ≡ self.old.room }
    {
        let free = self.room - self.held.len();
        let count = free.min(piece.len());
        append(&mut self.held, &piece[..count]);
        self.lost = self.lost.saturating_add((piece.len() - count) as u64);
        Ok(piece.len())
    }
}
