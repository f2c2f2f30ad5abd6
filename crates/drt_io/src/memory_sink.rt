//! A sink into memory, whose writes can be made short and made to fail.
ghost use Rattle.std.specs.Prelude.{◌≡◌, ◌+◌, ◌-◌, ◌≤◌, ◌==◌, ◌||◌, ◌&&◌, not, nat_lt, [], Some, IfOk, OnErr, is_err, length, take, drop, min};
ghost use Rattle.std.specs.List.{list_any};
ghost use Rattle.std.specs.Io.{WritesAtMost};
ghost use Rattle.drt_io.specs.Causes.{HasCause, raised};
ghost use Rattle.drt_io.specs.Writing.{MovesOn, WriteGrows};

use crate::device::{Failed, Sink};
use crate::pieces::{append, fails_next};
use drt_model::{Memory, Row};
use std::alloc::Global;
use std::marker::Model;

/// A sink into memory with room for so many bytes. It takes at most `piece` bytes in a call. The
/// calls that fail are exactly those whose numbers, from 1, stand in `failing` and those with a
/// non-empty piece that find the room full.
#[derive(Debug, Drop)]
pub struct MemorySink {
    held: Vec<u8>,
    room: usize,
    piece: usize,
    failing: Row<u64>,
    calls: u64,
    faults: u64,
}

impl Model for MemorySink {
    ghost use Rattle.std.specs.Prelude.{◌≤◌, vec_capacity, vec_len};
    ghost use Rattle.drt_io.specs.Devices.{Store};

    ghost Value = { Store };

    ghost view = { λ s. record { held = s.held.items; room = s.room; piece = s.piece; failing = s.failing; calls = s.calls; faults = s.faults } };

    ghost invariant = { λ s. (vec_len s.held ≤ s.room) × (s.room ≤ vec_capacity s.held) × (1 ≤ s.piece) };
}

impl MemorySink {
    /// A sink that holds nothing yet. It takes its room at once.
    pub fn new(
        alloc: Global,
        room: usize,
        piece: usize,
        failing: Row<u64>,
    ) -> Result<MemorySink, Memory>
        requires { 1 ≤ piece }
        ensures { IfOk result (λ s. s ≡ record { held = []; room = room; piece = piece; failing = failing; calls = 0; faults = 0 }) }
    {
        let held = Vec::with_capacity(alloc, room)?;
        Ok(MemorySink {
            held,
            room,
            piece,
            failing,
            calls: 0,
            faults: 0,
        })
    }

    /// The bytes that it holds.
    pub fn bytes(&self) -> &[u8]
        ensures { result.now ≡ self.now.held }
    {
        self.held.as_slice()
    }
}

impl Sink for MemorySink {
    ghost held = { λ s. Some s.held };

    ghost faults = { λ s. s.faults };

    fn write(&mut self, piece: &[u8]) -> Result<usize, Failed>
        ensures bound { WritesAtMost result piece.now }
        ensures progress { MovesOn result piece.now }
        ensures bytes { WriteGrows (Some self.old.held) (Some self.new.held) result piece.now }
        ensures cause { HasCause self.old.faults self.new.faults result }
        ensures fails { is_err result ≡ (list_any (λ k. k == self.old.calls + 1) self.old.failing || (nat_lt 0 (length piece.now) && (length self.old.held == self.old.room))) }
        ensures takes { IfOk result (λ n. n ≡ min self.old.piece (min (self.old.room - length self.old.held) (length piece.now))) }
        ensures calls { self.new.calls ≡ raised self.old.calls }
        ensures same { (self.new.piece ≡ self.old.piece) × (self.new.failing ≡ self.old.failing) × (self.new.room ≡ self.old.room) }
    {
        let number = self.calls;
        self.calls = number.saturating_add(1);
        let is_full = !piece.is_empty() && self.held.len() == self.room;
        if fails_next(self.failing.as_slice(), number) || is_full {
            self.faults = self.faults.saturating_add(1);
            return Err(Failed);
        }
        let free = self.room - self.held.len();
        let count = self.piece.min(free.min(piece.len()));
        append(&mut self.held, &piece[..count]);
        Ok(count)
    }
}
