//! A source over bytes in memory, whose reads can be made short and made to fail.
ghost use Rattle.std.specs.Prelude.{◌≡◌, ◌+◌, ◌≤◌, ◌==◌, [], Some, IfOk, OnErr, is_err, length, take, drop, min};
ghost use Rattle.std.specs.List.{list_any};
ghost use Rattle.std.specs.Io.{ReadsAtMost};
ghost use Rattle.std.specs.Io.KnownBytes.{ReadConsumes};
ghost use Rattle.drt_io.specs.Causes.{HasCause, raised};

use crate::device::{Failed, Source};
use crate::pieces::{copy_front, fails_next};
use drt_model::Row;
use std::marker::Model;

/// A source over bytes in memory. It gives at most `piece` bytes in a call, and the calls whose
/// numbers, from 1, stand in `failing` fail, and no others.
#[derive(Debug, Drop)]
pub struct MemorySource {
    bytes: Row<u8>,
    at: usize,
    piece: usize,
    failing: Row<u64>,
    calls: u64,
    faults: u64,
}

impl Model for MemorySource {
    ghost use Rattle.std.specs.Prelude.{◌≤◌, drop, length};
    ghost use Rattle.drt_io.specs.Devices.{Feed};

    ghost Value = { Feed };

    ghost view = { λ s. record { left = drop s.at s.bytes; piece = s.piece; failing = s.failing; calls = s.calls; faults = s.faults } };

    ghost invariant = { λ s. (s.at ≤ length s.bytes) × (1 ≤ s.piece) };
}

impl MemorySource {
    /// A source that gives these bytes.
    pub fn new(bytes: Row<u8>, piece: usize, failing: Row<u64>) -> MemorySource
        requires { 1 ≤ piece }
        ensures { result ≡ record { left = bytes; piece = piece; failing = failing; calls = 0; faults = 0 } }
    {
        MemorySource {
            bytes,
            at: 0,
            piece,
            failing,
            calls: 0,
            faults: 0,
        }
    }
}

impl Source for MemorySource {
    ghost left = { λ s. Some s.left };

    ghost faults = { λ s. s.faults };

    fn read(&mut self, into: &mut [u8]) -> Result<usize, Failed>
        ensures bound { ReadsAtMost result into.new }
        ensures bytes { ReadConsumes (Some self.old.left) (Some self.new.left) result into.new }
        ensures cause { HasCause self.old.faults self.new.faults result }
        ensures fails { is_err result ≡ list_any (λ k. k == self.old.calls + 1) self.old.failing }
        ensures gives { IfOk result (λ n. n ≡ min self.old.piece (min (length into.old) (length self.old.left))) }
        ensures calls { self.new.calls ≡ raised self.old.calls }
        ensures same { (self.new.piece ≡ self.old.piece) × (self.new.failing ≡ self.old.failing) }
    {
        let number = self.calls;
        self.calls = number.saturating_add(1);
        if fails_next(self.failing.as_slice(), number) {
            self.faults = self.faults.saturating_add(1);
            return Err(Failed);
        }
        let count = copy_front(into, &self.bytes.as_slice()[self.at..], self.piece);
        self.at += count;
        Ok(count)
    }
}
