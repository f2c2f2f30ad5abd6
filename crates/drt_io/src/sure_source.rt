//! A source over bytes in memory that never fails.
ghost use Rattle.std.specs.Prelude.{◌≡◌, Some, Ok, length, min};
ghost use Rattle.std.specs.Io.{ReadsAtMost};
ghost use Rattle.std.specs.Io.KnownBytes.{ReadConsumes};
ghost use Rattle.drt_io.specs.Causes.{HasCause};

use crate::device::{Failed, Source};
use crate::pieces::copy_front;
use drt_model::Row;
use std::marker::Model;

/// A source over bytes in memory. Its `faults` is the constant 0, so it never fails. Contracts
/// see it as the bytes that it has left.
#[derive(Debug, Drop)]
pub struct SureSource {
    bytes: Row<u8>,
    at: usize,
}

impl Model for SureSource {
    ghost use Rattle.std.specs.Prelude.{◌≤◌, List, ℕ, drop, length};

    ghost Value = { List ℕ };

    ghost view = { λ s. drop s.at s.bytes };

    ghost invariant = { λ s. s.at ≤ length s.bytes };
}

impl SureSource {
    /// A source that gives these bytes.
    pub fn new(bytes: Row<u8>) -> SureSource
        ensures { result ≡ bytes }
    {
        SureSource { bytes, at: 0 }
    }
}

impl Source for SureSource {
    ghost left = { λ s. Some s };

    ghost faults = { λ _. 0 };

    fn read(&mut self, into: &mut [u8]) -> Result<usize, Failed>
        ensures bound { ReadsAtMost result into.new }
        ensures bytes { ReadConsumes (Some self.old) (Some self.new) result into.new }
        ensures cause { HasCause 0 0 result }
        ensures sure { result ≡ Ok (min (length into.old) (length self.old)) }
    {
        let from = &self.bytes.as_slice()[self.at..];
        let count = copy_front(into, from, from.len());
        self.at += count;
        Ok(count)
    }
}
