//! Standard readers as sources.
ghost use Rattle.std.specs.Prelude.{◌≡◌};

use crate::device::{Failed, Source};
use std::io::Read;
use std::marker::Model;

/// A reader of std as a source. It tells the bytes that the reader tells, and each error of the
/// reader raises its count of faults.
#[derive(Drop)]
pub struct FromRead<R: Read + Drop> {
    reader: R,
    faults: u64,
}

impl<R: Read + Drop> Model for FromRead<R> {
    ghost use Rattle.drt_io.specs.Devices.{Inflow};

    ghost Value = { Inflow };

    ghost view = { λ s. record { left = R.remaining s.reader; faults = s.faults } };
}

impl<R: Read + Drop> FromRead<R> {
    /// A source that reads from the reader.
    pub fn new(reader: R) -> FromRead<R>
        ensures { result ≡ record { left = R.remaining reader; faults = 0 } }
    {
        FromRead { reader, faults: 0 }
    }
}

impl<R: Read + Drop> Source for FromRead<R> {
    ghost left = { λ s. s.left };

    ghost faults = { λ s. s.faults };

    fn read(&mut self, into: &mut [u8]) -> Result<usize, Failed> {
        match self.reader.read(into) {
            Ok(count) => Ok(count),
            Err(_) => {
                self.faults = self.faults.saturating_add(1);
                Err(Failed)
            }
        }
    }
}
