//! What a source and a sink of bytes promise, whatever stands behind them.
ghost use Rattle.std.specs.Prelude.{ℕ, List, Option};
ghost use Rattle.std.specs.Io.{ReadsAtMost, WritesAtMost};
ghost use Rattle.std.specs.Io.KnownBytes.{ReadConsumes};
ghost use Rattle.drt_io.specs.Causes.{HasCause};
ghost use Rattle.drt_io.specs.Writing.{MovesOn, WriteGrows};

/// A read or a write failed.
#[derive(Clone, Copy, Debug, PartialEq, Eq)]
pub struct Failed;

/// Where bytes come from. It has two meanings: `left`, the bytes that it still gives, where it
/// tells them, and `faults`, a count of 64 bits that never falls.
pub trait Source {
    ghost left: { Self → Option (List ℕ) };

    ghost faults: { Self → ℕ };

    /// Gives bytes into the front of `into` and says how many. `Ok(0)` into a non-empty `into` is
    /// the end of input. `Failed` comes only where `faults` rose in this call.
    fn read(&mut self, into: &mut [u8]) -> Result<usize, Failed>
        ensures bound { ReadsAtMost result into.new }
        ensures bytes { ReadConsumes (left self.old) (left self.new) result into.new }
        ensures cause { HasCause (faults self.old) (faults self.new) result };
}

/// Where bytes go to. It has two meanings: `held`, the bytes that it has taken, where it tells
/// them, and `faults`, a count of 64 bits that never falls.
pub trait Sink {
    ghost held: { Self → Option (List ℕ) };

    ghost faults: { Self → ℕ };

    /// Takes bytes from the front of `piece`, at least one where there is one, and says how many.
    /// `Failed` comes only where `faults` rose in this call.
    fn write(&mut self, piece: &[u8]) -> Result<usize, Failed>
        ensures bound { WritesAtMost result piece.now }
        ensures progress { MovesOn result piece.now }
        ensures bytes { WriteGrows (held self.old) (held self.new) result piece.now }
        ensures cause { HasCause (faults self.old) (faults self.new) result };
}
