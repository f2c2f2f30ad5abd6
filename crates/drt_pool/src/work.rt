//! Work that is done in turns.

ghost use Rattle.std.specs.Prelude.{ℕ};
ghost use Rattle.drt_pool.specs.Turns.{IsEndOfTurns};

use std::sync::Wait;

/// What a turn answers: that the pass is to be turned again, or that it is at its end.
#[derive(Clone, Copy, Debug, PartialEq, Eq)]
pub enum Turn {
    More,
    Stop,
}

/// Work that is done in turns, each on one pass.
pub trait Work: Sync {
    type Pass: Send;

    // What each turn keeps of the pass at a place.
    ghost fits: { Self → ℕ → Self.Pass → Type 0 };

    // What holds of the pass at a place beside that, once a turn answered Stop.
    ghost ended: { Self → ℕ → Self.Pass → Type 0 };

    /// One turn of a pass.
    fn turn<R: Wait>(&self, rt: &R, pass: &mut Self::Pass) -> Turn
        requires { (place : ℕ) × fits self.now place pass.old }
        ensures fits { (place : ℕ) → fits self.now place pass.old → fits self.now place pass.new }
        ensures ended { (place : ℕ) → fits self.now place pass.old → IsEndOfTurns result → ended self.now place pass.new };
}
