//! Draws of numbers.
ghost use Rattle.std.specs.Prelude.{◌≡◌, ◌<◌};
ghost use Rattle.drt_gen.specs.Draws.{draw, state_after};

use std::marker::Model;

// The multiplier and the increment of the generator, those of Knuth's MMIX.
const MULTIPLIER: u64 = 6_364_136_223_846_793_005;

const INCREMENT: u64 = 1_442_695_040_888_963_407;

// The state of a generator. Contracts see it as its number.
#[derive(Debug, Drop)]
pub(crate) struct Draws {
    state: u64,
}

impl Model for Draws {
    ghost use Rattle.std.specs.Prelude.{ℕ};

    ghost Value = { ℕ };

    ghost view = { λ d. d.state };
}

impl Draws {
    // Draws that begin at a number.
    pub(crate) fn new(number: u64) -> Draws
        ensures { result ≡ number }
    {
        Draws { state: number }
    }

    // The next draw, among so many values from 0 on.
    pub(crate) fn draw(&mut self, many: u32) -> u32
        requires { 0 < many }
        ensures value { result ≡ draw self.old 0 many }
        ensures state { self.new ≡ state_after self.old 1 }
        ensures below { result < many }
    {
        self.state = self.state.wrapping_mul(MULTIPLIER).wrapping_add(INCREMENT);
        ((self.state >> 33) % u64::from(many)) as u32
    }
}
