//! Drawn numbers.
ghost use Rattle.std.specs.Prelude.{◌<◌};

/// Numbers by a linear congruential generator.
#[derive(Drop)]
pub struct Draws {
    pub state: u64,
}

impl Draws {
    /// A number below another.
    pub fn below(&mut self, end: u32) -> u32
        requires { 0 < end }
        ensures { result < end }
    {
        self.state = self
            .state
            .wrapping_mul(6364136223846793005)
            .wrapping_add(1442695040888963407);
        ((self.state >> 33) % end as u64) as u32
    }
}
