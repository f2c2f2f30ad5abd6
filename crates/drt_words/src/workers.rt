//! How many workers take part.
ghost use Rattle.std.specs.Prelude.{◌≡◌, ◌≤◌};
ghost use Rattle.drt_effort.specs.Efforts.{most_workers};

use std::marker::Model;

/// How many workers search, 1 to 16. Contracts see it as its number.
#[derive(Debug, Drop)]
pub struct Workers {
    count: u32,
}

impl Model for Workers {
    ghost use Rattle.std.specs.Prelude.{ℕ};
    ghost use Rattle.drt_effort.specs.Efforts.{IsWorkers};

    ghost Value = { ℕ };

    ghost view = { λ w. w.count };

    ghost invariant = { λ w. IsWorkers w.count };
}

impl Workers {
    /// So many workers.
    pub fn new(count: u32) -> Workers
        requires some { 1 ≤ count }
        requires few { count ≤ most_workers }
        ensures { result ≡ count }
    {
        Workers { count }
    }

    /// How many they are.
    pub fn count(&self) -> u32
        ensures is { result ≡ self.now }
        ensures some { 1 ≤ result }
        ensures few { result ≤ most_workers }
    {
        self.count
    }
}
