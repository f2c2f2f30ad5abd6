//! How many workers search, and how many steps each search may take.
#![tactic(auto)]

ghost use Rattle.std.specs.Prelude.{◌≡◌, ◌≤◌};
ghost use Rattle.drt_effort.specs.Efforts.{AreNumbersInRange, most_budget, most_workers};

use std::marker::Model;

/// The most workers of a search.
pub const MOST_WORKERS: u32 = 16;

/// The most steps that a search may take.
pub const MOST_BUDGET: u32 = 1_000_000;

/// How many workers search, 1 to 16, and how many steps each search may take, 1 to 1,000,000.
#[derive(Clone, Copy, Debug, Drop)]
pub struct Effort {
    workers: u32,
    budget: u64,
}

impl Model for Effort {
    ghost use Rattle.drt_effort.specs.Efforts.{AreNumbersInRange, Numbers};

    ghost Value = { Numbers };

    ghost view = { λ e. record { workers = e.workers; budget = e.budget } };

    ghost invariant = { λ e. AreNumbersInRange (record { workers = e.workers; budget = e.budget }) };

    ghost inverse = { λ n. record { workers = n.workers; budget = n.budget } };
}

impl Effort {
    /// So many workers, and so many steps for each search.
    pub fn new(workers: u32, budget: u64) -> Effort
        requires some_workers { 1 ≤ workers }
        requires few_workers { workers ≤ most_workers }
        requires some_steps { 1 ≤ budget }
        requires few_steps { budget ≤ most_budget }
        ensures { result ≡ record { workers = workers; budget = budget } }
    {
        Effort { workers, budget }
    }

    /// The workers.
    pub fn workers(&self) -> u32
        ensures is { result ≡ self.now.workers }
        ensures some { 1 ≤ result }
        ensures few { result ≤ most_workers }
    {
        self.workers
    }

    /// The steps.
    pub fn budget(&self) -> u64
        ensures is { result ≡ self.now.budget }
        ensures some { 1 ≤ result }
        ensures few { result ≤ most_budget }
    {
        self.budget
    }

    /// As many workers, and at most so many steps.
    pub fn at_most(&self, steps: u64) -> Effort
        requires { 1 ≤ steps }
        ensures workers { result.workers ≡ self.now.workers }
        ensures cut { result.budget ≤ steps }
        ensures less { result.budget ≤ self.now.budget }
        ensures whole { self.now.budget ≤ steps → result.budget ≡ self.now.budget }
    {
        Effort {
            workers: self.workers,
            budget: self.budget.min(steps),
        }
    }

    /// One worker, and as many steps.
    pub fn alone(&self) -> Effort
        ensures { result ≡ record { workers = 1; budget = self.now.budget } }
    {
        Effort {
            workers: 1,
            budget: self.budget,
        }
    }

    /// Does nothing: both numbers keep their bounds.
    pub fn keep_bounds(&self)
        ensures { AreNumbersInRange self.now }
    {
        let _workers = self.workers;
    }
}
