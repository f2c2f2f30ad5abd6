//! What is said of a set before its demand is searched.
use thiserror::Error;

/// How the utilisation of a set stands to one, and the horizon, in ticks, where it is below.
#[derive(Drop, Clone, Copy, Debug, PartialEq, Eq)]
pub enum Horizon {
    /// The utilisation is below one. No time past the bound has too much demand.
    Under { bound: u64 },
    /// The utilisation is one.
    One,
    /// The utilisation is above one.
    Over,
}

/// A set whose numbers are out of reach.
#[derive(Drop, Clone, Copy, Debug, PartialEq, Eq, Error)]
pub enum Beyond {
    /// The least common multiple of the denominators of the ratios exceeds 2^60.
    #[error("the ratios have no common scale of at most 2^60")]
    TooFine,
    /// The horizon exceeds 2^40.
    #[error("the horizon exceeds 2^40")]
    TooFar,
}

/// How the search for an overload ended, with a time in ticks.
#[derive(Drop, Clone, Copy, Debug, PartialEq, Eq)]
pub enum Over {
    /// The least step time with too much work.
    Found(u64),
    /// The budget is spent, and this was the last step time.
    Spent(u64),
}
