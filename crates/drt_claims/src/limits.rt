//! The limits of the numbers of a dossier.

/// The greatest number of a vertex, a task, a job or a place, and the greatest count.
pub const MOST_NUMBER: u64 = 4_294_967_295;

/// The greatest offset, time, need or deadline, in ticks.
pub const MOST_TICKS: u64 = 1_000_000_000_000_000_000;

/// The greatest work, in ticks.
pub const MOST_WORK: u64 = 2_000_000_000_000_000_000;

/// The greatest numerator and denominator of a ratio.
pub const MOST_PART: u64 = 1_000_000_000;
