//! Entries of fronts.

/// A label of a front: the last vertex of a walk, the sum of its separations in ticks, and the sum of its execution times in ticks.
#[derive(Debug, Drop, Clone, Copy, PartialEq, Eq)]
pub struct FrontEntry {
    pub vertex: u32,
    pub offset: u64,
    pub work: u64,
}
