//! Marks.

/// What the label of a walk has beside its last vertex: the sum of the walk's separations and the sum of its execution times, in ticks.
#[derive(Debug, Drop, Clone, Copy, PartialEq, Eq)]
pub struct Mark {
    pub offset: u64,
    pub work: u64,
}
