//! A question to a tree.

/// A question: the value of a node of a tree at a time, in ticks.
#[derive(Debug, Drop, Clone, Copy, PartialEq, Eq)]
pub struct Query {
    pub node: u32,
    pub time: u32,
}
