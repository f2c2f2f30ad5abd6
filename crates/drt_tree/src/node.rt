//! A node of a tree.
use drt_model::Row;

/// A node but for its function: its children, of which each has a smaller number; the number of leaves under it; and
/// for a leaf its walk, which is empty for a pair.
#[derive(Drop)]
pub struct Node {
    pub children: Option<(u32, u32)>,
    pub leaves: u32,
    pub walk: Row<u32>,
}
