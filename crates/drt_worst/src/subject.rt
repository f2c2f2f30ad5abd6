//! What a search is over.
use drt_tree::Forest;

/// A forest, and the wcet and the deadline of a vertex, in ticks.
#[derive(Clone, Copy)]
pub(crate) struct Subject<'a> {
    pub(crate) forest: &'a Forest,
    pub(crate) wcet: u32,
    pub(crate) deadline: u32,
}
