//! A vertex that words name.
use drt_model::Name;

/// A vertex, as words name it: by the name of its task and by its own. Either is any text that stands as a word, so no such vertex
/// need be there.
#[derive(Debug, Drop)]
pub struct Spot {
    /// The task's name.
    pub task: Name,
    /// The vertex's name.
    pub vertex: Name,
}
