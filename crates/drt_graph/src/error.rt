//! Why a set has no graphs.
use thiserror::Error;

/// Why a set has no graphs.
#[derive(Debug, Drop, Error)]
pub enum GraphError {
    /// The separation of this edge of this task is below the deadline of its source, and it is the first such edge in
    /// order of tasks and then of edges.
    #[error("task {task}: edge {edge}: the deadline of its source is past its separation")]
    DeadlinePastSeparation { task: u32, edge: u32 },
    /// No memory was to be had.
    #[error("out of memory")]
    Memory,
}
