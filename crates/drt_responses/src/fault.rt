//! Why no responses are read.
use thiserror::Error;

/// Why no responses are read.
#[derive(Debug, Clone, Copy, PartialEq, Eq, Error)]
pub enum ResponseError {
    /// The bytes are the text of no responses, and stop being one at this line, counted from 1.
    #[error("line {line}: no line of a text of responses")]
    Fault { line: u32 },
    /// There is no memory for the responses.
    #[error("out of memory")]
    Memory,
}
