//! What a command reads.
use drt_outcome::Fault;

/// What a command reads.
#[derive(Debug, Drop)]
pub enum Input {
    /// Nothing at all.
    Nothing,
    /// All of its input, which has at most so many bytes; a longer one has this fault.
    AtMost { bytes: u64, longer: Fault },
}
