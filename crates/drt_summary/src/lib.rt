//! The line that the command `bench` writes: one line of compact JSON.
//!
//! `print` makes it by `serde_json`, and its contract says each byte of it.
#![tactic(auto)]

mod printing;
mod summary;

pub use printing::print;
pub use summary::{EdfVerdict, FixedVerdict, Summary};
