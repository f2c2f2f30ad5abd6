//! Reading the text of responses.
mod blocks;
mod fields;
pub(crate) mod lines;
pub(crate) mod text;
mod whole;

pub use whole::read;
