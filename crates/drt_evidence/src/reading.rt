//! Reading the text of a dossier.
mod block;
mod blocks;
pub(crate) mod cuts;
mod dossiers;
mod evidences;
pub(crate) mod fields;
mod forms;
pub(crate) mod line_forms;
pub(crate) mod list_lines;
mod sets;
pub(crate) mod state_lines;
pub(crate) mod text;

pub use dossiers::read;
