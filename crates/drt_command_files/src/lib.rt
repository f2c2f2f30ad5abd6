//! What the commands share: a task file as an input, the set that it is accepted as, its vertices by their names, and the report of a dossier.
#![tactic(auto)]

mod dossiers;
mod spots;
mod task_files;

pub use dossiers::make_report;
pub use spots::spot_of;
pub use task_files::{file_input, read_set};
