//! The command `check`: a dossier, judged. Its promises stand in specs/Check.antt.
#![tactic(auto)]

mod command;

pub use command::Check;
