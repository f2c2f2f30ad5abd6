//! The command `upgrade`: the file as one of version 2. Its promises stand in specs/Upgrade.antt.
#![tactic(auto)]

mod command;

pub use command::Upgrade;
