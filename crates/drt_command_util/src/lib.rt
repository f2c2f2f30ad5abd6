//! The command `util`: ratios and the utilisation. Its promises stand in specs/Util.antt.
#![tactic(auto)]

mod command;

pub use command::Util;
