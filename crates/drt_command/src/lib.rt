//! The run of one command, whatever the command: it reads, makes and writes.
//!
//! A command is a value of a type with the trait `Promised`. Its ghost member `rules` says what it
//! reads, what it makes of an input, which inputs it refuses with which fault, and with which status
//! it must end. `conduct_by` is proved once, for any command, source, sink and closure that makes the text. A command that makes its text
//! alone is a `Command`, and `conduct` runs it. One whose workers need threads makes its text in a function of its own, since no method of a
//! trait may hand its bounds to threads; a closure may.
#![tactic(auto)]

pub mod command;
pub mod conducting;
mod finishing;
pub mod input;
pub mod promised;
mod reading;
pub mod report;

pub use command::Command;
pub use conducting::{conduct, conduct_by};
pub use input::Input;
pub use promised::Promised;
pub use report::{Report, Unmade};
