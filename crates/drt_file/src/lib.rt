//! Task files: reading them, and printing a task set as its canonical text.
//!
//! The layers above use `read`, which answers with the set that a text reads as (`Reads`, a relation
//! on whole texts) or with the line and the code of its fault (`HasFault`, by the tables of codes in
//! `specs/trusted/Faults.antt`), `print`, whose text is `canonical` of the set, `upgrade`, and
//! `read_canonical`, which takes the canonical text at the front of a file, or says the first line with
//! which no canonical text goes on (`specs/trusted/CanonicalPrefix.antt`). `laws` says how these fit: a
//! text has no fault exactly where it reads as a set, and as one at most, and what is printed is read
//! back. How a text is cut into lines and fields is in `cutting`, what single fields say in `words`.
//! `push_set` adds a set's text to one, and `push_line` one line of fields. What must be believed stands in `specs/trusted`; the
//! proofs of the reader speak of `specs/internal` too.
#![tactic(auto)]

pub mod codes;
pub mod cutting;
mod effects;
pub mod fault;
mod finishing;
pub mod front;
pub mod laws;
mod line;
mod name_table;
mod parsing;
pub mod printing;
mod reader;
pub mod reading;
pub mod state;
mod steps;
mod strict;
pub mod versions;
pub mod words;

pub use fault::{FileError, FileFault};
pub use front::{Canonical, CanonicalError, cut_fed_line, read_canonical};
pub use printing::{print, push_line, push_set};
pub use reading::read;
pub use versions::upgrade;
