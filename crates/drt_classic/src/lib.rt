//! Classic files, of sporadic, multiframe, generalised multiframe and noncyclic tasks, and their digraphs.
//!
//! The layer above uses `read`, which answers with the classic set that a text reads as (`Reads`, a relation
//! on whole texts) or with the line and the code of its fault (`HasFault`, by the tables of codes in
//! `specs/ClassicFaults.antt`), and `to_digraphs`, which gives `digraphs_of` the set. `laws` says how these fit: a
//! text has no fault exactly where it reads as a set, and as one at most, and the digraphs of a set release
//! exactly the classic lists of the set (`IsClassicList`).
#![tactic(auto)]

pub mod classic;
pub mod codes;
mod digraphs;
mod effects;
pub mod fault;
mod finishing;
pub mod laws;
mod line;
mod parsing;
pub mod reading;
pub mod state;

pub use classic::{Classic, ClassicSet, Frame};
pub use digraphs::to_digraphs;
pub use fault::{ClassicError, ClassicFault};
pub use reading::read;
