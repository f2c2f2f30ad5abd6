//! What the program says below its notice: what is wrong in a plain sentence, and what to do about it.
//!
//! `advise` gives the line of an outcome, which is a function of it (`specs/Advice.antt`).
#![tactic(auto)]

pub mod advising;
pub mod sentences;

pub use advising::advise;
