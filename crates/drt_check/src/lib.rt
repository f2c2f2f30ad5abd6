//! The independent checker of dossiers.
//!
//! It stands on no crate of the search. What it asks of a dossier are the rules of `drt_claims/specs/Rules.antt`, each a
//! sentence over lists and numbers; `rules.rt` decides them, one row for each. What a judgement means stands in `specs/Judging.antt`.
#![tactic(auto)]

mod checking;
mod claimed;
mod judgement;
mod known;
mod laws;
mod parts;
mod releases;
mod rules;
mod utilisation;

pub use checking::check;
pub use judgement::Judgement;
pub use laws::{accepted_is_sound, judged_once};
