//! The one text of a dossier, printed and read.
//!
//! A dossier says for which policy and which task set something is claimed, and gives the evidence: `drt_claims` has its types, which stand
//! here too, and the rules that the checker asks of it. A dossier has exactly one text.
//!
//! The layer above uses `print`, `push_release_lines`, which adds the lines of releases to a text, `read`, which answers with the dossier whose text bytes are, or with the line and the
//! code at which they stop being one (`specs/Reading.antt`), and the definition `text`. `laws` says that bytes are
//! the text of one dossier at most.
#![tactic(auto)]

pub mod fault;
pub mod laws;
mod lines;
mod printing;
mod reading;

pub use drt_claims::{
    Dossier, Evidence, FrontEntry, Item, Pair, ProofClaim, RatioClaim, Rule, TreeClaim,
};
pub use fault::{DossierError, DossierFault};
pub use printing::{print, push_release_lines};
pub use reading::read;
