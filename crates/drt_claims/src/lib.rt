//! What a dossier claims of a task set, and what evidence of it has to keep.
//!
//! For EDF's yes a dossier has ratios, potentials and fronts, for a no of either policy releases and the job that misses, for a yes of
//! fixed priorities trees and proofs. A second kind of yes of fixed priorities has tails of the tasks, and for each vertex a search: states,
//! each of which passes at a time or splits. What the checker asks of a dossier stands in `specs/Rules.antt`, one `Rule` a line, so that
//! analyses may promise it without standing on the checker, nor on the texts that `drt_evidence` writes and reads.
//!
//! The layer above uses the types, `Rule::number`, and the definitions `Accepts`, `IsInRange` and those of the rules.
#![tactic(auto)]

mod evidence;
mod limits;
mod rule;

pub use drt_graph::FrontEntry;
pub use drt_rates::RatioClaim;
pub use evidence::{Dossier, Evidence, Item, Pair, ProofClaim, TreeClaim};
pub use limits::{MOST_NUMBER, MOST_PART, MOST_TICKS, MOST_WORK};
pub use rule::Rule;
