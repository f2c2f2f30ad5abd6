//! Demand labels, by which EDF's demand is searched.
//!
//! The demand label of a walk is its last vertex, the sum of its separations and the sum of its execution times.
//! The layer above uses that demand labels keep the laws of `drt_label::Label`, that they are the labels of walks,
//! and `dbf`, the greatest work that is due by a time.
#![tactic(auto)]

mod bound;
mod label;
mod walks;

pub use bound::{dbf, is_due};
pub use label::DemandLabel;
pub use walks::labels_of_walks;
