//! The values of the nodes of a claimed tree at many times.
//!
//! A walk of a tree has at each time what it asks for before it, and a pair the greater one of its two parts' values. `take_values`
//! takes the values that queries of nodes and times ask for from as many rooms, if each fits, so that no value is kept. The leaves
//! below each node stand one after another in an order of all leaves, so a node's value is the greatest of a run of places; the
//! releases of the walks are taken in by their offsets, and each query is answered once those before its time are. Neither deep
//! trees nor long walks cost more than their length, and nothing recurses.
//!
//! The crate stands on none of the search: claims come from whoever made a dossier. `drt_claims` says what a node's value is.
#![tactic(auto)]

mod greatest_values;
mod places;
mod query;
mod rises;
mod sweeping;
mod values;

pub use query::Query;
pub use values::take_values;
