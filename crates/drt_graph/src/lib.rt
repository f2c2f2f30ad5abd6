//! The graphs of a task set whose deadlines are constrained.
//!
//! `check` is the one test that a set has to pass before any analysis: on each edge the deadline of the source is at
//! most the separation; `first_past` is that test alone, and makes no graphs. `Graphs` has one `Graph` a task, which lists the
//! edges out of each vertex in file order. The layers above read graphs by `vertex_count`, `vertex`, `out_degree` and `out_edge`, and learn from
//! `vertex_count` and `Graphs::graph` what a graph keeps.
//!
//! `potentials_fit`, `is_closed` and `is_tight` test what a claimed ratio of a graph has to keep, over plain numbers and lists,
//! and `constant` is the constant that a ratio and potentials give. They search for nothing, so the search for the greatest
//! ratio, the horizon and the checker of claims share them.
//!
//! `specs/` has what an analysis under EDF and its checker speak of: potentials, the rules of a claimed ratio, the constants and the
//! horizon, and entries of fronts.
#![tactic(auto)]

mod building;
mod checking;
mod constants;
mod cycles;
mod error;
mod front;
mod graph;
mod graphs;
mod potentials;

pub use checking::{check, first_past};
pub use constants::constant;
pub use cycles::{cycle_sums, is_closed, is_cycle, is_tight};
pub use error::GraphError;
pub use front::FrontEntry;
pub use graph::Graph;
pub use graphs::Graphs;
pub use potentials::potentials_fit;
