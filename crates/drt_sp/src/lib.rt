//! The analysis of a task set under fixed priorities.
//!
//! `analyse_fixed` takes the tasks in order of priority. It proves each vertex of a task against trees that stand for the walks of the
//! tasks of higher priority, and then makes the task's own tree. Each answer carries its evidence, which keeps the rules of
//! `drt_claims`, and each other answer its cause. The layer above uses the one contract of `analyse_fixed`.
//!
//! `budgets_suffice` says how large a budget is enough, by the numbers of the tasks' walks, and `searches_go_on` that a search that spent
//! its budget could go on.
//!
//! What trees of request functions say of the walks of the tasks stands in laws of its own: a task is judged by choices of one walk
//! for each task of higher priority, and an analysis looks at trees instead, whose leaves are walks that stand for all others.
//!
//! Its parts are there for whoever analyses one task alone: `search_tree` and `prove_vertices`.
#![tactic(auto)]

mod ahead;
mod analysis;
mod answer;
mod attempts;
pub mod choices;
mod grown;
mod joints;
pub mod laws;
mod parts;
mod progress;
mod proving;
mod race;
mod refusal;
mod releases;
mod trees;
mod vertices;
mod walks;

pub use analysis::{ALLOWANCE, analyse_fixed, analyse_trees};
pub use answer::Answer;
pub use choices::{leaves_miss, leaves_pass, leaves_respond, walks_pass};
pub use drt_check_trees::greatest_deadline;
pub use drt_trails::FixedTrail;
pub use grown::ProvedTrees;
pub use laws::{budgets_suffice, searches_go_on};
pub use releases::leaf_releases;
pub use trees::{TaskTree, TreeSearch, search_tree};
pub use vertices::{TaskProofs, prove_vertices};
pub use walks::VertexTuple;
