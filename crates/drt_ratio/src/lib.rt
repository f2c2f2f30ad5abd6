//! The greatest ratio of the cycles of a graph, with its evidence.
//!
//! The ratio of a cycle is the sum of its execution times over the sum of its separations. `greatest` gives the greatest
//! one, a cycle that has it, and the canonical potentials, which show that no cycle has a greater one. `check_ratio`
//! tests such a claim without searching, by the rules that a checker applies to a claim that anyone made.
//!
//! `greatest` raises a ratio that begins at 0. At each ratio it takes as many rounds over all edges as there are
//! vertices. If the last round still raises the gain of some walk, the walk goes round a cycle with a greater ratio, and
//! that ratio is the next one. If not, the ratio is the greatest, and the last gains are the potentials.
//!
//! `utilisation` is that of the ratios of a set of tasks.
#![tactic(auto)]

mod checking;
mod improving;
mod levels;
mod set_ratios;
mod traces;

pub use checking::check_ratio;
pub use improving::greatest;
pub use set_ratios::{proofs_give_ratios, utilisation};
