//! Combinations of tree nodes, and the frontier machine that splits those for which no time passes.
//!
//! A frontier of a job and of the trees of the tasks ahead of it finds out whether the job is done in time whatever walks
//! those tasks take. It begins with the roots of the trees. A combination for which a time passes covers all tuples of
//! leaves below it; another one is split into two, and one of leaves fails (Stigge and Yi, RTSS 2013). Any workers may
//! step it in any order. `Frontier::apply` is exactly one step of the machine that `specs/Machine.antt` gives, and takes
//! no memory. What holds after every run, whoever made its steps, is the contract of `over_every_interleaving`. The layer
//! above uses that contract and those of `Frontier`.
#![tactic(auto)]

mod drive;
mod frontier;
mod place;
mod reading;
mod states;
mod step;
mod stepping;
mod theorem;

pub use frontier::Frontier;
pub use place::choose_place;
pub use step::{CombinationState, FrontierEntry, FrontierReply, FrontierStep};
pub use theorem::{eager_settles, over_every_interleaving};
