//! A frontier that several workers step, each through a pass of its own, under one lock.
//!
//! A worker that took a combination has a copy of its nodes. It looks outside the lock for the least time that passes, or for the
//! place at which the copy is to be split, and settles the combination by one step. Each call looks under the lock whether the pass
//! still agrees with the frontier, makes one step of the frontier machine, and raises the pass's count where the step is logged.
//! After `SharedFrontier::finish` the log is eager and has as many entries as the passes count together. `refine`, which the layer
//! above uses, works a frontier so from its start to its end where a gate wants several workers to begin at once, and else drives one.
#![tactic(auto)]

mod pass;
mod passes;
mod refinement;
mod shared;

pub use drt_frontier_board::{FrontierAnswer, FrontierFound};
pub use pass::FrontierPass;
pub use refinement::refine;
pub use shared::SharedFrontier;
