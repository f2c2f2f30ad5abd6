//! A frontier for a lock, and the calls of workers on it.
//!
//! A worker says which combination it holds, with a copy of its nodes, and wants to make a step. `FrontierBoard::call` looks whether the
//! frontier has the same of it, and makes the step only then; else it tells what it found and changes nothing. So it doesn't matter
//! who calls: the log of a board is eager whatever workers say. `drt_shared_frontier` puts the board behind a lock.
#![tactic(auto)]

mod answer;
mod board;
mod terms;

pub use answer::{FrontierAnswer, FrontierFound};
pub use board::{FrontierBoard, is_copy, is_number};
pub use terms::Terms;
