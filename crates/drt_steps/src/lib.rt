//! Request functions: how much work a walk has asked for before each time. Such a function never falls. Contracts see
//! it as the list of its values at 1 to its bound, while the code keeps the places where it rises, so that no call
//! takes time or memory for each tick. The layers above rest on `least_time`, the least time by which a job and
//! the work that is asked for ahead of it are done.
#![tactic(auto)]

mod jump;
mod level;
mod marks;
mod merge;
mod rises;
mod steps;
mod time;

pub use steps::Steps;
pub use time::least_time;
