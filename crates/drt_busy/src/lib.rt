//! Laws of the tick machine: what misses and busy times say of the jobs, and what decides a task set.
//!
//! Each function does nothing. Its contract is a law of the definitions of `drt_model`, for the layers
//! above to cite: call the function, and its `ensures` is at hand. `trace` has the laws of jobs, `walks`
//! goes from jobs to walks of the tasks' graphs, and there `deadlines_decide` and `times_decide` say for
//! each policy, in terms of walks alone, when a set is schedulable. `responses` does the same for the greatest
//! response times. `one_task` has sets of one task.
#![tactic(auto)]

pub mod one_task;
pub mod responses;
pub mod trace;
pub mod walks;

pub use one_task::{one_task_decides, too_long_misses};
pub use responses::{cuts_are_releases, releases_reach, response_decides};
pub use trace::{
    done_grows, least_misses, misses_overload, misses_pass_no_time, no_assignment_meets,
    no_time_misses, overload_misses, picks_are_pending, ticks_are_used,
};
pub use walks::{
    deadlines_decide, demand_misses, parts_follow_walks, requests_miss, times_decide,
    times_suffice_for_task,
};
