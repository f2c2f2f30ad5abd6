//! The front of one task's walks, and the walk of a label.
//!
//! Where the budget is enough for any search of the walks, and there are at most 2^22 cells, `search_task` works them in a wave table of
//! `drt_wave` (`has_wave_table` tells). Else it merges the lists of the vertices by `drt_merge`, and where their labels count more steps
//! than the budget has, it drives a table of `drt_table`, whose log shows the spent budget (`drive_task` does this alone). The front is the same.
//! `demand_walk` finds backwards over a front a walk that has all the demand of a time. The layer above has a front for each task.
#![tactic(auto)]

mod fronts;
mod laws;
mod merged;
mod search;
mod walks;
mod waves;

pub use fronts::front_of;
pub use laws::searches_are_bounded;
pub use merged::merged_front;
pub use search::{Ended, drive_task, search_task};
pub use walks::demand_walk;
pub use waves::{has_wave_table, wave_front};
