//! The releases of walks, one walk for each task, from time 0 on and as early as the separations allow.
//!
//! An analysis that refuses a set shows walks of its tasks whose releases miss a deadline. `all_releases` makes these releases, in order of
//! tasks, as `drt_busy` says what they are. `cut_walk` gives a walk as far as it goes before a time.
#![tactic(auto)]

mod cutting;
mod laws;
mod releases;

pub use cutting::cut_walk;
pub use laws::releases_are_in_range;
pub use releases::{LAST_DEADLINE, all_releases, walk_of};
