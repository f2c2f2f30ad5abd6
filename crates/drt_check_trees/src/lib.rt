//! The rules of the independent checker on claimed trees of request functions.
//!
//! A yes under fixed priorities comes with a tree for each task but the one of lowest priority. `is_tree_per_higher_task`,
//! `have_short_walks` and `are_trees` decide what the rules of `drt_claims/specs/Rules.antt` ask of them, each once
//! those before it are kept. It stands on no crate of the search.
#![tactic(auto)]

mod asking;
mod counts;
mod covering;
mod deadlines;
mod entries;
mod gaps;
mod order;
mod shapes;
mod short;

pub use counts::is_tree_per_higher_task;
pub use covering::cover_walks;
pub use deadlines::{greatest_deadline, latest_deadline};
pub use order::{priority_order, tree_graph};
pub use shapes::are_trees;
pub use short::have_short_walks;
