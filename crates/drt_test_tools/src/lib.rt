//! What tests and measurements share beside sets and texts: a gate at which two workers meet, drawn numbers and small sets drawn by them,
//! and forests, small ones that were worked by hand and a large one whose combinations are all split.
#![tactic(auto)]

mod draws;
mod forests;
mod meeting;
mod sets;

pub use draws::Draws;
pub use forests::{even_walks, three_walks, twelve_walks, two_walks, windows};
pub use meeting::Meeting;
pub use sets::drawn_set;
