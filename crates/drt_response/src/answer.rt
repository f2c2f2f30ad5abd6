//! Where a budget was spent.

use drt_model::Row;
use drt_trails::FixedTrail;

/// Where a budget was spent: in the analysis, or in the search at this vertex of this task, with the combinations that one worker took,
/// in their order.
#[derive(Drop)]
pub enum ResponseTrail {
    Fixed(FixedTrail),
    Search {
        task: u32,
        vertex: u32,
        taken: Row<Row<u32>>,
    },
}
