//! What the search gives.

use drt_model::Row;

/// What a search for the greatest least time gives.
///
/// - `Reached`: the greatest least time, in ticks, and a tuple of leaves that has it, one for each root.
/// - `Spent`: one worker that began at the roots took as many combinations as the budget, and some were left. These are the
///   combinations that it took, in their order.
#[derive(Drop)]
pub enum Worst {
    Reached { ticks: u64, leaves: Row<u32> },
    Spent { taken: Row<Row<u32>> },
}
