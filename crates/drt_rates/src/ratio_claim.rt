//! A ratio with its evidence, found or claimed.
use drt_model::Row;

/// The ratio `num / den` of a task's cycles, execution time per tick, with a cycle that has it and a potential for each vertex.
///
/// The cycle is a list of vertices, each with an edge to the next and the last with one to the first; it is empty where `num`
/// is 0. The potentials show that no cycle has a greater ratio.
#[derive(Debug, Drop)]
pub struct RatioClaim {
    pub num: u64,
    pub den: u64,
    pub cycle: Row<u32>,
    pub potentials: Row<i64>,
}
