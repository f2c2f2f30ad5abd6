//! A response.

use drt_model::{Release, Row};

/// The greatest response time of a vertex, in ticks, and releases that reach it: the job of the vertex at time 0, and those of a walk of
/// each task of higher priority from time 0, as far as they come before that job finishes. They stand in order of tasks.
#[derive(Drop)]
pub struct Response {
    pub task: u32,
    pub vertex: u32,
    pub ticks: u64,
    pub releases: Row<Release>,
}
