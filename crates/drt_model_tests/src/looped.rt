//! Sets of tasks of one vertex.

use drt_fixtures::make_looped;
use drt_model::{Memory, Row, TaskSet, task_set};
use std::alloc::Global;

/// A set of this version of tasks of one vertex with a loop, each by its priority, its execution time, and its deadline, which is its separation
/// too. Their names are `a`, `b` and so on.
pub(crate) fn looped_set(
    alloc: Global,
    version: u8,
    given: &[(u32, u32, u32)],
) -> Result<Option<TaskSet>, Memory> {
    let mut tasks = Vec::new(alloc);
    for (i, task) in given.iter().enumerate() {
        let name = [b'a' + (i % 26) as u8];
        tasks.push(make_looped(alloc, &name, task.0, task.1, task.2)?)?;
    }
    Ok(task_set(version, Row::from_vec(tasks)))
}
