//! A second set like one.
ghost use Rattle.std.specs.Prelude.{◌≡◌, IfOk};

use drt_model::{Memory, Row, Task, TaskSet, copy_vertices};
use std::alloc::Global;

/// A second set, the same as this one.
pub fn copy_of(alloc: Global, set: &TaskSet) -> Result<TaskSet, Memory>
    ensures { IfOk result (λ copy. copy ≡ set.now) }
{
    let version = set.version();
    let tasks = copy_tasks(alloc, set.tasks())?;
    Ok(TaskSet {
        version,
        tasks: Row::from_vec(tasks),
    })
}

// The same tasks.
fn copy_tasks(alloc: Global, tasks: &[Task]) -> Result<Vec<Task>, Memory>
    ensures { IfOk result (λ copies. copies.items ≡ tasks.now) }
{
    let mut copies = Vec::new(alloc);
    'tasks: for k in 0..tasks.len() {
        copies.push(copy_task(alloc, &tasks[k])?)?;
    }
    Ok(copies)
}

// The same task.
fn copy_task(alloc: Global, task: &Task) -> Result<Task, Memory>
    ensures { IfOk result (λ copy. copy ≡ task.now) }
{
    let name = task.name.copy(alloc)?;
    let vertices = copy_vertices(alloc, task.vertices.as_slice())?;
    let edges = Vec::from_slice(alloc, task.edges.as_slice())?;
    Ok(Task {
        name,
        priority: task.priority,
        vertices: Row::from_vec(vertices),
        edges: Row::from_vec(edges),
    })
}
