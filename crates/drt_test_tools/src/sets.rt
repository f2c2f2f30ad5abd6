//! Sets of two or three tasks.
ghost use Rattle.std.specs.Prelude.{◌<◌};

use crate::draws::Draws;
use drt_fixtures::{edge, make_name};
use drt_model::{Memory, Row, Task, TaskSet, Vertex, task_set};
use std::alloc::Global;

// A task of 1 to 3 vertices and about half of the possible edges. Each edge out of a vertex has a separation of at least its
// drawn gap, and the vertex's deadline is at most that.
fn drawn_task(alloc: Global, draws: &mut Draws, number: u32, priority: u32) -> Result<Task, Memory>
    requires { number < 3 }
{
    let count = draws.below(3) + 1;
    let mut vertices = Vec::new(alloc);
    let mut edges = Vec::new(alloc);
    for v in 0..count {
        let gap = draws.below(7) + 3;
        vertices.push(Vertex {
            name: make_name(alloc, &[b'v', b'0' + v as u8])?,
            wcet: draws.below(2) + 1,
            deadline: gap - draws.below(3),
        })?;
        for to in 0..count {
            if draws.below(2) == 0 {
                edges.push(edge(v, to, gap + draws.below(4)))?;
            }
        }
    }
    Ok(Task {
        name: make_name(alloc, &[b'T', b'0' + number as u8])?,
        priority,
        vertices: Row::from_vec(vertices),
        edges: Row::from_vec(edges),
    })
}

// The priority of a task: its place in version 1, else by a drawn order, with gaps.
fn drawn_priority(draws: &mut Draws, version: u8, order: u32, number: u32) -> u32
    requires order { order < 6 }
    requires number { number < 3 }
{
    if version == 1 {
        return number + 1;
    }
    let turned = (number + order) % 3;
    let rank = if order < 3 { turned } else { 2 - turned };
    rank * 10 + draws.below(10) + 1
}

/// A set of 2 or 3 tasks, of version 1 or 2. None where it doesn't keep the limits, which none does.
pub fn drawn_set(alloc: Global, draws: &mut Draws) -> Result<Option<TaskSet>, Memory> {
    let version = draws.below(2) as u8 + 1;
    let order = draws.below(6);
    let count = draws.below(2) + 2;
    let mut tasks = Vec::new(alloc);
    for number in 0..count {
        let priority = drawn_priority(draws, version, order, number);
        tasks.push(drawn_task(alloc, draws, number, priority)?)?;
    }
    Ok(task_set(version, Row::from_vec(tasks)))
}
