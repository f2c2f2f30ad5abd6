//! Sets that texts read as, field by field, and that print as these texts again.
use crate::fronts::TWO_TASKS;
use drt_file::{print, read};
use drt_fixtures::edge;
use drt_fixtures::texts::PERIODIC;
use drt_model::{Edge, Memory, Task, TaskSet, Vertex};
use std::alloc::Global;
use std::test::Fail;

fn is_vertex(vertex: &Vertex, name: &[u8], wcet: u32, deadline: u32) -> bool {
    vertex.name.as_slice() == name && vertex.wcet == wcet && vertex.deadline == deadline
}

// Whether a task has this name, this priority and these edges.
fn is_task(task: &Task, name: &[u8], priority: u32, edges: &[Edge]) -> bool {
    task.name.as_slice() == name && task.priority == priority && task.edges.as_slice() == edges
}

// Whether a set is the one of `PERIODIC`.
fn is_periodic(set: &TaskSet) -> bool {
    match set.tasks() {
        [task] => {
            set.version() == 1 && is_task(task, b"T", 1, &[edge(0, 0, 5)]) && has_the_vertex(task)
        }
        _ => false,
    }
}

fn has_the_vertex(task: &Task) -> bool {
    match task.vertices.as_slice() {
        [vertex] => is_vertex(vertex, b"a", 2, 5),
        _ => false,
    }
}

// Whether a set is the one of `TWO_TASKS`.
fn is_of_two_tasks(set: &TaskSet) -> bool {
    match set.tasks() {
        [first, second] => set.version() == 2 && is_two_modes(first) && is_one_shot(second),
        _ => false,
    }
}

// Whether a task has two vertices with an edge each way.
fn is_two_modes(task: &Task) -> bool {
    match task.vertices.as_slice() {
        [first, second] => {
            is_task(task, b"A", 7, &[edge(0, 1, 15), edge(1, 0, 400)])
                && is_vertex(first, b"a", 1, 10)
                && is_vertex(second, b"b_2", 20, 300)
        }
        _ => false,
    }
}

// Whether a task has one vertex and no edge.
fn is_one_shot(task: &Task) -> bool {
    match task.vertices.as_slice() {
        [vertex] => {
            is_task(task, b"B-1", 1_000_000, &[]) && is_vertex(vertex, b"x", 1_000_000, 1_000_000)
        }
        _ => false,
    }
}

fn prints_as(alloc: Global, set: &TaskSet, text: &[u8]) -> Result<bool, Memory> {
    Ok(print(alloc, set)?.as_slice() == text)
}

fn is_periodic_text(alloc: Global) -> Result<bool, Fail> {
    let set = read(alloc, PERIODIC.as_bytes())?;
    Ok(is_periodic(&set) && prints_as(alloc, &set, PERIODIC.as_bytes())?)
}

fn is_text_of_two_tasks(alloc: Global) -> Result<bool, Fail> {
    let set = read(alloc, TWO_TASKS)?;
    Ok(is_of_two_tasks(&set) && prints_as(alloc, &set, TWO_TASKS)?)
}

#[test]
fn a_set_has_the_fields_of_its_text_and_is_printed_again(rt: HostRuntime) -> Result<(), Fail> {
    assert!(rt; is_periodic_text(rt.alloc())?);
    assert!(rt; is_text_of_two_tasks(rt.alloc())?);
    Ok(())
}
