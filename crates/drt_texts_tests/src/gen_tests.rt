//! The first task of the number 1, whose first draw is 6 of 8, so that its period is 400.
use drt_gen::generate;
use drt_model::{Edge, Memory, Task, TaskSet, Vertex};
use std::alloc::Global;
use std::test::Fail;

fn has_seps_of_400_or_800(task: &Task) -> bool {
    for edge in task.edges.as_slice() {
        if edge.sep != 400 && edge.sep != 800 {
            return false;
        }
    }
    true
}

fn has_deadlines_from_201_to_400(task: &Task) -> bool {
    for vertex in task.vertices.as_slice() {
        if vertex.deadline < 201 || vertex.deadline > 400 {
            return false;
        }
    }
    true
}

fn is_vertex(vertex: &Vertex, name: &[u8], wcet: u32, deadline: u32) -> bool {
    vertex.name.as_slice() == name && vertex.wcet == wcet && vertex.deadline == deadline
}

// The draws 1 to 4: 3 of 26, 196 of 200, 18 of 26 and 34 of 200.
fn begins_with_its_vertices(task: &Task) -> bool {
    match task.vertices.as_slice() {
        [first, second, ..] => is_vertex(first, b"v0", 4, 204) && is_vertex(second, b"v1", 19, 366),
        _ => false,
    }
}

// The draws 25 to 30: 0 of 2, 0 of 12, 0 of 2, 1 of 2, 4 of 12 and 1 of 2.
fn begins_with_its_edges(task: &Task) -> bool {
    let expected = [
        Edge {
            from: 0,
            to: 1,
            sep: 400,
        },
        Edge {
            from: 0,
            to: 0,
            sep: 400,
        },
        Edge {
            from: 1,
            to: 2,
            sep: 800,
        },
        Edge {
            from: 1,
            to: 4,
            sep: 800,
        },
    ];
    match task.edges.as_slice() {
        [first, second, third, fourth, ..] => { [*first, *second, *third, *fourth] == expected }
        _ => false,
    }
}

// Vertex 9 draws 10, the next on the ring, so that it has one edge.
fn leaves_out_a_second_edge_to_the_next(task: &Task) -> bool {
    let mut has_one = false;
    for edge in task.edges.as_slice() {
        if edge.from == 9 {
            if has_one {
                return false;
            }
            has_one = true;
        }
    }
    has_one
}

// What is expected of the first task, and whether it holds.
fn findings(set: &TaskSet) -> [(&'static str, bool); 5] {
    match set.tasks().first() {
        Some(task) => [
            ("separations", has_seps_of_400_or_800(task)),
            ("deadlines", has_deadlines_from_201_to_400(task)),
            ("vertices", begins_with_its_vertices(task)),
            ("edges", begins_with_its_edges(task)),
            (
                "one edge out of vertex 9",
                leaves_out_a_second_edge_to_the_next(task),
            ),
        ],
        None => [("a first task", false); 5],
    }
}

#[test]
fn the_first_task_of_one_is_drawn_by_its_draws(rt: HostRuntime) -> Result<(), Fail> {
    let set = generate(rt.alloc(), 1)?;
    for (what, holds) in findings(&set) {
        assert!(rt; holds, "{what}");
    }
    Ok(())
}

// Whether each of these tasks has 12 vertices, and 12 to 24 edges.
fn are_shaped(tasks: &[Task]) -> bool {
    for task in tasks {
        let edges = task.edges.as_slice().len();
        if task.vertices.as_slice().len() != 12 || edges < 12 || edges > 24 {
            return false;
        }
    }
    true
}

// Whether the set of a number has 12 tasks of that shape.
fn is_shaped(alloc: Global, number: u64) -> Result<bool, Memory> {
    let set = generate(alloc, number)?;
    Ok(set.tasks().len() == 12 && are_shaped(set.tasks()))
}

#[test]
fn each_set_has_twelve_tasks_of_twelve_vertices(rt: HostRuntime) -> Result<(), Fail> {
    for number in [0, 1, 2, 3, u64::MAX] {
        assert!(rt; is_shaped(rt.alloc(), number)?, "{number}");
    }
    Ok(())
}
