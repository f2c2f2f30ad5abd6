//! Tasks and sets from tables of numbers.
use drt_model::{Edge, Memory, Name, Row, Task, TaskSet, Vertex, task_set};
use std::alloc::Global;

/// A task as its vertices' execution times and deadlines, and its edges' sources, targets and
/// separations.
pub type Shape<'a> = (&'a [(u32, u32)], &'a [(u32, u32, u32)]);

/// The name of these bytes.
pub fn make_name(alloc: Global, bytes: &[u8]) -> Result<Name, Memory> {
    Ok(Name::from_vec(Vec::from_slice(alloc, bytes)?))
}

/// A vertex of that name, execution time and deadline.
pub fn make_vertex(
    alloc: Global,
    bytes: &[u8],
    wcet: u32,
    deadline: u32,
) -> Result<Vertex, Memory> {
    Ok(Vertex {
        name: make_name(alloc, bytes)?,
        wcet,
        deadline,
    })
}

/// An edge with its separation.
pub fn edge(from: u32, to: u32, sep: u32) -> Edge {
    Edge { from, to, sep }
}

// The name of a letter and a number below 26, as a second letter.
fn lettered(alloc: Global, first: u8, number: usize) -> Result<Name, Memory> {
    make_name(alloc, &[first, b'a' + (number % 26) as u8])
}

fn make_vertices(alloc: Global, shape: Shape<'_>) -> Result<Row<Vertex>, Memory> {
    let mut vertices = Vec::new(alloc);
    for (i, vertex) in shape.0.iter().enumerate() {
        vertices.push(Vertex {
            name: lettered(alloc, b'v', i)?,
            wcet: vertex.0,
            deadline: vertex.1,
        })?;
    }
    Ok(Row::from_vec(vertices))
}

fn make_edges(alloc: Global, shape: Shape<'_>) -> Result<Row<Edge>, Memory> {
    let mut edges = Vec::new(alloc);
    for given in shape.1 {
        edges.push(edge(given.0, given.1, given.2))?;
    }
    Ok(Row::from_vec(edges))
}

/// The task of that number, counted from 0, named `Ta`, `Tb` and so on, with vertices `va`, `vb` and
/// so on, and the priority that version 1 gives it.
pub fn make_task(alloc: Global, number: usize, shape: Shape<'_>) -> Result<Task, Memory> {
    Ok(Task {
        name: lettered(alloc, b'T', number)?,
        priority: (number % 16) as u32 + 1,
        vertices: make_vertices(alloc, shape)?,
        edges: make_edges(alloc, shape)?,
    })
}

/// The set of version 1 of tasks of these shapes, where it keeps the limits.
pub fn make_set(alloc: Global, shapes: &[Shape<'_>]) -> Result<Option<TaskSet>, Memory> {
    let mut tasks = Vec::new(alloc);
    for (i, shape) in shapes.iter().enumerate() {
        tasks.push(make_task(alloc, i, *shape)?)?;
    }
    Ok(task_set(1, Row::from_vec(tasks)))
}

/// A task of one vertex with an edge to itself, both of that name, whose deadline is the separation.
pub fn make_looped(
    alloc: Global,
    bytes: &[u8],
    priority: u32,
    wcet: u32,
    deadline: u32,
) -> Result<Task, Memory> {
    let mut vertices = Vec::new(alloc);
    vertices.push(make_vertex(alloc, bytes, wcet, deadline)?)?;
    let mut edges = Vec::new(alloc);
    edges.push(edge(0, 0, deadline))?;
    Ok(Task {
        name: make_name(alloc, bytes)?,
        priority,
        vertices: Row::from_vec(vertices),
        edges: Row::from_vec(edges),
    })
}
