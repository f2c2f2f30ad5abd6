//! Equal vertices.
ghost use Rattle.std.specs.Prelude.{◌≡◌, IfOk};

use crate::tasks::Vertex;
use std::alloc::{AllocError, Global};

/// Equal vertices, in order.
pub fn copy_vertices(alloc: Global, vertices: &[Vertex]) -> Result<Vec<Vertex>, AllocError>
    ensures { IfOk result (λ copies. copies.items ≡ vertices.now) }
{
    let mut copies = Vec::with_capacity(alloc, vertices.len())?;
    for vertex in vertices {
        copies.push(copy_vertex(alloc, vertex)?)?;
    }
    Ok(copies)
}

fn copy_vertex(alloc: Global, vertex: &Vertex) -> Result<Vertex, AllocError>
    ensures { IfOk result (λ copy. copy ≡ vertex.now) }
{
    Ok(Vertex {
        name: vertex.name.copy(alloc)?,
        wcet: vertex.wcet,
        deadline: vertex.deadline,
    })
}
