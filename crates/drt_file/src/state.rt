//! What the lines of a task file have said so far.
ghost use Rattle.std.specs.Prelude.{◌≡◌, ◌++◌, ◌∷◌, [], IfOk};

use drt_model::{Edge, Memory, Name, Row, Vertex};

/// A task as far as its lines go, and the number of its `task` line.
#[derive(Debug, Drop)]
pub struct Draft {
    pub name: Name,
    pub line: u32,
    pub priority: Option<u32>,
    pub vertices: Row<Vertex>,
    pub edges: Row<Edge>,
}

/// What the lines above leave: the tasks that are done, the task that the next line stands in, and
/// whether `end` came.
#[derive(Debug, Drop)]
pub struct State {
    pub version: u8,
    pub closed: Row<Draft>,
    pub current: Option<Draft>,
    pub ended: bool,
}

/// What a line's first field says that it is.
#[derive(Debug, Clone, Copy, PartialEq, Eq)]
pub enum Kind {
    Task,
    Vertex,
    Edge,
    Priority,
    End,
    Other,
}

/// What a line without a fault says. The ends of an edge are places among the vertices above in its
/// task.
#[derive(Debug, Drop)]
pub enum Line {
    Task(Name),
    Vertex(Vertex),
    Edge(Edge),
    Priority(u32),
    End,
}

/// The row with one item more.
pub fn pushed<T: Drop>(row: Row<T>, item: T) -> Result<Row<T>, Memory>
    ensures { IfOk result (λ longer. longer ≡ row ++ item ∷ []) }
{
    let mut items = row.into_vec();
    items.push(item)?;
    Ok(Row::from_vec(items))
}
