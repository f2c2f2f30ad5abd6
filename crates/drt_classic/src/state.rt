//! What the lines of a classic file have said so far.
ghost use Rattle.std.specs.Prelude.{◌≡◌, ◌++◌, ◌∷◌, [], IfOk};

use crate::classic::{Classic, Frame};
use drt_model::{Memory, Row};

/// A task as far as its lines go, and the number of its own line.
#[derive(Debug, Drop)]
pub struct Draft {
    pub line: u32,
    pub task: Classic,
}

/// What the lines above leave: the tasks that are done, the last task, and whether `end` came.
#[derive(Debug, Drop)]
pub struct State {
    pub closed: Row<Draft>,
    pub last: Option<Draft>,
    pub ended: bool,
}

/// What a line's first field says that it is.
#[derive(Debug, Clone, Copy, PartialEq, Eq)]
pub enum Kind {
    Sporadic,
    Multiframe,
    Gmf,
    Noncyclic,
    Frame,
    End,
    Other,
}

/// What a line without a fault says: a task, of which a `gmf` and a `noncyclic` have no frame yet, a
/// frame, or the end.
#[derive(Debug, Drop)]
pub enum Line {
    Task(Classic),
    Frame(Frame),
    End,
}

/// The row with one item more.
pub fn pushed<T: Drop>(row: Row<T>, item: T) -> Result<Row<T>, Memory>
    ensures { IfOk result (λ longer. longer ≡ row ++ item ∷ []) }
{
    let mut items = row.into_vec();
    items.push(item)?;
    Ok(Row::from_vec(items))
}
