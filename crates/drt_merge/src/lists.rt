//! The marks of each vertex.
ghost use Rattle.std.specs.Prelude.{◌≡◌, ◌<◌, ◌++◌, ◌∷◌, [], IfOk, length, slice_set};
ghost use Rattle.drt_merge.specs.Marks.{row, mark_at, IsLastMark, AreEmpty};

use crate::mark::Mark;
use drt_model::Memory;
use std::alloc::Global;
use std::marker::Model;

/// The marks of each vertex. Contracts see the list of the lists of marks.
#[derive(Debug, Drop)]
pub struct Lists {
    rows: Vec<Vec<Mark>>,
}

impl Model for Lists {
    ghost use Rattle.std.specs.Prelude.{List, map};
    ghost use Rattle.drt_merge.specs.declared.mark.Mark.{Mark};

    ghost Value = { List (List Mark) };

    ghost view = { λ l. map (λ row. row.items) l.rows.items };
}

impl Lists {
    /// A list without a mark for each of `count` vertices.
    pub fn new(alloc: Global, count: u32) -> Result<Lists, Memory>
        ensures { IfOk result (λ lists. AreEmpty count lists) }
    {
        let mut rows = Vec::with_capacity(alloc, count as usize)?;
        for _row in 0..count {
            rows.push(Vec::new(alloc))?;
        }
        Ok(Lists { rows })
    }

    /// How many marks a vertex has.
    pub fn len(&self, vertex: u32) -> usize
        requires { vertex < length self.now }
        ensures { result ≡ length (row self.now vertex) }
    {
        self.rows[vertex as usize].len()
    }

    /// A mark of a vertex.
    pub fn mark(&self, vertex: u32, place: usize) -> Mark
        requires vertex { vertex < length self.now }
        requires place { place < length (row self.now vertex) }
        ensures { result ≡ mark_at (row self.now vertex) place }
    {
        self.rows[vertex as usize][place]
    }

    /// The last mark of a vertex.
    pub fn last(&self, vertex: u32) -> Option<Mark>
        requires { vertex < length self.now }
        ensures { IsLastMark (row self.now vertex) result }
    {
        self.rows[vertex as usize].last().copied()
    }

    /// Adds a mark behind those of a vertex.
    pub fn push(&mut self, vertex: u32, mark: Mark) -> Result<(), Memory>
        requires { vertex < length self.old }
        ensures { IfOk result (λ r. self.new ≡ slice_set self.old vertex (row self.old vertex ++ mark ∷ [])) }
    {
        self.rows[vertex as usize].push(mark)?;
        Ok(())
    }
}
