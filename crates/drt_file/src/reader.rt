//! What the lines above leave, with the names that stand there found by hash.
ghost use Rattle.std.specs.Prelude.{◌≡◌, bytes_eq};
ghost use Rattle.drt_file.specs.internal.StateFaults.{has_vertex, place_of_name, in_some_task};
ghost use Rattle.drt_file.specs.internal.Reader.{own_vertices};
ghost use Rattle.drt_file.specs.internal.Steps.{opening};

use crate::name_table::NameTable;
use crate::state::State;
use drt_model::Row;
use std::alloc::Global;
use std::marker::Model;

/// The state below some lines, with the names of its tasks, and those of the vertices of the task
/// that the next line stands in. Contracts see it as the state.
#[derive(Drop)]
pub struct Reader {
    pub state: State,
    pub tasks: NameTable,
    pub vertices: NameTable,
}

impl Model for Reader {
    ghost use Rattle.drt_file.specs.declared.state.State.{State};
    ghost use Rattle.drt_file.specs.internal.Reader.{HasNames};

    ghost Value = { State };

    ghost view = { λ r. r.state };

    ghost invariant = { λ r. HasNames r.state r.tasks r.vertices };
}

impl Reader {
    /// Below a first line of that version.
    #[tactic(auto, unfolding(crate::specs::internal::Steps::opening, crate::specs::internal::Reader::task_names, crate::specs::internal::Reader::vertex_names, crate::specs::internal::Reader::own_vertices, crate::specs::internal::Steps::with_last))]
    pub fn open(alloc: Global, version: u8) -> Reader
        ensures { result ≡ opening version }
    {
        Reader {
            state: State {
                version,
                closed: Row::from_vec(Vec::new(alloc)),
                current: None,
                ended: false,
            },
            tasks: NameTable::new(alloc),
            vertices: NameTable::new(alloc),
        }
    }

    /// The state.
    pub fn state(&self) -> &State
        ensures { result.now ≡ self.now }
    {
        &self.state
    }

    /// The state, without the names by hash.
    pub fn into_state(self) -> State
        ensures { result ≡ self }
    {
        let Reader { state, .. } = self;
        state
    }

    /// Whether a task of that name stands above.
    pub fn has_task(&self, name: &[u8]) -> bool
        ensures { result ≡ in_some_task (λ d. bytes_eq d.name name.now) self.now }
    {
        self.tasks.has(name)
    }

    /// Whether a vertex of that name stands above in the task.
    pub fn has_vertex(&self, name: &[u8]) -> bool
        ensures { result ≡ has_vertex name.now (own_vertices self.now) }
    {
        self.vertices.has(name)
    }

    /// How many vertices of the task stand before the one of that name.
    pub fn place(&self, name: &[u8]) -> usize
        ensures { result ≡ place_of_name name.now (own_vertices self.now) }
    {
        self.vertices.place(name)
    }
}
