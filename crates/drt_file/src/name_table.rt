//! Names in the order in which they stand, found by hash.
ghost use Rattle.std.specs.Prelude.{◌≡◌, ◌++◌, ◌∷◌, [], false, bytes_eq, OnOk};
ghost use Rattle.std.specs.List.{list_any, position_or_len};

use drt_model::Memory;
use indexmap::IndexSet;
use std::alloc::Global;
use std::marker::Model;

/// Distinct names, each at its place. Contracts see it as the list of the names.
pub struct NameTable {
    names: IndexSet<Vec<u8>>,
}

impl Model for NameTable {
    ghost use Rattle.std.specs.Prelude.{List, ℕ, map};
    ghost use Rattle.indexmap.specs.IndexSet.{keys};

    ghost Value = { List (List ℕ) };

    ghost view = { λ t. map (λ k. k.items) t.names.keys };
}

// By hand, so that the end of a scope calls this one function and doesn't take the set apart there.
impl Drop for NameTable {
    fn drop(self) {
        let NameTable { names: _ } = self;
    }
}

impl NameTable {
    /// The table of no name.
    pub fn new(alloc: Global) -> NameTable
        ensures { result ≡ [] }
    {
        NameTable {
            names: IndexSet::new(alloc),
        }
    }

    /// Takes all names out, and keeps the room.
    pub fn clear(&mut self)
        ensures { self.new ≡ [] }
    {
        self.names.clear();
    }

    /// Whether the name is there.
    pub fn has(&self, name: &[u8]) -> bool
        ensures { result ≡ list_any (λ n. bytes_eq n name.now) self.now }
    {
        self.names.contains(name)
    }

    /// How many names stand before it, or how many there are where it isn't there.
    pub fn place(&self, name: &[u8]) -> usize
        ensures { result ≡ position_or_len (λ n. bytes_eq n name.now) self.now }
    {
        match self.names.get_index_of(name) {
            Some(place) => place,
            None => self.names.len(),
        }
    }

    /// Puts a copy of a name that isn't there at the end.
    pub fn add_copy(&mut self, alloc: Global, name: &[u8]) -> Result<(), Memory>
        requires { list_any (λ n. bytes_eq n name.now) self.old ≡ false }
        ensures { OnOk result (self.new ≡ self.old ++ name.now ∷ []) }
    {
        self.add(Vec::from_slice(alloc, name)?)
    }

    // Puts a name that isn't there at the end.
    fn add(&mut self, name: Vec<u8>) -> Result<(), Memory>
        requires { list_any (λ n. bytes_eq n name.items) self.old ≡ false }
        ensures { OnOk result (self.new ≡ self.old ++ name.items ∷ []) }
    {
        self.names.insert_full(name)?;
        Ok(())
    }
}
