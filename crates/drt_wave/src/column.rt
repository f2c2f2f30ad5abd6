//! The cells of one vertex, once they are final.
ghost use Rattle.std.specs.Prelude.{◌≡◌, ◌<◌, length, slice_index};

use atomic_table::Closed;
use std::alloc::Global;
use std::marker::Model;

/// The greatest works of the walks that end at a vertex, by offset. Contracts see it as the list. The default has no cell.
#[derive(Default)]
pub(crate) struct Column {
    pub(crate) closed: Option<Closed<(), Global>>,
}

impl Model for Column {
    ghost use Rattle.std.specs.Prelude.{◌≡◌, ℕ, List, IfSome};
    ghost use Rattle.std.specs.Mem.Slots.{slots_len, IsFull};
    ghost use Rattle.drt_wave.specs.Dense.{cells_of};

    ghost Value = { List ℕ };

    ghost view = { λ d. cells_of d.closed };

    ghost invariant = { λ d. IfSome d.closed (λ closed. (slots_len closed.slots ≡ 0) × IsFull closed.words) };
}

impl Column {
    /// The work at an offset.
    pub(crate) fn work(&self, offset: u64) -> u64
        requires { offset < length self.now }
        ensures { result ≡ slice_index self.now offset }
    {
        let Some(closed) = &self.closed else {
            unreachable!()
        };
        closed.word(offset as usize)
    }
}

impl Drop for Column {
    fn drop(self) {
        let Column { closed } = self;
        if let Some(closed) = closed {
            closed.free();
        }
    }
}
