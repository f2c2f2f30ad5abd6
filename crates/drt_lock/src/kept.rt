//! A value that no `&` reaches, so that a `&` to it may cross threads where the value itself may.

ghost use Rattle.std.specs.Prelude.{◌≡◌, IfOk};
ghost use Rattle.drt_lock.specs.Kept.{IsStill};

use atomic_table::{Refused, Table, TableRule};
use std::alloc::{AllocError, Global};
use std::marker::Model;
use std::snapshot::Snapshot;

/// The rule that the slot has the value of the start.
pub struct Still;

impl<T> TableRule<T, (), Snapshot<T>> for Still {
    ghost holds = { λ key. IsStill key.value };

    ghost first = { λ _. tt };
}

/// A value that is kept until it is taken out. Contracts see it as the value.
#[derive(Drop)]
pub struct Kept<T: Drop> {
    table: Table<T, (), Snapshot<T>, Still, Global>,
}

impl<T: Drop> Model for Kept<T> {
    ghost use Rattle.std.specs.Prelude.{◌≡◌};

    ghost Value = { T };

    ghost view = { λ k. k.table.shared.key.value };

    ghost invariant = { λ k. k.table.shared.table_id.slots ≡ 1 };
}

impl<T: Drop> Kept<T> {
    /// Keeps the value. `AllocError` is want of memory.
    pub fn new(alloc: Global, value: T) -> Result<Kept<T>, AllocError>
        ensures { IfOk result (λ kept. kept ≡ value) }
    {
        let key = Snapshot::of(&value);
        let mut slots = Vec::with_capacity(alloc, 1)?;
        slots.push_reserved(value);
        match Table::new(alloc, &[], slots, &key) {
            Ok((table, _seat)) => Ok(Kept { table }),
            Err(Refused { slots: _ }) => Err(AllocError),
        }
    }

    /// The value, taken out again.
    pub fn into_inner(self) -> T
        ensures { result ≡ self }
    {
        let Kept { table } = self;
        let mut closed = table.close();
        let value = closed.take(0);
        closed.free();
        value
    }
}
