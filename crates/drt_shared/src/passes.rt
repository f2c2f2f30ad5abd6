//! Giving passes out, and taking their counts in again.

ghost use Rattle.std.specs.Prelude.{◌≡◌, ◌+◌, ◌<◌, ◌≤◌, [], length, vec_capacity};
ghost use Rattle.drt_lock.specs.Rule.{all_parts};
ghost use Rattle.drt_lock.specs.Seats.{Rests};
ghost use Rattle.drt_pool.specs.Turns.{EachPlace};
ghost use Rattle.drt_shared.specs.Passes.{is_any_halted};
ghost use Rattle.drt_shared.specs.Shared.{IsFresh, AreOf};
ghost use Rattle.drt_table.specs.View.{IsTable, setting_of};
ghost use Rattle.drt_worklist.specs.Places.{total};

use crate::board::TableBoard;
use crate::pass::Pass;
use crate::terms::Terms;
use atomic_table::Seat;
use drt_label::Label;
use drt_lock::{Lock, SeatView};
use drt_table::Table;

// Gives out so many passes, one part of the owner's seat to each.
pub(crate) fn deal<L: Label>(
    lock: &Lock<TableBoard<L>>,
    owner: &mut Seat<TableBoard<L>, SeatView<Terms>>,
    into: &mut Vec<Pass<L>>,
    count: u32,
)
    requires name { owner.old.table_id ≡ lock.now.name }
    requires owner { (count ≤ 16) × Rests lock.now.fixed all_parts 0 owner.old.me }
    requires room { (into.old.items ≡ []) × (count ≤ vec_capacity into.old) }
    ensures name { owner.new.table_id ≡ lock.now.name }
    ensures owner { (owner.new.me.0.parts + count ≡ all_parts) × Rests lock.now.fixed owner.new.me.0.parts 0 owner.new.me }
    ensures count { length into.new.items ≡ count }
    ensures passes { EachPlace (IsFresh lock.now.name lock.now.fixed) into.new.items }
{
    for number in 0..count {
        let seat = lock.split(owner);
        into.push_reserved(Pass {
            number,
            count: 0,
            holding: None,
            halted: false,
            seat,
        });
    }
}

// Takes the counts of the passes together. The table's log has as many entries.
pub(crate) fn gather<L: Label>(
    lock: Lock<TableBoard<L>>,
    mut owner: Seat<TableBoard<L>, SeatView<Terms>>,
    mut passes: Vec<Pass<L>>,
) -> Table<L>
    requires name { owner.table_id ≡ lock.name }
    requires owner { (0 < owner.me.0.parts) × (owner.me.0.parts + length passes.items ≡ all_parts) × Rests lock.fixed owner.me.0.parts 0 owner.me }
    requires passes { AreOf lock.name lock.fixed passes.items }
    ensures setting { setting_of result ≡ lock.fixed }
    ensures count { length result.log ≡ total (λ p. p.count) passes.items }
    ensures run { IsTable L.algebra result }
{
    while let Some(pass) = passes.pop() {
        let Pass { seat, .. } = pass;
        lock.join(&mut owner, seat);
    }
    lock.close(owner).into_table()
}

// Whether one of the passes halted the search.
pub(crate) fn is_any_halted<L: Label>(passes: &[Pass<L>]) -> bool
    ensures { result ≡ is_any_halted passes.now }
{
    match passes {
        [] => false,
        [first, rest @ ..] => first.halted || is_any_halted(rest),
    }
}
