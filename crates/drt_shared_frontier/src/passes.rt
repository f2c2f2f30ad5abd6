//! Giving passes out, and taking their counts in again.

ghost use Rattle.std.specs.Prelude.{◌≡◌, ◌+◌, ◌<◌, ◌≤◌, [], length, IfOk};
ghost use Rattle.drt_lock.specs.Rule.{all_parts};
ghost use Rattle.drt_lock.specs.Seats.{Rests};
ghost use Rattle.drt_pool.specs.Turns.{EachPlace};
ghost use Rattle.drt_refine.specs.Eager.{IsEager};
ghost use Rattle.drt_refine.specs.View.{IsFrontier, setting_of};
ghost use Rattle.drt_shared_frontier.specs.Shared.{IsFresh, AreOf};
ghost use Rattle.drt_worklist.specs.Places.{total};

use crate::pass::FrontierPass;
use atomic_table::Seat;
use drt_frontier_board::{FrontierBoard, Terms};
use drt_lock::{Lock, SeatView};
use drt_model::Memory;
use drt_refine::Frontier;
use std::alloc::Global;

// Gives out so many passes, one part of the owner's seat to each, and to each the room for a copy of nodes.
pub(crate) fn deal(
    alloc: Global,
    lock: &Lock<FrontierBoard>,
    owner: &mut Seat<FrontierBoard, SeatView<Terms>>,
    roots: &[u32],
    count: u32,
) -> Result<Vec<FrontierPass>, Memory>
    requires name { owner.old.table_id ≡ lock.now.name }
    requires owner { (count ≤ 16) × Rests lock.now.fixed all_parts 0 owner.old.me }
    ensures name { IfOk result (λ passes. owner.new.table_id ≡ lock.now.name) }
    ensures owner { IfOk result (λ passes. (owner.new.me.0.parts + count ≡ all_parts) × Rests lock.now.fixed owner.new.me.0.parts 0 owner.new.me) }
    ensures count { IfOk result (λ passes. length passes.items ≡ count) }
    ensures passes { IfOk result (λ passes. EachPlace (IsFresh lock.now.name lock.now.fixed roots.now) passes.items) }
{
    let mut passes = Vec::with_capacity(alloc, count as usize)?;
    for number in 0..count {
        let nodes = Vec::from_slice(alloc, roots)?;
        let seat = lock.split(owner);
        passes.push_reserved(FrontierPass {
            number,
            count: 0,
            held: None,
            nodes,
            seat,
        });
    }
    Ok(passes)
}

// Takes the counts of the passes together. The frontier's log has as many entries.
pub(crate) fn gather(
    lock: Lock<FrontierBoard>,
    mut owner: Seat<FrontierBoard, SeatView<Terms>>,
    mut passes: Vec<FrontierPass>,
) -> Frontier
    requires name { owner.table_id ≡ lock.name }
    requires owner { (0 < owner.me.0.parts) × (owner.me.0.parts + length passes.items ≡ all_parts) × Rests lock.fixed owner.me.0.parts 0 owner.me }
    requires passes { AreOf lock.name lock.fixed passes.items }
    ensures setting { setting_of lock.fixed.forest result ≡ lock.fixed }
    ensures count { length result.log ≡ total (λ p. p.count) passes.items }
    ensures run { IsFrontier lock.fixed.forest result }
    ensures eager { IsEager lock.fixed result.log }
{
    while let Some(pass) = passes.pop() {
        let FrontierPass { seat, .. } = pass;
        lock.join(&mut owner, seat);
    }
    lock.close(owner).into_frontier()
}
