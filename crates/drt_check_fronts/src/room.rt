//! Whether the works of the fronts have room.
ghost use Rattle.std.specs.Prelude.{◌↔◌, IfOk, IsTrue};
ghost use Rattle.drt_claims.specs.Fronts.{HaveRoom};
ghost use Rattle.drt_check_fronts.specs.FrontOrder.{AreFrontsInOrder};

use drt_claims::FrontEntry;
use drt_graph::Graphs;
use drt_model::{Memory, Row};
use drt_rates::scan;
use std::alloc::Global;

/// Whether at each time at which an entry is due the greatest works of the tasks that are due by then are together at most the
/// time.
pub fn have_room(
    alloc: Global,
    graphs: &Graphs,
    fronts: &[Row<FrontEntry>],
    bound: u64,
) -> Result<bool, Memory>
    requires { AreFrontsInOrder graphs.now bound fronts.now }
    ensures { IfOk result (λ room. IsTrue room ↔ HaveRoom graphs.now fronts.now) }
{
    match scan(alloc, graphs, fronts, bound)? {
        Some(_) => Ok(false),
        None => Ok(true),
    }
}
