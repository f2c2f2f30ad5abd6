//! The entries of a front, in one list for each vertex.
ghost use Rattle.std.specs.Prelude.{◌≡◌, IfOk, map};
ghost use Rattle.std.specs.List.{range_with_len};
ghost use Rattle.drt_tails.specs.Cut.{jumps_at};

use drt_graph::FrontEntry;
use drt_model::{Memory, Row};
use drt_states::Jump;
use std::alloc::Global;

// The jumps of the entries of a vertex.
fn curve_at(alloc: Global, front: &[FrontEntry], vertex: u32) -> Result<Vec<Jump>, Memory>
    ensures { IfOk result (λ jumps. jumps.items ≡ jumps_at front.now vertex) }
{
    front
        .iter()
        .filter(|entry| entry.vertex == vertex)
        .map(|entry| Jump {
            offset: entry.offset,
            work: entry.work,
        })
        .collect(alloc)
}

/// For each of `count` vertices the jumps of its entries.
pub fn curves_of(alloc: Global, front: &[FrontEntry], count: u32) -> Result<Vec<Row<Jump>>, Memory>
    ensures { IfOk result (λ curves. curves.items ≡ map (jumps_at front.now) (range_with_len 0 count)) }
{
    let mut curves = Vec::with_capacity(alloc, count as usize)?;
    'vertices: for vertex in 0..count {
        curves.push(Row::from_vec(curve_at(alloc, front, vertex)?))?;
    }
    Ok(curves)
}
