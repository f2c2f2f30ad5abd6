//! The front of a task's walks.
ghost use Rattle.std.specs.Prelude.{◌≡◌, ◌+◌, ◌<◌, IfOk, IsTrue};
ghost use Rattle.drt_model.specs.Digraph.{IsConstrainedGraph, IsSoundGraph, vertex_count};
ghost use Rattle.drt_demand.specs.Demand.{demand_algebra};
ghost use Rattle.drt_table.specs.Cover.{IsFront};
ghost use Rattle.drt_table.specs.Machine.{is_finished};
ghost use Rattle.drt_table.specs.View.{setting_of, state_of};
ghost use Rattle.drt_claims.specs.Ranges.{IsCounted};
ghost use Rattle.drt_edf_fronts.specs.Falling.{AreFalling, IsFromVertex};
ghost use Rattle.drt_edf_fronts.specs.LabelFronts.{IsLabelFront};

use drt_demand::DemandLabel;
use drt_graph::{FrontEntry, Graph};
use drt_model::{Memory, Row};
use drt_table::{Table, over_every_interleaving};
use std::alloc::Global;

// The label as an entry of a front.
fn entry_of(label: DemandLabel) -> FrontEntry
    ensures { result ≡ label }
{
    FrontEntry {
        vertex: label.vertex,
        offset: label.offset,
        work: label.work,
    }
}

// Adds the labels of a vertex to those of the later ones, as the table hands them out: in descending order of offset.
fn add_labels(
    table: &Table<DemandLabel>,
    vertex: u32,
    front: &mut Vec<FrontEntry>,
) -> Result<(), Memory>
    requires vertex { vertex < vertex_count table.now.graph }
    requires sound { IsSoundGraph table.now.graph }
    requires finished { IsFront demand_algebra (setting_of table.now) (state_of table.now).nodes }
    requires later { AreFalling (setting_of table.now) (IsFromVertex (vertex + 1)) front.old.items }
    ensures { IfOk result (λ u. AreFalling (setting_of table.now) (IsFromVertex vertex) front.new.items) }
{
    let mut next = table.first_kept(vertex);
    'nodes: while let Some(id) = next {
        front.push(entry_of(*table.node(id).label()))?;
        next = table.next_kept(id);
    }
    Ok(())
}

/// The front of a finished search: the labels of walks due within the bound that no other label covers, in order of vertices
/// and then of offsets. The graph is the table's.
pub fn front_of(
    alloc: Global,
    graph: &Graph,
    table: &Table<DemandLabel>,
) -> Result<Row<FrontEntry>, Memory>
    requires graph { graph.now ≡ table.now.graph }
    requires finished { IsTrue (is_finished demand_algebra (setting_of table.now) (state_of table.now)) }
    requires constrained { IsConstrainedGraph table.now.graph }
    ensures front { IfOk result (λ front. IsLabelFront table.now.graph table.now.bound front) }
    ensures counted { IfOk result (λ front. IsCounted front) }
{
    table.keep_run();
    over_every_interleaving::<DemandLabel>();
    let count = graph.vertex_count();
    let mut front = Vec::new(alloc);
    'vertices: for later in 0..count {
        add_labels(table, count - 1 - later, &mut front)?;
    }
    // Tables number their nodes by 32 bits, so there are no more.
    if front.len() > 4294967295 {
        return Err(Memory);
    }
    front.reverse();
    Ok(Row::from_vec(front))
}
