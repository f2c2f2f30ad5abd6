//! The leaves of a task's tree to be, out of a search.
ghost use Rattle.std.specs.Prelude.{◌≡◌, ◌+◌, ◌<◌, ◌≤◌, IfOk, OnOk, length};
ghost use Rattle.drt_tree.specs.Leaf.{leaves_of};
ghost use Rattle.drt_request.specs.Request.{request_algebra};
ghost use Rattle.drt_table.specs.View.{IsTable, setting_of, state_of};
ghost use Rattle.drt_table.specs.Cover.{IsFront};
ghost use Rattle.drt_sp.specs.Gathering.{AreFirstLeaves};
ghost use Rattle.drt_sp.specs.TaskTrees.{AreWalkLeaves};

use drt_label::Label;
use drt_model::{Memory, Row};
use drt_request::RequestLabel;
use drt_table::{Node, Table};
use std::alloc::Global;
use std::sync::Arc;

/// The labels that a search kept, and the walk of each at its place.
#[derive(Drop)]
pub(crate) struct Leaves {
    pub(crate) labels: Vec<Arc<RequestLabel>>,
    pub(crate) walks: Vec<Row<u32>>,
}

// The label of a node. Its function is shared with the node.
fn label_of(alloc: Global, node: &Node<RequestLabel>) -> Result<Arc<RequestLabel>, Memory>
    ensures { IfOk result (λ label. label.value ≡ node.now.node.label) }
{
    let label = node.label();
    let spare = label.make_spare(alloc)?;
    Ok(Arc::new(alloc, label.hand_out(spare))?)
}

/// The leaves of a finished search, in order of its kept nodes. The labels are those of the table.
pub(crate) fn gather(alloc: Global, table: &Table<RequestLabel>) -> Result<Leaves, Memory>
    requires front { IsFront request_algebra (setting_of table.now) (state_of table.now).nodes }
    ensures table { IsTable request_algebra table.now }
    ensures same { IfOk result (λ leaves. length leaves.labels.items ≡ length leaves.walks.items) }
    ensures few { IfOk result (λ leaves. length leaves.labels.items ≤ length table.now.nodes) }
    ensures leaves { IfOk result (λ leaves. AreWalkLeaves table.now.bound table.now.graph (leaves_of leaves.labels.items leaves.walks.items)) }
{
    table.keep_run();
    let mut leaves = Leaves {
        labels: Vec::new(alloc),
        walks: Vec::new(alloc),
    };
    'nodes: for id in 0..table.node_count() as u32 {
        add_leaf(alloc, table, id, &mut leaves)?;
    }
    Ok(leaves)
}

// Adds the leaf of a node, if it is kept.
fn add_leaf(
    alloc: Global,
    table: &Table<RequestLabel>,
    id: u32,
    leaves: &mut Leaves,
) -> Result<(), Memory>
    requires within { id < length table.now.nodes }
    requires first { AreFirstLeaves table.now id leaves.old.labels.items leaves.old.walks.items }
    ensures { OnOk result (AreFirstLeaves table.now (id + 1) leaves.new.labels.items leaves.new.walks.items) }
{
    let node = table.node(id);
    if node.dropped_by().is_none() {
        leaves.labels.push(label_of(alloc, node)?)?;
        leaves.walks.push(table.walk(alloc, id)?)?;
    }
    Ok(())
}
