//! The samples of the nodes' labels, for a kind of label that isn't a chain.
//!
//! A label dominates another one only where none of its samples is less. So of the nodes of a vertex only those are compared
//! with a new label whose samples don't tell already that they don't dominate it. A kind that is a chain keeps no samples.

ghost use Rattle.std.specs.Prelude.{◌≡◌, ℕ, ◌+◌, ◌<◌, ◌≤◌, ◌^◌, IfOk, IsTrue, [], false, length};
ghost use Rattle.drt_table.specs.Held.{AllOf, dominates_held};
ghost use Rattle.drt_table.specs.Sampled.{labels_of, AreSampled, CanSample, HasSamples, IsShelf};
ghost use Rattle.drt_worklist.specs.Places.{first};

use crate::node::Node;
use drt_columns::Columns;
use drt_label::{Label, Memory};
use std::alloc::Global;

// The samples of no nodes yet, with room for so many, or for none where the kind of label is a chain.
pub(crate) fn make_columns<L: Label>(
    alloc: Global,
    vertices: u32,
    room: usize,
) -> Result<Columns, Memory>
    requires vertices { vertices ≤ 1000 }
    requires room { room ≤ 2000000 }
    ensures { IfOk result (λ columns. IsShelf L.algebra [] vertices room columns) }
{
    if L::is_chain() {
        Columns::new(alloc, 0, 0)
    } else {
        Columns::new(alloc, vertices, room)
    }
}

// Adds the samples of the node of that number, if there is one, where the kind of label isn't a chain.
pub(crate) fn sample<L: Label>(nodes: &[Node<L>], number: usize, columns: &mut Columns)
    requires few { length nodes.now ≤ 2 ^ 32 }
    requires last { length nodes.now ≤ number + 1 }
    requires can { L.algebra.is_chain ≡ false → CanSample L.algebra nodes.now number columns.old }
    ensures sampled { L.algebra.is_chain ≡ false → AreSampled L.algebra (labels_of nodes.now) columns.new }
    ensures vertices { columns.new.vertices ≡ columns.old.vertices }
    ensures room { columns.new.room ≡ columns.old.room }
{
    if L::is_chain() {
        return;
    }
    if number >= nodes.len() {
        return;
    }
    let label = nodes[number].label();
    columns.push(label.vertex(), number as u32, label.samples());
}

// The least kept node that dominates the label, found by samples.
pub(crate) fn first_told<L: Label>(nodes: &[Node<L>], columns: &Columns, label: &L) -> Option<u32>
    requires sampled { AreSampled L.algebra (labels_of nodes.now) columns.now }
    requires vertex { L.algebra.vertex label.now < columns.now.vertices }
    requires of { (bound : ℕ) × IsTrue (L.algebra.is_of label.now bound) × AllOf (λ h. IsTrue (L.algebra.is_of h.node.label bound)) nodes.now }
    ensures { result ≡ first (dominates_held L.algebra label.now) nodes.now }
{
    let mut seek = columns.seek(label.vertex(), label.samples());
    while let Some(number) = columns.next(&mut seek) {
        if nodes[number as usize].is_above(label) {
            return Some(number);
        }
    }
    None
}
