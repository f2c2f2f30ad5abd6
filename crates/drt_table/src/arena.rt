//! The nodes of a table, and how they are found.
//!
//! The kept nodes of a vertex form a list, with node numbers for links. The pending nodes stand in a queue, the taken ones
//! in a short list. All room is taken when an arena is made.

ghost use Rattle.std.specs.Prelude.{◌≡◌, ℕ, ◌+◌, ◌<◌, ◌≤◌, ◌^◌, ◌++◌, ◌∷◌, [], IfOk, IfSome, IsTrue, true, false, Some, None, length, map, slice_get, option_map, unwrap_or, nat_lt, vec_len, vec_capacity, if◌then◌else◌};
ghost use Rattle.drt_table.specs.Arena.{Stock, HasNodes};
ghost use Rattle.drt_table.specs.Held.{AllOf, take_by, count_offer, close_node, hand_out, fresh_held, held_offset, drop_held, dominates_held, placed_nodes, placed_reply};
ghost use Rattle.drt_table.specs.Links.{AreAlone};
ghost use Rattle.drt_table.specs.KeptOrder.{IsFirstKept, IsNextKept};
ghost use Rattle.drt_table.specs.Node.{NodeOf, Held, is_node_pending, is_taken, is_held_by};
ghost use Rattle.drt_worklist.specs.Places.{first, changed};
ghost use Rattle.drt_table.specs.Earliest.{earliest};
ghost use Rattle.std.specs.Option.{ForSome};
ghost use Rattle.drt_model.specs.Limits.{IsTime};
ghost use Rattle.drt_table.specs.Taking.{is_soon};
ghost use Rattle.drt_table.specs.View.{kept_at};

use crate::holding::{first_held, first_taken, forget};
use crate::kept::{Origin, place_in, push_node};
use crate::node::{Node, Twin};
use crate::sampling::{make_columns, sample};
use crate::step::TableReply;
use crate::waiting::{Queue, admit, first_waiting, pop_ticket, refresh};
use drt_columns::Columns;
use drt_label::{Label, Memory};
use drt_worklist::push_within;
use std::alloc::Global;
use std::collections::BinaryHeap;
use std::marker::Model;

/// The nodes, with room for all that a table can have.
#[derive(Drop)]
pub(crate) struct Arena<L: Label> {
    nodes: Vec<Node<L>>,
    // The kept node of the node's vertex with the next smaller offset, for each kept node.
    links: Vec<Option<u32>>,
    // The kept node of greatest offset of each vertex.
    heads: Vec<Option<u32>>,
    // The pending nodes.
    queue: Queue,
    // The taken nodes.
    taken: Vec<u32>,
    // The samples of all nodes, where the kind of label isn't a chain.
    columns: Columns,
    room: usize,
}

impl<L: Label> Model for Arena<L> {
    ghost use Rattle.std.specs.Prelude.{◌+◌, ◌≤◌, length, vec_len, vec_capacity};
    ghost use Rattle.std.specs.BinaryHeap.{heap_capacity, heap_items, heap_len};
    ghost use Rattle.drt_table.specs.Arena.{Stock, AreArranged};
    ghost use Rattle.drt_table.specs.Sampled.{IsShelf};

    ghost Value = { Stock L };

    ghost view = { λ s. record { nodes = s.nodes.items; vertices = length s.heads.items; room = s.room } };

    ghost invariant = { λ s.
        AreArranged L.algebra s.nodes.items s.links.items s.heads.items (heap_items s.queue) s.taken.items
        × (length s.nodes.items ≤ s.room)
        × (heap_len s.queue + vec_len s.taken ≤ length s.nodes.items)
        × (s.room ≤ vec_capacity s.nodes)
        × (s.room ≤ vec_capacity s.links)
        × (s.room ≤ heap_capacity s.queue)
        × (s.room ≤ vec_capacity s.taken)
        × IsShelf L.algebra s.nodes.items (length s.heads.items) s.room s.columns };
}

impl<L: Label> Arena<L> {
    // An empty arena.
    pub(crate) fn new(alloc: Global, vertices: u32, room: usize) -> Result<Arena<L>, Memory>
        requires vertices { vertices ≤ 1000 }
        requires room { room ≤ 2000000 }
        ensures nodes { IfOk result (λ arena. arena.nodes ≡ []) }
        ensures vertices { IfOk result (λ arena. arena.vertices ≡ vertices) }
        ensures room { IfOk result (λ arena. arena.room ≡ room) }
    {
        let nodes = Vec::with_capacity(alloc, room)?;
        let links = Vec::with_capacity(alloc, room)?;
        let heads = vec![in alloc; None; vertices as usize]?;
        let queue = BinaryHeap::with_capacity(alloc, room)?;
        let taken = Vec::with_capacity(alloc, room)?;
        let columns = make_columns::<L>(alloc, vertices, room)?;
        Ok(Arena {
            nodes,
            links,
            heads,
            queue,
            taken,
            columns,
            room,
        })
    }

    pub(crate) fn count(&self) -> usize
        ensures { result ≡ length self.now.nodes }
    {
        self.nodes.len()
    }

    pub(crate) fn node(&self, id: u32) -> &Node<L>
        requires { id < length self.now.nodes }
        ensures { slice_get self.now.nodes id ≡ Some result.now }
    {
        &self.nodes[id as usize]
    }

    // The pending node of least offset, the least number in a tie.
    pub(crate) fn next(&self) -> Option<u32>
        ensures { result ≡ earliest (λ h. is_node_pending h.node) (held_offset L.algebra) self.now.nodes }
    {
        first_waiting(self.nodes.as_slice(), &self.queue)
    }

    // The taken node of least offset, the least number in a tie.
    pub(crate) fn holder(&self) -> Option<u32>
        ensures { result ≡ earliest (λ h. is_taken h.node) (held_offset L.algebra) self.now.nodes }
    {
        first_taken(self.nodes.as_slice(), self.taken.as_slice())
    }

    // Whether no taken node can give an offset as small as the next node's.
    pub(crate) fn is_soon(
        &self,
        next: Option<u32>,
        holder: Option<u32>,
        shortest: Option<u32>,
        bound: u64,
    ) -> bool
        requires next { ForSome next (λ k. k < length self.now.nodes) }
        requires holder { ForSome holder (λ k. k < length self.now.nodes) }
        ensures { result ≡ is_soon L.algebra self.now.nodes (unwrap_or shortest (bound + 1)) next holder }
    {
        match (next, holder) {
            (Some(k), Some(h)) => {
                let offset = self.nodes[k as usize].offset();
                is_within(offset, self.nodes[h as usize].offset(), shortest, bound)
            }
            (Some(_), None) => true,
            (None, _) => false,
        }
    }

    // The least node that the worker holds.
    pub(crate) fn held_by(&self, worker: u32) -> Option<u32>
        ensures { result ≡ first (λ h. is_held_by worker h.node) self.now.nodes }
    {
        first_held(self.nodes.as_slice(), self.taken.as_slice(), worker)
    }

    // The first kept node of the vertex.
    pub(crate) fn first_kept(&self, vertex: u32) -> Option<u32>
        requires { vertex < self.now.vertices }
        ensures { IsFirstKept L.algebra (map (λ h. h.node) self.now.nodes) vertex result }
    {
        self.heads[vertex as usize]
    }

    // The next kept node of the node's vertex.
    pub(crate) fn next_kept(&self, id: u32) -> Option<u32>
        requires { (n : NodeOf L) × (slice_get (map (λ h. h.node) self.now.nodes) id ≡ Some n) × (n.dropped_by ≡ None) }
        ensures { (n : NodeOf L) → slice_get (map (λ h. h.node) self.now.nodes) id ≡ Some n → IsNextKept L.algebra (map (λ h. h.node) self.now.nodes) (L.algebra.vertex n.label) id n result }
    {
        self.links[id as usize]
    }

    // Adds an opening node, the first of its vertex.
    pub(crate) fn open(&mut self, twin: Twin<L>)
        requires room { length self.old.nodes < self.old.room }
        requires few { length self.old.nodes < 2 ^ 32 }
        requires vertex { L.algebra.vertex twin < self.old.vertices }
        requires alone { AllOf (λ h. kept_at L.algebra (L.algebra.vertex twin) h.node ≡ false) self.old.nodes }
        ensures { HasNodes self.old self.new (self.old.nodes ++ fresh_held twin None ∷ []) }
    {
        let from = self.nodes.len();
        let heads = self.heads.as_mut_slice();
        push_node(
            &mut self.nodes,
            &mut self.links,
            heads,
            None,
            Node::fresh(twin, None),
        );
        admit(self.nodes.as_slice(), from, &mut self.queue);
        sample(self.nodes.as_slice(), from, &mut self.columns);
    }

    // Lets the worker take the next node.
    pub(crate) fn take_by(&mut self, id: u32, worker: u32)
        requires { Some id ≡ earliest (λ h. is_node_pending h.node) (held_offset L.algebra) self.old.nodes }
        ensures { HasNodes self.old self.new (changed id (take_by worker) self.old.nodes) }
    {
        self.nodes[id as usize].take_by(worker);
        pop_ticket(&mut self.queue);
        refresh(self.nodes.as_slice(), &mut self.queue);
        push_within(&mut self.taken, id);
    }

    // Offers a label: it is out of range, or dominated, or it is added and drops the kept nodes that it dominates.
    pub(crate) fn place(&mut self, twin: Twin<L>, origin: Origin) -> TableReply
        requires room { length self.old.nodes < self.old.room }
        requires few { length self.old.nodes < 2 ^ 32 }
        requires vertex { L.algebra.vertex twin < self.old.vertices }
        requires deadline { IsTime origin.deadline }
        requires of { IsTrue (L.algebra.is_of twin origin.bound) }
        requires all_of { AllOf (λ h. IsTrue (L.algebra.is_of h.node.label origin.bound)) self.old.nodes }
        requires alone { AreAlone L.algebra self.old.nodes }
        ensures nodes { HasNodes self.old self.new (placed_nodes L.algebra twin origin.parent origin.deadline origin.bound self.old.nodes) }
        ensures reply { result ≡ placed_reply L.algebra twin origin.deadline origin.bound self.old.nodes }
    {
        let from = self.nodes.len();
        let heads = self.heads.as_mut_slice();
        let reply = place_in(
            &mut self.nodes,
            &mut self.links,
            heads,
            &self.columns,
            twin,
            origin,
        );
        admit(self.nodes.as_slice(), from, &mut self.queue);
        sample(self.nodes.as_slice(), from, &mut self.columns);
        reply
    }

    pub(crate) fn count_offer(&mut self, id: u32)
        requires { (h : Held L) × (slice_get self.old.nodes id ≡ Some h) × (h.node.offered < 1000) }
        ensures { HasNodes self.old self.new (changed id count_offer self.old.nodes) }
    {
        self.nodes[id as usize].count_offer();
    }

    pub(crate) fn close(&mut self, id: u32)
        requires { (h : Held L) × (slice_get self.old.nodes id ≡ Some h) × IsTrue (is_taken h.node) }
        ensures { HasNodes self.old self.new (changed id close_node self.old.nodes) }
    {
        self.nodes[id as usize].close();
        forget(&mut self.taken, id);
    }

    pub(crate) fn hand_out(&mut self, id: u32) -> L
        requires { (h : Held L) × (slice_get self.old.nodes id ≡ Some h) × IsTrue h.spare × IsTrue (is_taken h.node) }
        ensures nodes { HasNodes self.old self.new (changed id hand_out self.old.nodes) }
        ensures label { IfSome (slice_get self.old.nodes id) (λ h. result ≡ h.node.label) }
    {
        self.nodes[id as usize].hand_out()
    }
}

// Whether an offset is below another one plus the shortest separation, or plus the bound and 1 where there is none.
fn is_within(offset: u64, from: u64, shortest: Option<u32>, bound: u64) -> bool
    ensures { result ≡ nat_lt offset (from + unwrap_or shortest (bound + 1)) }
{
    let gap = offset.saturating_sub(from);
    match shortest {
        Some(sep) => offset < from || gap < sep as u64,
        None => gap <= bound,
    }
}
