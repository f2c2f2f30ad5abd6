//! The queue of the pending nodes: the node of least offset comes first, and the least number in a tie.
//!
//! A node gets its ticket when it is added. The ticket of a node that waits no more stays until it comes first.

ghost use Rattle.std.specs.Prelude.{◌≡◌, ℕ, ◌+◌, ◌<◌, ◌≤◌, ◌^◌, ◌∷◌, Some, None, true, false, length, slice_get};
ghost use Rattle.std.specs.BinaryHeap.{IsHeap, IsUpperBound, heap_capacity, heap_items, heap_len};
ghost use Rattle.std.specs.List.Sorted.{IsPermutation};
ghost use Rattle.drt_table.specs.Held.{held_offset};
ghost use Rattle.drt_table.specs.Node.{is_node_pending};
ghost use Rattle.drt_table.specs.Earliest.{earliest};
ghost use Rattle.drt_table.specs.Waiting.{Ticket, ticket, ticket_cmp, AreWaiting, IsFresh, IsStale};

use crate::node::Node;
use drt_label::Label;
use std::cmp::Reverse;
use std::collections::BinaryHeap;

/// The tickets of nodes: an offset and a number each, the least first.
pub(crate) type Queue = BinaryHeap<Reverse<(u64, u32)>>;

// The pending node of least offset, the least number in a tie.
pub(crate) fn first_waiting<L: Label>(nodes: &[Node<L>], queue: &Queue) -> Option<u32>
    requires waiting { AreWaiting L.algebra nodes.now (heap_items queue.now) (length nodes.now) }
    requires fresh { IsFresh nodes.now (heap_items queue.now) }
    requires order { IsHeap ticket_cmp (heap_items queue.now) }
    ensures { result ≡ earliest (λ h. is_node_pending h.node) (held_offset L.algebra) nodes.now }
{
    match queue.peek() {
        Some(Reverse((_, id))) => Some(*id),
        None => None,
    }
}

// Gives tickets to the nodes from a number on, and goes past the tickets of nodes that wait no more.
pub(crate) fn admit<L: Label>(nodes: &[Node<L>], from: usize, queue: &mut Queue)
    requires from { from ≤ length nodes.now }
    requires few { length nodes.now ≤ 2 ^ 32 }
    requires waiting { AreWaiting L.algebra nodes.now (heap_items queue.old) from }
    requires order { IsHeap ticket_cmp (heap_items queue.old) }
    requires room { heap_len queue.old + length nodes.now ≤ heap_capacity queue.old + from }
    ensures waiting { AreWaiting L.algebra nodes.now (heap_items queue.new) (length nodes.now) }
    ensures fresh { IsFresh nodes.now (heap_items queue.new) }
    ensures order { IsHeap ticket_cmp (heap_items queue.new) }
    ensures len { heap_len queue.new + from ≤ heap_len queue.old + length nodes.now }
    ensures capacity { heap_capacity queue.old ≤ heap_capacity queue.new }
{
    give_tickets(nodes, from, queue);
    refresh(nodes, queue);
}

// Gives tickets to the nodes from a number on.
fn give_tickets<L: Label>(nodes: &[Node<L>], from: usize, queue: &mut Queue)
    requires from { from ≤ length nodes.now }
    requires few { length nodes.now ≤ 2 ^ 32 }
    requires waiting { AreWaiting L.algebra nodes.now (heap_items queue.old) from }
    requires order { IsHeap ticket_cmp (heap_items queue.old) }
    requires room { heap_len queue.old + length nodes.now ≤ heap_capacity queue.old + from }
    ensures waiting { AreWaiting L.algebra nodes.now (heap_items queue.new) (length nodes.now) }
    ensures order { IsHeap ticket_cmp (heap_items queue.new) }
    ensures len { heap_len queue.new + from ≡ heap_len queue.old + length nodes.now }
    ensures capacity { heap_capacity queue.old ≤ heap_capacity queue.new }
{
    for i in from..nodes.len() {
        push_ticket(queue, nodes[i].offset(), i as u32);
    }
}

// Goes past the tickets of nodes that wait no more.
pub(crate) fn refresh<L: Label>(nodes: &[Node<L>], queue: &mut Queue)
    requires waiting { AreWaiting L.algebra nodes.now (heap_items queue.old) (length nodes.now) }
    requires order { IsHeap ticket_cmp (heap_items queue.old) }
    ensures waiting { AreWaiting L.algebra nodes.now (heap_items queue.new) (length nodes.now) }
    ensures fresh { IsFresh nodes.now (heap_items queue.new) }
    ensures order { IsHeap ticket_cmp (heap_items queue.new) }
    ensures len { heap_len queue.new ≤ heap_len queue.old }
    ensures capacity { heap_capacity queue.new ≡ heap_capacity queue.old }
{
    while is_stale(nodes, queue) {
        pop_ticket(queue);
    }
}

// Whether the first ticket is that of a node that waits no more.
fn is_stale<L: Label>(nodes: &[Node<L>], queue: &Queue) -> bool
    requires { AreWaiting L.algebra nodes.now (heap_items queue.now) (length nodes.now) }
    ensures stale { result ≡ true → IsStale nodes.now (heap_items queue.now) }
    ensures fresh { result ≡ false → IsFresh nodes.now (heap_items queue.now) }
{
    match queue.peek() {
        Some(Reverse((_, id))) => !nodes[*id as usize].is_pending(),
        None => false,
    }
}

// A ticket more, where there is room.
fn push_ticket(queue: &mut Queue, offset: u64, number: u32)
    requires room { heap_len queue.old < heap_capacity queue.old }
    requires order { IsHeap ticket_cmp (heap_items queue.old) }
    ensures permutation { IsPermutation (ticket offset number ∷ heap_items queue.old) (heap_items queue.new) }
    ensures order { IsHeap ticket_cmp (heap_items queue.new) }
    ensures len { heap_len queue.new ≡ heap_len queue.old + 1 }
    ensures capacity { heap_capacity queue.old ≤ heap_capacity queue.new }
{
    match queue.push(Reverse((offset, number))) {
        Ok(()) => {}
        Err(_) => unreachable!(),
    }
}

// Takes out the first ticket.
pub(crate) fn pop_ticket(queue: &mut Queue)
    requires some { 0 < heap_len queue.old }
    requires order { IsHeap ticket_cmp (heap_items queue.old) }
    ensures first { (t : Ticket) × (slice_get (heap_items queue.old) 0 ≡ Some t) × IsUpperBound ticket_cmp t (heap_items queue.old) × IsPermutation (heap_items queue.old) (t ∷ heap_items queue.new) }
    ensures order { IsHeap ticket_cmp (heap_items queue.new) }
    ensures len { heap_len queue.new + 1 ≡ heap_len queue.old }
    ensures capacity { heap_capacity queue.new ≡ heap_capacity queue.old }
{
    match queue.pop() {
        Some(_) => {}
        None => unreachable!(),
    }
}
