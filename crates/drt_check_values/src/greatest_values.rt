//! Values of places, with the greatest ones of runs of places at hand.
ghost use Rattle.std.specs.Prelude.{◌≡◌, ℕ, ◌+◌, ◌*◌, ◌%◌, ◌^◌, ◌<◌, ◌≤◌, IfOk, length, replicate, slice_index_or, slice_range, slice_set};
ghost use Rattle.drt_model.specs.Numbers.{most_number};
ghost use Rattle.drt_check_values.specs.Greatest.{AreGreatestJoined, IsJoinedBut, greatest};

use drt_model::Memory;
use std::alloc::Global;
use std::marker::Model;

/// Values of places, that rise one at a time and of which the greatest among places that follow one another is found at once.
/// Contracts see the list of the values.
///
/// They stand in one list of nodes, behind as many nodes as there are places: each node from 1 on that is no place has the
/// greater value of the two at twice its own number.
#[derive(Debug, Drop)]
pub(crate) struct GreatestValues {
    count: usize,
    nodes: Vec<u64>,
}

impl Model for GreatestValues {
    ghost use Rattle.std.specs.Prelude.{◌≡◌, ℕ, ◌*◌, List, drop, length};
    ghost use Rattle.drt_check_values.specs.Greatest.{AreGreatestJoined};

    ghost Value = { List ℕ };

    ghost view = { λ v. drop v.count v.nodes.items };

    ghost invariant = { λ v. (length v.nodes.items ≡ 2 * v.count) × AreGreatestJoined v.nodes.items };
}

impl GreatestValues {
    /// The value 0 at each of `count` places.
    pub(crate) fn zeros(alloc: Global, count: usize) -> Result<GreatestValues, Memory>
        requires { count ≤ most_number }
        ensures { IfOk result (λ values. values ≡ replicate count 0) }
    {
        let nodes = vec![in alloc; 0u64; 2 * count]?;
        Ok(GreatestValues { count, nodes })
    }

    /// Raises the value of a place.
    pub(crate) fn raise(&mut self, place: usize, more: u64)
        requires place { place < length self.old }
        requires fits { slice_index_or self.old place 0 + more < 2 ^ 64 }
        ensures { self.new ≡ slice_set self.old place (slice_index_or self.old place 0 + more) }
    {
        let leaf = self.count + place;
        raise_node(self.nodes.as_mut_slice(), leaf, more);
    }

    /// The greatest value of the places from `first` on and before `end`.
    pub(crate) fn greatest_in(&self, first: usize, end: usize) -> u64
        requires order { first ≤ end }
        requires within { end ≤ length self.now }
        ensures { result ≡ greatest (slice_range self.now first end) }
    {
        greatest_of(self.nodes.as_slice(), self.count + first, self.count + end)
    }
}

// Raises the value of a node without parts, and with it those of the nodes above.
fn raise_node(nodes: &mut [u64], leaf: usize, more: u64)
    requires joined { AreGreatestJoined nodes.old }
    requires even { length nodes.old % 2 ≡ 0 }
    requires within { leaf < length nodes.old }
    requires leaf { length nodes.old ≤ 2 * leaf }
    requires fits { slice_index_or nodes.old leaf 0 + more < 2 ^ 64 }
    ensures joined { AreGreatestJoined nodes.new }
    ensures raised { (k : ℕ) → length nodes.old ≤ 2 * k → slice_index_or nodes.new k 0 ≡ slice_index_or (slice_set nodes.old leaf (slice_index_or nodes.old leaf 0 + more)) k 0 }
{
    let value = nodes[leaf] + more;
    nodes[leaf] = value;
    carry_up(nodes, leaf / 2, value);
}

// Carries a value up from a node as far as the values there are smaller.
fn carry_up(nodes: &mut [u64], start: usize, value: u64)
    requires { IsJoinedBut nodes.old start value }
    ensures joined { AreGreatestJoined nodes.new }
    ensures same { (k : ℕ) → length nodes.old ≤ 2 * k → slice_index_or nodes.new k 0 ≡ slice_index_or nodes.old k 0 }
{
    let mut node = start;
    'nodes: while node > 0 && nodes[node] < value {
        nodes[node] = value;
        node /= 2;
    }
}

// The greatest value of the nodes from `first` on and before `end`: the odd ones at both ends, and then those above the others.
fn greatest_of(nodes: &[u64], first: usize, end: usize) -> u64
    requires joined { AreGreatestJoined nodes.now }
    requires first { first < end → 1 ≤ first }
    requires order { first ≤ end }
    requires within { end ≤ length nodes.now }
    ensures { result ≡ greatest (slice_range nodes.now first end) }
{
    let mut left = first;
    let mut right = end;
    let mut most = 0;
    'levels: while left < right {
        if left % 2 == 1 {
            most = nodes[left].max(most);
            left += 1;
        }
        if right % 2 == 1 {
            right -= 1;
            most = nodes[right].max(most);
        }
        left /= 2;
        right /= 2;
    }
    most
}
