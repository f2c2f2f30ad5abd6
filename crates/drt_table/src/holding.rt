//! The list of the taken nodes. It is as short as the workers are few, since a worker ends a node before it takes another.

ghost use Rattle.std.specs.Prelude.{◌≡◌, ◌≢◌, ℕ, ◌+◌, ◌<◌, ◌≤◌, ◌==◌, Some, None, length, option_map, vec_len, vec_capacity};
ghost use Rattle.std.specs.List.{Contains};
ghost use Rattle.drt_table.specs.Held.{held_offset};
ghost use Rattle.drt_table.specs.Node.{is_taken, is_held_by};
ghost use Rattle.drt_worklist.specs.Places.{first};
ghost use Rattle.drt_table.specs.Earliest.{earliest};
ghost use Rattle.drt_table.specs.Waiting.{AreHeld, earlier};

use crate::node::Node;
use crate::shortest::smaller;
use drt_label::Label;

// The taken node of least offset, the least number in a tie.
pub(crate) fn first_taken<L: Label>(nodes: &[Node<L>], taken: &[u32]) -> Option<u32>
    requires { AreHeld nodes.now taken.now }
    ensures { result ≡ earliest (λ h. is_taken h.node) (held_offset L.algebra) nodes.now }
{
    let mut best = None;
    for j in 0..taken.len() {
        let id = taken[j];
        let node = &nodes[id as usize];
        if node.is_taken() {
            best = earlier(best, id, node.offset());
        }
    }
    number_of(best)
}

// The least node that the worker holds.
pub(crate) fn first_held<L: Label>(nodes: &[Node<L>], taken: &[u32], worker: u32) -> Option<u32>
    requires { AreHeld nodes.now taken.now }
    ensures { result ≡ first (λ h. is_held_by worker h.node) nodes.now }
{
    let mut least = None;
    for j in 0..taken.len() {
        let id = taken[j];
        if nodes[id as usize].is_held_by(worker) {
            least = smaller(least, Some(id));
        }
    }
    least
}

// Takes a number out of the list.
pub(crate) fn forget(taken: &mut Vec<u32>, id: u32)
    ensures others { (k : ℕ) → k ≢ id → Contains taken.old.items k → Contains taken.new.items k }
    ensures within { (k : ℕ) → Contains taken.new.items k → Contains taken.old.items k }
    ensures len { vec_len taken.new ≤ vec_len taken.old }
    ensures capacity { vec_capacity taken.new ≡ vec_capacity taken.old }
{
    match place_of(taken.as_slice(), id) {
        Some(j) => {
            taken.swap_remove(j);
        }
        None => {}
    }
}

// The place of a number.
fn place_of(taken: &[u32], id: u32) -> Option<usize>
    ensures { result ≡ first (λ k. k == id) taken.now }
{
    for j in 0..taken.len() {
        if taken[j] == id {
            return Some(j);
        }
    }
    None
}

// The better of the best node so far, with its offset, and another one: that of less offset, or of less number in a tie.
fn earlier(best: Option<(u32, u64)>, id: u32, offset: u64) -> Option<(u32, u64)>
    ensures { result ≡ earlier best id offset }
{
    match best {
        None => Some((id, offset)),
        Some((number, least)) => {
            if offset < least {
                Some((id, offset))
            } else if offset == least && id < number {
                Some((id, offset))
            } else {
                best
            }
        }
    }
}

fn number_of(best: Option<(u32, u64)>) -> Option<u32>
    ensures { result ≡ option_map (λ b. b.0) best }
{
    match best {
        None => None,
        Some((id, _)) => Some(id),
    }
}
