//! A look at the labels of a vertex.

ghost use Rattle.std.specs.Prelude.{◌≡◌, ◌≢◌, ℕ, ◌<◌, ◌≤◌, Some, length, slice_get};

use crate::block::Mask;
use drt_label::SAMPLES;

/// A look at the labels of a vertex, for those none of whose samples is less than these: at which block it is, at which
/// slot it goes on there, and which labels of the block are still possible.
#[derive(Drop)]
pub struct Seek {
    pub(crate) vertex: u32,
    pub(crate) samples: [u16; SAMPLES],
    pub(crate) block: usize,
    pub(crate) slot: usize,
    pub(crate) possible: Mask,
}

/// The first block of a vertex, from one on: the number of blocks where there's none.
pub(crate) fn next_owned(owners: &[u32], vertex: u32, from: usize) -> usize
    requires { from ≤ length owners.now }
    ensures later { from ≤ result }
    ensures within { result ≤ length owners.now }
    ensures passed { (k : ℕ) → from ≤ k → k < result → slice_get owners.now k ≢ Some vertex }
    ensures found { result < length owners.now → slice_get owners.now result ≡ Some vertex }
{
    for block in from..owners.len() {
        if owners[block] == vertex {
            return block;
        }
    }
    owners.len()
}
