//! The first of the arcs' candidates.
ghost use Rattle.std.specs.Prelude.{◌≡◌, ◌*◌, ◌<◌, ◌≤◌, length};
ghost use Rattle.std.specs.Vec.{vec_len};

use crate::mark::Mark;
use drt_model::Memory;
use std::alloc::Global;

// This mark stands for no candidate.
const NONE: Mark = Mark {
    offset: 18446744073709551615,
    work: 0,
};

// Whether a candidate is offered before another: by its smaller offset, and at one offset by its greater work. A processor can't foresee the
// answer, so there is no branch here.
fn comes_first(a: Mark, b: Mark) -> bool {
    (a.offset < b.offset) | ((a.offset == b.offset) & (a.work > b.work))
}

/// The candidates of the arcs, and a tree over them: each node names the arc whose candidate comes first among those below it. No proof rests on
/// the order, so no contract speaks of it.
#[derive(Debug, Drop)]
pub struct Queue {
    candidates: Vec<Mark>,
    nodes: Vec<u32>,
    leaves: usize,
    ghost each: { vec_len candidates ≡ leaves },
    ghost pairs: { vec_len nodes ≡ 2 * leaves },
}

impl Queue {
    /// No candidate for each of `count` arcs.
    pub fn new(alloc: Global, count: u32) -> Result<Queue, Memory>
        requires { count ≤ 65535 }
    {
        let leaves = count as usize + 1;
        let candidates = vec![in alloc; NONE; leaves]?;
        let mut nodes = vec![in alloc; 0u32; 2 * leaves]?;
        name_first(&mut nodes, leaves);
        Ok(Queue {
            candidates,
            nodes,
            leaves,
        })
    }

    /// The arc whose candidate comes first, where an arc has one.
    pub fn first(&self) -> Option<u32> {
        match self.nodes.get(1) {
            Some(arc) => { if self.has(*arc) { Some(*arc) } else { None } }
            None => None,
        }
    }

    /// Whether an arc has a candidate.
    pub fn has(&self, arc: u32) -> bool {
        match self.candidates.get(arc as usize) {
            Some(mark) => mark.offset != NONE.offset,
            None => false,
        }
    }

    /// The offset of the candidate of an arc, and the greatest number where it has none.
    pub fn offset(&self, arc: u32) -> u64 {
        match self.candidates.get(arc as usize) {
            Some(mark) => mark.offset,
            None => NONE.offset,
        }
    }

    /// Sets the candidate of an arc.
    pub fn set(&mut self, arc: u32, mark: Option<Mark>) {
        let candidate = mark.unwrap_or(NONE);
        let place = arc as usize;
        if place >= self.candidates.len() || self.candidates[place] == candidate {
            return;
        }
        self.candidates[place] = candidate;
        let leaf = self.leaves + place;
        raise(&mut self.nodes, &self.candidates, leaf, arc);
    }
}

// Names at each leaf its own arc, and at each node above the arc of its first leaf.
fn name_first(nodes: &mut [u32], leaves: usize)
    requires nodes { length nodes.old ≡ 2 * leaves }
    requires few { leaves ≤ 65536 }
{
    'leaves: for arc in 0..leaves {
        nodes[leaves + arc] = arc as u32;
    }
    'above: for at in (1..leaves).rev() {
        nodes[at] = nodes[2 * at];
    }
}

// Names again at each node above the leaf of an arc which arc comes first, after a change of this arc's candidate. Where another arc comes first
// before and after the change, nothing changes above.
fn raise(nodes: &mut [u32], candidates: &[Mark], leaf: usize, arc: u32)
    requires nodes { leaf < length nodes.old }
    requires arc { arc < length candidates.now }
{
    let mut at = leaf;
    let mut first = arc;
    'levels: while at > 1 {
        let beside = if at % 2 == 0 { at + 1 } else { at - 1 };
        if beside >= nodes.len() {
            return;
        }
        let other = nodes[beside];
        if other as usize >= candidates.len() {
            return;
        }
        let wins = comes_first(candidates[other as usize], candidates[first as usize]);
        first = if wins { other } else { first };
        at /= 2;
        if first != arc && nodes[at] == first {
            return;
        }
        nodes[at] = first;
    }
}
