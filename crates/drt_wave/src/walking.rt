//! A walk with the greatest work of a cell, found backwards.
ghost use Rattle.std.specs.Prelude.{ℕ, ◌<◌, ◌≤◌, IfOk};
ghost use Rattle.drt_model.specs.Digraph.{vertex_count};
ghost use Rattle.drt_wave.specs.Dense.{work_at};
ghost use Rattle.drt_wave.specs.Greatest.{HasWalk, IsGreatestWork, IsWorkWalkTo};
ghost use Rattle.drt_wave.specs.Backwards.{IsOffsetBefore, IsBackStep};

use crate::dense::DenseFront;
use drt_model::{Memory, Row};
use std::alloc::Global;

impl DenseFront {
    // The offset at which a walk with the greatest work of a cell comes from vertex `u`, if one does.
    fn one_before(&self, u: u32, vertex: u32, offset: u64) -> Option<u64>
        requires from { u < vertex_count self.now.plan.graph }
        requires vertex { vertex < vertex_count self.now.plan.graph }
        requires offset { offset ≤ self.now.plan.bound }
        ensures { IsOffsetBefore self.now u vertex offset result }
    {
        let Some(sep) = self.graph().separation(u, vertex) else {
            return None;
        };
        let gap = u64::from(sep);
        if offset < gap {
            return None;
        }
        let before = self.cell(u, offset - gap);
        if before == 0 {
            return None;
        }
        let wcet = u64::from(self.graph().vertex(vertex).wcet);
        let work = self.cell(vertex, offset);
        if work < wcet {
            return None;
        }
        if before != work - wcet {
            return None;
        }
        Some(offset - gap)
    }

    // The vertex and the offset at which a walk with the greatest work of a cell was one edge before.
    fn step_back(&self, vertex: u32, offset: u64) -> (u32, u64)
        requires vertex { vertex < vertex_count self.now.plan.graph }
        requires offset { offset ≤ self.now.plan.bound }
        requires later { 0 < offset }
        requires some { 0 < work_at self.now vertex offset }
        ensures { IsBackStep self.now result.0 result.1 vertex offset }
    {
        self.keeps_best();
        let count = self.graph().vertex_count();
        'vertices: for u in 0..count {
            match self.one_before(u, vertex, offset) {
                Some(before) => return (u, before),
                None => (),
            }
        }
        unreachable!()
    }

    /// A walk in range that ends at a vertex, whose separations sum to the offset, with the greatest work of such a walk. There is one where
    /// `work` isn't 0.
    pub fn walk(&self, alloc: Global, vertex: u32, offset: u64) -> Result<Row<u32>, Memory>
        requires vertex { vertex < vertex_count self.now.plan.graph }
        requires offset { offset ≤ self.now.plan.bound }
        requires some { (x : ℕ) × HasWalk self.now.plan.graph self.now.plan.bound vertex offset x }
        ensures { IfOk result (λ walk. (x : ℕ) × IsGreatestWork self.now.plan.graph self.now.plan.bound vertex offset x × IsWorkWalkTo self.now.plan.graph self.now.plan.bound vertex offset x walk) }
    {
        self.keeps_best();
        let mut walk = Vec::new(alloc);
        let mut at = vertex;
        let mut left = offset;
        walk.push(at)?;
        'steps: while left > 0 {
            (at, left) = self.step_back(at, left);
            walk.push(at)?;
        }
        walk.reverse();
        Ok(Row::from_vec(walk))
    }
}
