//! The front of a finished table.
ghost use Rattle.std.specs.Prelude.{◌+◌, ◌*◌, ◌<◌, ◌≤◌, length, IfOk};
ghost use Rattle.drt_model.specs.Digraph.{IsConstrainedGraph, vertex_count};
ghost use Rattle.drt_model.specs.Legal.{AllNeighbours};
ghost use Rattle.drt_wave.specs.Greatest.{IsRangeEntry};
ghost use Rattle.drt_wave.specs.Fronts.{IsWalkEntry, IsFrontOf, IsExactFront, CoversAll};
ghost use Rattle.drt_graph.specs.FrontEntry.{IsNextEntry};
ghost use Rattle.drt_wave.specs.Gathered.{AreCellsGathered, IsMost};

use crate::dense::DenseFront;
use drt_graph::FrontEntry;
use drt_model::{Memory, Row};
use std::alloc::Global;

impl DenseFront {
    // Adds the label of a vertex and an offset where its work is more than `most`, that of all smaller offsets. Gives the greatest work so far.
    fn add_label(
        &self,
        vertex: u32,
        offset: u64,
        most: u64,
        front: &mut Vec<FrontEntry>,
    ) -> Result<u64, Memory>
        requires vertex { vertex < vertex_count self.now.plan.graph }
        requires offset { offset ≤ self.now.plan.bound }
        requires most { IsMost self.now vertex offset most }
        requires gathered { AreCellsGathered self.now vertex offset front.old.items }
        ensures most { IfOk result (λ m. IsMost self.now vertex (offset + 1) m) }
        ensures gathered { IfOk result (λ m. AreCellsGathered self.now vertex (offset + 1) front.new.items) }
    {
        let work = self.cell(vertex, offset);
        if work <= most {
            return Ok(most);
        }
        front.push(FrontEntry {
            vertex,
            offset,
            work,
        })?;
        Ok(work)
    }

    // Adds the labels of a vertex.
    fn add_vertex(&self, vertex: u32, front: &mut Vec<FrontEntry>) -> Result<(), Memory>
        requires vertex { vertex < vertex_count self.now.plan.graph }
        requires gathered { AreCellsGathered self.now vertex 0 front.old.items }
        ensures { IfOk result (λ u. AreCellsGathered self.now (vertex + 1) 0 front.new.items) }
    {
        let width = self.width();
        let mut most = 0;
        'offsets: for offset in 0..width {
            most = self.add_label(vertex, offset, most, front)?;
        }
        Ok(())
    }

    /// The labels of the walks in range that no other label covers, in order of vertices and then of offsets. Where deadlines are constrained
    /// a walk is in range as soon as its last job is due within the bound.
    pub fn front(&self, alloc: Global) -> Result<Row<FrontEntry>, Memory>
        ensures ordered { IfOk result (λ front. AllNeighbours IsNextEntry front) }
        ensures few { IfOk result (λ front. length front ≤ vertex_count self.now.plan.graph * (self.now.plan.bound + 1)) }
        ensures non_dominated { IfOk result (λ front. IsFrontOf (IsRangeEntry self.now.plan.graph self.now.plan.bound) front) }
        ensures covers { IfOk result (λ front. CoversAll (IsRangeEntry self.now.plan.graph self.now.plan.bound) front) }
        ensures exact { IfOk result (λ front. IsConstrainedGraph self.now.plan.graph → IsExactFront self.now.plan.bound self.now.plan.graph front) }
        ensures covers_walks { IfOk result (λ front. IsConstrainedGraph self.now.plan.graph → CoversAll (IsWalkEntry self.now.plan.graph self.now.plan.bound) front) }
    {
        self.keeps_best();
        let count = self.graph().vertex_count();
        let mut front = Vec::new(alloc);
        'vertices: for vertex in 0..count {
            self.add_vertex(vertex, &mut front)?;
        }
        Ok(Row::from_vec(front))
    }
}
