//! The works of a finished table.
ghost use Rattle.std.specs.Prelude.{◌≡◌, ◌+◌, ◌<◌, ◌≤◌};
ghost use Rattle.drt_model.specs.Digraph.{vertex_count};
ghost use Rattle.drt_wave.specs.Cells.{IsWavePlan};
ghost use Rattle.drt_wave.specs.Dense.{AreBest, AreWhole, work_at};
ghost use Rattle.drt_wave.specs.Greatest.{IsGreatestWork};

use crate::dense::DenseFront;
use drt_graph::Graph;

impl DenseFront {
    // What a finished table keeps: each cell holds the greatest work that reaches it.
    pub(crate) fn keeps_best(&self)
        ensures planned { IsWavePlan self.now.plan }
        ensures whole { AreWhole self.now.plan self.now.columns }
        ensures best { AreBest self.now.plan self.now.columns }
    {
        let _plan = &self.plan;
    }

    /// The graph whose walks these are.
    pub fn graph(&self) -> &Graph
        ensures { result.now ≡ self.now.plan.graph }
    {
        &self.plan.graph
    }

    /// The greatest offset, in ticks.
    pub fn bound(&self) -> u64
        ensures { result ≡ self.now.plan.bound }
    {
        self.plan.bound
    }

    // How many offsets there are.
    pub(crate) fn width(&self) -> u64
        ensures { result ≡ self.now.plan.bound + 1 }
    {
        self.plan.width()
    }

    // The cell of a vertex and an offset.
    pub(crate) fn cell(&self, vertex: u32, offset: u64) -> u64
        requires vertex { vertex < vertex_count self.now.plan.graph }
        requires offset { offset ≤ self.now.plan.bound }
        ensures { result ≡ work_at self.now vertex offset }
    {
        self.columns.as_slice()[vertex as usize].work(offset)
    }

    /// The greatest work of the walks in range of the bound that end at a vertex and whose separations sum to the offset, and 0 where
    /// there is none.
    pub fn work(&self, vertex: u32, offset: u64) -> u64
        requires vertex { vertex < vertex_count self.now.plan.graph }
        requires offset { offset ≤ self.now.plan.bound }
        ensures { IsGreatestWork self.now.plan.graph self.now.plan.bound vertex offset result }
    {
        self.keeps_best();
        self.cell(vertex, offset)
    }
}
