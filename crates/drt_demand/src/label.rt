//! The demand label.

ghost use Rattle.std.specs.Prelude.{◌≡◌, ℕ, ◌≤◌, IfOk, IsTrue};
ghost use Rattle.drt_label.specs.Algebra.{Algebra, Laws};
ghost use Rattle.drt_model.specs.Limits.{IsTime};
ghost use Rattle.drt_demand.specs.Laws.{demand_laws};
ghost use Rattle.drt_demand.specs.Demand.{demand_algebra};

use drt_label::{Label, Memory, SAMPLES};
use std::alloc::Global;
use std::marker::Model;

/// The last vertex of a walk, the sum of its separations in ticks, and the sum of its execution times in ticks.
///
/// The offset is at most 2^40 + 1,000,000, and the work at most 1,000,000 for each of offset + 1 ticks: that much a
/// walk within any bound of a demand table can have.
///
/// Demand pairs are those of Stigge, Ekberg, Guan and Yi, "The Digraph Real-Time Task Model" (RTAS 2011); here the
/// deadline of the last vertex is left to the graph.
#[derive(Debug, PartialEq, Eq)]
pub struct DemandLabel {
    pub vertex: u32,
    pub offset: u64,
    pub work: u64,
}

impl Model for DemandLabel {
    ghost use Rattle.drt_graph.specs.declared.front.FrontEntry.{FrontEntry};

    ghost Value = { FrontEntry };

    ghost use Rattle.drt_demand.specs.Demand.{IsDemandWithinLimits};

    ghost view = { λ s. record { vertex = s.vertex; offset = s.offset; work = s.work } };

    ghost invariant = { λ s. IsDemandWithinLimits (record { vertex = s.vertex; offset = s.offset; work = s.work }) };

    ghost inverse = { λ x. record { vertex = x.vertex; offset = x.offset; work = x.work } };
}

impl Copy for DemandLabel {}

impl Clone for DemandLabel {
    ghost use Rattle.std.specs.Prelude.{◌≡◌};

    ghost is_clone = { λ x y. y ≡ x };

    fn clone(&self) -> Result<DemandLabel, Memory> {
        Ok(*self)
    }
}

impl Label for DemandLabel {
    type Spare = ();

    ghost algebra = { demand_algebra };

    ghost is_spare = { λ label spare. Unit {0} };

    ghost laws = { demand_laws };

    fn opening(_alloc: Global, number: u32, wcet: u32, _bound: u64) -> Result<DemandLabel, Memory> {
        Ok(DemandLabel {
            vertex: number,
            offset: 0,
            work: wcet as u64,
        })
    }

    fn extend(
        &self,
        _alloc: Global,
        sep: u32,
        target: u32,
        wcet: u32,
    ) -> Result<DemandLabel, Memory> {
        Ok(DemandLabel {
            vertex: target,
            offset: self.offset + sep as u64,
            work: self.work + wcet as u64,
        })
    }

    fn make_spare(&self, _alloc: Global) -> Result<(), Memory> {
        Ok(())
    }

    fn hand_out(&self, _spare: ()) -> DemandLabel {
        *self
    }

    fn vertex(&self) -> u32 {
        self.vertex
    }

    fn offset(&self) -> u64 {
        self.offset
    }

    fn in_range(&self, deadline: u32, bound: u64) -> bool {
        self.offset + deadline as u64 <= bound
    }

    fn dominates(&self, other: &DemandLabel) -> bool {
        self.vertex == other.vertex && self.offset <= other.offset && other.work <= self.work
    }

    /// Zeros: dominance is a chain, so nobody looks at samples.
    fn samples(&self) -> [u16; SAMPLES] {
        [0; SAMPLES]
    }

    fn is_chain() -> bool {
        true
    }
}
