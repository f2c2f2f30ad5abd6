//! The label of a walk by its request function.
ghost use Rattle.std.specs.Prelude.{◌≡◌, ℕ};
ghost use Rattle.drt_model.specs.Digraph.{Digraph};
ghost use Rattle.drt_request.specs.Request.{request_algebra};
ghost use Rattle.drt_request.specs.Walk.{LabelWalks};
ghost use Rattle.drt_request.specs.Laws.{request_laws};

use drt_label::{Label, SAMPLES};
use drt_steps::Steps;
use std::alloc::{AllocError as Memory, Global};
use std::marker::Model;
use std::sync::Arc;

/// The last vertex of a walk, the offset of its last release in ticks, and its request function. It dominates another
/// one of its vertex where its offset is at most the other's and its function covers the other's. It is in range
/// where its offset is below the bound (Stigge and Yi, RTSS 2013).
#[derive(Drop)]
pub struct RequestLabel {
    vertex: u32,
    offset: u64,
    // The value at the bound, which tells most labels apart without a look at their functions.
    total: u64,
    steps: Arc<Steps>,
}

impl Model for RequestLabel {
    ghost use Rattle.std.specs.Prelude.{◌≡◌, length};
    ghost use Rattle.drt_steps.specs.Values.{value_at};
    ghost use Rattle.drt_request.specs.Request.{Request, AreValuesWithinLimits};

    ghost Value = { Request };

    ghost view = { λ s. record { vertex = s.vertex; offset = s.offset; values = s.steps.value } };

    ghost invariant = { λ s. AreValuesWithinLimits s.offset s.steps.value × (s.total ≡ value_at s.steps.value (length s.steps.value)) };
}

impl RequestLabel {
    /// The request function of the walk.
    pub fn steps(&self) -> &Steps
        ensures { result.now ≡ self.now.values }
    {
        &self.steps
    }
}

impl Label for RequestLabel {
    type Spare = Arc<Steps>;

    ghost algebra = { request_algebra };

    ghost is_spare = { λ label spare. spare.value ≡ label.values };

    fn opening(alloc: Global, number: u32, wcet: u32, bound: u64) -> Result<RequestLabel, Memory> {
        Ok(RequestLabel {
            vertex: number,
            offset: 0,
            total: wcet as u64,
            steps: Arc::new(alloc, Steps::flat(alloc, bound, wcet as u64)?)?,
        })
    }

    fn extend(
        &self,
        alloc: Global,
        sep: u32,
        target: u32,
        wcet: u32,
    ) -> Result<RequestLabel, Memory> {
        let offset = self.offset + sep as u64;
        let steps = self.steps.raise_after(alloc, offset, wcet as u64)?;
        Ok(RequestLabel {
            vertex: target,
            offset,
            total: steps.at(steps.bound()),
            steps: Arc::new(alloc, steps)?,
        })
    }

    fn make_spare(&self, _alloc: Global) -> Result<Arc<Steps>, Memory> {
        Arc::try_clone(&self.steps)
    }

    fn hand_out(&self, spare: Arc<Steps>) -> RequestLabel {
        RequestLabel {
            vertex: self.vertex,
            offset: self.offset,
            total: self.total,
            steps: spare,
        }
    }

    fn vertex(&self) -> u32 {
        self.vertex
    }

    fn offset(&self) -> u64 {
        self.offset
    }

    fn in_range(&self, _deadline: u32, bound: u64) -> bool {
        self.offset < bound
    }

    fn dominates(&self, other: &Self) -> bool {
        if self.total < other.total {
            return false;
        }
        self.vertex == other.vertex
            && self.offset <= other.offset
            && self.steps.covers(&other.steps)
    }

    fn samples(&self) -> [u16; SAMPLES] {
        self.steps.samples()
    }

    fn is_chain() -> bool {
        false
    }

    ghost laws = { request_laws };
}

/// The law that the label of a walk has the walk's last vertex, its span and its request function: the opening label
/// has those of the walk of one vertex, and each extension keeps this.
pub fn labels_of_walks()
    ensures { (g : Digraph) (bound : ℕ) → LabelWalks g bound }
{}
