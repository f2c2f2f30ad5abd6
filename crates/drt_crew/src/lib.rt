//! Who works, and for how long.
#![tactic(auto)]

ghost use Rattle.std.specs.Prelude.{◌≡◌};
ghost use Rattle.drt_effort.specs.declared.Effort.{Effort};

use drt_effort::Effort;
use std::alloc::Global;

/// Who works, and for how long: so many workers at most, with so many steps for each search. The gate sees each turn of a worker, or each
/// job, before it begins.
#[derive(Drop)]
pub struct Crew<'a, G, R> {
    pub rt: &'a R,
    pub alloc: Global,
    pub effort: Effort,
    pub gate: &'a G,
}

impl<'a, G, R> Crew<'a, G, R> {
    /// The same crew with another number of workers or steps.
    pub fn with(&self, effort: Effort) -> Crew<'a, G, R>
        ensures { result.effort ≡ effort }
    {
        Crew {
            rt: self.rt,
            alloc: self.alloc,
            effort,
            gate: self.gate,
        }
    }
}
