//! What a frontier shows.

ghost use Rattle.std.specs.Prelude.{◌≡◌, ◌<◌, ◌≤◌, length, slice_get, IfSome, nat_le};
ghost use Rattle.drt_worklist.specs.Places.{first};
ghost use Rattle.drt_refine.specs.Combination.{is_combination_pending, is_combination_taken, is_combination_held_by, is_failed};

use crate::frontier::Frontier;
use crate::step::{CombinationState, FrontierEntry};

impl Frontier {
    /// The number of combinations.
    pub fn count(&self) -> u32
        ensures { result ≡ length self.now.combinations }
    {
        self.states.count()
    }

    /// The nodes of the combination of that number, one for each root.
    pub fn combination(&self, id: u32) -> &[u32]
        requires { id < length self.now.combinations }
        ensures { IfSome (slice_get self.now.combinations id) (λ c. result.now ≡ c.nodes) }
    {
        let width = self.roots.len();
        let start = id as usize * width;
        &self.nodes[start..start + width]
    }

    /// The state of the combination of that number.
    pub fn state(&self, id: u32) -> CombinationState
        requires { id < length self.now.combinations }
        ensures { IfSome (slice_get self.now.combinations id) (λ c. result ≡ c.state) }
    {
        self.states.at(id)
    }

    /// The log, in order. The state is what its replay gives.
    pub fn log(&self) -> &[FrontierEntry]
        ensures { result.now ≡ self.now.log }
    {
        self.log.as_slice()
    }

    /// The log, in order, where the frontier is no longer needed.
    pub fn into_log(self) -> Vec<FrontierEntry>
        ensures { result.items ≡ self.log }
    {
        let Frontier { log, .. } = self;
        log
    }

    /// The least combination that the worker holds, if there is one.
    pub fn held_by(&self, worker: u32) -> Option<u32>
        ensures { result ≡ first (is_combination_held_by worker) self.now.combinations }
    {
        self.states.held_by(worker)
    }

    // The first combination that is pending.
    pub(crate) fn first_pending(&self) -> Option<u32>
        ensures { result ≡ first is_combination_pending self.now.combinations }
    {
        self.states.first_pending()
    }

    // The first combination that is taken.
    pub(crate) fn first_taken(&self) -> Option<u32>
        ensures value { result ≡ first is_combination_taken self.now.combinations }
        ensures within { length self.now.log ≤ self.now.budget }
    {
        self.states.first_taken()
    }

    // The first combination that has failed.
    pub(crate) fn first_failed(&self) -> Option<u32>
        ensures { result ≡ first is_failed self.now.combinations }
    {
        self.states.first_failed()
    }

    // Whether the log has as many entries as the budget allows.
    pub(crate) fn is_full(&self) -> bool
        ensures { result ≡ nat_le self.now.budget (length self.now.log) }
    {
        self.log.len() as u64 >= self.budget
    }
}
