//! What a shared frontier answers.

ghost use Rattle.std.specs.Prelude.{◌≡◌};

use drt_refine::FrontierReply;

/// What a call found under the lock: the least combination that the frontier says the worker holds, and whether its nodes are the
/// pass's copy (false where either has none).
#[derive(Clone, Copy, Debug, PartialEq, Eq)]
pub struct FrontierFound {
    pub held: Option<u32>,
    pub same: bool,
}

/// What a call answers: the frontier's reply to its one step, or that the frontier holds something else for the worker than its
/// pass. The last changes nothing.
#[derive(Clone, Copy, Debug, PartialEq, Eq)]
pub enum FrontierAnswer {
    Step(FrontierReply),
    Strange(FrontierFound),
}
