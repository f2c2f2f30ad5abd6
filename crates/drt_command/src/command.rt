//! A command that makes its text alone.
ghost use Rattle.std.specs.Prelude.{IfErr, IfOk};
ghost use Rattle.drt_command.specs.Inputs.{IsInputWithin};
ghost use Rattle.drt_command.specs.Rules.{IsUnmadeCause};

use crate::promised::Promised;
use crate::report::{Report, Unmade};
use std::alloc::Global;

/// A command that makes its text without workers.
pub trait Command: Promised {
    /// What it makes of its input.
    fn make(&self, alloc: Global, bytes: &[u8]) -> Result<Report, Unmade>
        requires { IsInputWithin (Self.rules self.now).input bytes.now }
        ensures makes { IfOk result ((Self.rules self.now).makes bytes.now) }
        ensures unmade { IfErr result (IsUnmadeCause (Self.rules self.now).refuses bytes.now) };
}
