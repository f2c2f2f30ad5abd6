//! One run of a command that was understood: the input, what is made of it, writing.
ghost use Rattle.std.specs.Prelude.{◌≡◌, ◌≢◌, ◌≤◌, IfErr, IfOk};
ghost use Rattle.drt_io.specs.Causes.{Rose};
ghost use Rattle.drt_command.specs.declared.input.Input.{Input};
ghost use Rattle.drt_command.specs.Inputs.{IsInputWithin};
ghost use Rattle.drt_command.specs.Rules.{IsUnmadeCause};
ghost use Rattle.drt_command.specs.Runs.{IsRun};

use crate::command::Command;
use crate::finishing::end_run;
use crate::promised::Promised;
use crate::reading::read_input;
use crate::report::{Report, Unmade};
use drt_io::{Sink, Source};
use drt_outcome::{Outcome, outcome_of};
use std::alloc::Global;

/// Runs a command that makes its text alone: it reads its input from the source, and writes what it makes of it to the sink.
pub fn conduct<C: Command, S: Source, K: Sink>(
    alloc: Global,
    command: &C,
    source: &mut S,
    sink: &mut K,
) -> Outcome
    ensures run { IsRun (C.rules command.now) (S.left source.old) (Rose (S.faults source.old) (S.faults source.new)) (Rose (K.faults sink.old) (K.faults sink.new)) (K.held sink.old) (K.held sink.new) result }
    ensures unwritten { 4 ≤ result.status → result.status ≢ 7 → sink.new ≡ sink.old }
    ensures unread { (C.rules command.now).input ≡ Input.Nothing → source.new ≡ source.old }
{
    let make = |bytes: &[u8]| -> Result<Report, Unmade>
        requires { IsInputWithin (C.rules command.now).input bytes.now }
    { command.make(alloc, bytes) };
    conduct_by(alloc, command, source, sink, make)
}

/// Runs a command whose text is made by this closure, which may hand its parts to workers.
pub fn conduct_by<C: Promised, S: Source, K: Sink, M: FnOnce(&[u8]) -> Result<Report, Unmade>>(
    alloc: Global,
    command: &C,
    source: &mut S,
    sink: &mut K,
    make: M,
) -> Outcome
    requires takes { (bytes : _) → IsInputWithin (C.rules command.now).input bytes.now → M.pre make bytes }
    requires makes { (bytes made : _) → M.post make bytes made → IfOk made ((C.rules command.now).makes bytes.now) }
    requires unmade { (bytes made : _) → M.post make bytes made → IfErr made (IsUnmadeCause (C.rules command.now).refuses bytes.now) }
    ensures run { IsRun (C.rules command.now) (S.left source.old) (Rose (S.faults source.old) (S.faults source.new)) (Rose (K.faults sink.old) (K.faults sink.new)) (K.held sink.old) (K.held sink.new) result }
    ensures unwritten { 4 ≤ result.status → result.status ≢ 7 → sink.new ≡ sink.old }
    ensures unread { (C.rules command.now).input ≡ Input.Nothing → source.new ≡ source.old }
{
    command.laws();
    match read_input(alloc, command.input(), source) {
        Ok(bytes) => end_run(make(bytes.as_slice()), sink),
        Err(stop) => outcome_of(stop),
    }
}
