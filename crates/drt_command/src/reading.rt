//! Reading the input of a command.
ghost use Rattle.std.specs.Prelude.{◌≡◌, IfErr, IfOk};
ghost use Rattle.drt_io.specs.Causes.{Rose};
ghost use Rattle.drt_command.specs.Inputs.{IsInput, IsInputWithin};
ghost use Rattle.drt_command.specs.Runs.{IsReadCause};

use crate::input::Input;
use drt_io::{ReadEnd, Source, read_all};
use drt_model::Row;
use drt_outcome::Stop;
use std::alloc::Global;

/// The whole input. Where it can't be had the run stops: a read failed, it is too long, or no memory was to be had.
pub(crate) fn read_input<S: Source>(
    alloc: Global,
    input: Input,
    source: &mut S,
) -> Result<Row<u8>, Stop>
    ensures is { IfOk result (IsInput input (S.left source.old)) }
    ensures within { IfOk result (IsInputWithin input) }
    ensures stops { IfErr result (IsReadCause (Rose (S.faults source.old) (S.faults source.new)) input (S.left source.old)) }
    ensures unread { input ≡ Input.Nothing → source.new ≡ source.old }
{
    match input {
        Input::Nothing => Ok(Row::from_vec(Vec::new(alloc))),
        Input::AtMost { bytes, longer } => match read_all(alloc, source, bytes) {
            Ok(all) => Ok(all),
            Err(ReadEnd::Failed) => Err(Stop::Read),
            Err(ReadEnd::TooLong) => Err(Stop::Refused(longer)),
            Err(ReadEnd::Memory) => Err(Stop::Memory),
        },
    }
}
