//! `convert`: a classic file as a task file.
ghost use Rattle.std.specs.Prelude.{◌≡◌, ◌≤◌, IfErr, IfOk, length};
ghost use Rattle.drt_command.specs.Rules.{IsUnmadeCause};
ghost use Rattle.drt_command_convert.specs.Convert.{Converts, IsClassicFault, convert_rules};
ghost use Rattle.drt_command_convert.specs.Verdict.{IsClassicFile};
ghost use Rattle.drt_command_files.specs.TaskFiles.{most_bytes};

use drt_classic::laws::digraphs_keep_limits;
use drt_classic::{ClassicError, ClassicFault, ClassicSet, to_digraphs};
use drt_command::{Command, Input, Promised, Report, Unmade};
use drt_command_files::file_input;
use drt_file::laws::canonical_texts_read;
use drt_outcome::fault::Fault;
use drt_outcome::outcome::YES;
use std::alloc::Global;

/// The command `convert`.
#[derive(Debug, Drop)]
pub struct Convert;

impl Promised for Convert {
    ghost rules = { λ _. convert_rules };

    fn laws(&self) {}

    fn input(&self) -> Input {
        file_input()
    }
}

impl Command for Convert {
    fn make(&self, alloc: Global, bytes: &[u8]) -> Result<Report, Unmade> {
        let set = read_classic(alloc, bytes)?;
        print(alloc, bytes, set)
    }
}

// The classic set that a file reads as.
fn read_classic(alloc: Global, bytes: &[u8]) -> Result<ClassicSet, Unmade>
    requires { length bytes.now ≤ most_bytes }
    ensures reads { IfOk result (IsClassicFile bytes.now) }
    ensures unmade { IfErr result (IsUnmadeCause IsClassicFault bytes.now) }
{
    match drt_classic::read(alloc, bytes) {
        Ok(set) => Ok(set),
        Err(ClassicError::Fault(ClassicFault { line, code })) => {
            Err(Unmade::Refused(Fault::File { line, code }))
        }
        Err(ClassicError::Memory) => Err(Unmade::Memory),
    }
}

// The text of the digraphs of a classic set.
fn print(alloc: Global, bytes: &[u8], set: ClassicSet) -> Result<Report, Unmade>
    requires { IsClassicFile bytes.now set }
    ensures converts { IfOk result (Converts bytes.now) }
    ensures unmade { IfErr result (λ e. e ≡ Unmade.Memory) }
{
    digraphs_keep_limits();
    canonical_texts_read();
    let digraphs = to_digraphs(alloc, &set)?;
    let text = drt_file::print(alloc, &digraphs)?;
    Ok(Report::new(YES, text))
}
