//! `upgrade`: a task file as one of version 2.
ghost use Rattle.std.specs.Prelude.{◌≡◌, IfErr, IfOk};
ghost use Rattle.drt_command_upgrade.specs.Upgrade.{Upgrades, upgrade_rules};
ghost use Rattle.drt_command_files.specs.TaskFiles.{IsAccepted};

use drt_command::{Command, Input, Promised, Report, Unmade};
use drt_command_files::{file_input, read_set};
use drt_file::laws::texts_read_as_one_set;
use drt_file::upgrade;
use drt_model::TaskSet;
use drt_outcome::outcome::YES;
use std::alloc::Global;

/// The command `upgrade`.
#[derive(Debug, Drop)]
pub struct Upgrade;

impl Promised for Upgrade {
    ghost rules = { λ _. upgrade_rules };

    fn laws(&self) {
        texts_read_as_one_set();
    }

    fn input(&self) -> Input {
        file_input()
    }
}

impl Command for Upgrade {
    fn make(&self, alloc: Global, bytes: &[u8]) -> Result<Report, Unmade> {
        let (set, _graphs) = read_set(alloc, bytes)?;
        print(alloc, bytes, set)
    }
}

// The text of an accepted set as one of version 2.
fn print(alloc: Global, bytes: &[u8], set: TaskSet) -> Result<Report, Unmade>
    requires { IsAccepted bytes.now set }
    ensures upgrades { IfOk result (Upgrades bytes.now) }
    ensures unmade { IfErr result (λ e. e ≡ Unmade.Memory) }
{
    let text = drt_file::print(alloc, &upgrade(set))?;
    Ok(Report::new(YES, text))
}
