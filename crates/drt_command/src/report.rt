//! What a command makes of its input, or why it makes nothing.
ghost use Rattle.std.specs.Prelude.{◌≡◌};

use drt_model::{Memory, Row};
use drt_outcome::{Fault, Trail};

/// What a command makes of its input: a status below 4, a text in bytes, and a trail where a budget
/// was spent.
#[derive(Debug, Drop)]
pub struct Report {
    pub status: u8,
    pub text: Row<u8>,
    pub trail: Trail,
}

impl Report {
    /// A report where no budget was spent.
    pub fn new(status: u8, text: Row<u8>) -> Report
        ensures { result ≡ record { status = status; text = text; trail = Trail.Nothing } }
    {
        Report {
            status,
            text,
            trail: Trail::Nothing,
        }
    }
}

/// Why a command makes nothing of its input.
#[derive(Debug, Drop)]
pub enum Unmade {
    /// No memory was to be had.
    Memory,
    /// The input has this fault.
    Refused(Fault),
}

impl From<Memory> for Unmade {
    ghost use Rattle.std.specs.Prelude.{◌≡◌};
    ghost use Rattle.drt_command.specs.declared.report.Unmade.TheVariants.{Memory};

    ghost from_gives = { λ _ e. e ≡ Memory };

    fn from(_e: Memory) -> Unmade {
        Unmade::Memory
    }
}
