//! Why a run stops before its answer is written.
ghost use Rattle.std.specs.Prelude.{◌≡◌};
ghost use Rattle.drt_outcome.specs.Stops.{outcome_of};

use crate::fault::{Fault, fault_status};
use crate::outcome::{OUT_OF_MEMORY, Outcome, READ_FAILED, Trail, WORDS_REFUSED, WRITE_FAILED};

/// Why a run stops before its answer is written.
#[derive(Debug, Drop)]
pub enum Stop {
    /// The words are refused.
    Words,
    /// A read failed.
    Read,
    /// A write failed.
    Write,
    /// No memory was to be had.
    Memory,
    /// The input has this fault.
    Refused(Fault),
}

/// The outcome of a run that stopped.
pub fn outcome_of(stop: Stop) -> Outcome
    ensures { result ≡ outcome_of stop }
{
    match stop {
        Stop::Words => without_fault(WORDS_REFUSED),
        Stop::Read => without_fault(READ_FAILED),
        Stop::Write => without_fault(WRITE_FAILED),
        Stop::Memory => without_fault(OUT_OF_MEMORY),
        Stop::Refused(fault) => Outcome {
            status: fault_status(&fault),
            trail: Trail::Nothing,
            fault,
        },
    }
}

// An outcome with this status and nothing else.
fn without_fault(status: u8) -> Outcome
    ensures { result ≡ record { status = status; trail = Trail.Nothing; fault = Fault.Nothing } }
{
    Outcome {
        status,
        trail: Trail::Nothing,
        fault: Fault::Nothing,
    }
}
