//! Faults of a classic file.
use drt_model::Memory;
use std::alloc::AllocFailed;
use thiserror::Error;

/// Where a file breaks the format: the line, counted from 1, and the code of the rule.
#[derive(Debug, Clone, Copy, PartialEq, Eq, Error)]
#[error("line {line}: fault {code}")]
pub struct ClassicFault {
    pub line: u32,
    pub code: u8,
}

/// Why no set is read.
#[derive(Debug, Clone, Copy, PartialEq, Eq, Error)]
pub enum ClassicError {
    /// There is no memory for the set.
    #[error("out of memory")]
    Memory,
    /// The file breaks the format.
    #[error(transparent)]
    Fault(ClassicFault),
}

impl From<Memory> for ClassicError {
    ghost use Rattle.std.specs.Prelude.{◌≡◌};
    ghost use Rattle.drt_classic.specs.declared.fault.ClassicError.TheVariants.{Memory};

    ghost from_gives = { λ _ e. e ≡ Memory };

    fn from(_e: Memory) -> ClassicError {
        ClassicError::Memory
    }
}

impl<T: Drop> From<AllocFailed<T>> for ClassicError {
    ghost use Rattle.std.specs.Prelude.{◌≡◌};
    ghost use Rattle.drt_classic.specs.declared.fault.ClassicError.TheVariants.{Memory};

    ghost from_gives = { λ _ e. e ≡ Memory };

    fn from(_e: AllocFailed<T>) -> ClassicError {
        ClassicError::Memory
    }
}
