//! Faults of a task file.
use drt_model::Memory;
use std::alloc::AllocFailed;
use thiserror::Error;

/// Where a file breaks the format: the line, counted from 1, and the code of the rule. A fault of the
/// file as a whole has line 0.
#[derive(Debug, Clone, Copy, PartialEq, Eq, Error)]
#[error("line {line}: fault {code}")]
pub struct FileFault {
    pub line: u32,
    pub code: u8,
}

/// Why no set is read.
#[derive(Debug, Clone, Copy, PartialEq, Eq, Error)]
pub enum FileError {
    /// The file breaks the format.
    #[error(transparent)]
    Fault(FileFault),
    /// There is no memory for the set.
    #[error("out of memory")]
    Memory,
}

impl From<Memory> for FileError {
    ghost use Rattle.std.specs.Prelude.{◌≡◌};
    ghost use Rattle.drt_file.specs.declared.fault.FileError.TheVariants.{Memory};

    ghost from_gives = { λ _ e. e ≡ Memory };

    fn from(_e: Memory) -> FileError {
        FileError::Memory
    }
}

impl<T: Drop> From<AllocFailed<T>> for FileError {
    ghost use Rattle.std.specs.Prelude.{◌≡◌};
    ghost use Rattle.drt_file.specs.declared.fault.FileError.TheVariants.{Memory};

    ghost from_gives = { λ _ e. e ≡ Memory };

    fn from(_e: AllocFailed<T>) -> FileError {
        FileError::Memory
    }
}
