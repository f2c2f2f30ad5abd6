//! Faults of a dossier's text.
use drt_model::Memory;
use std::alloc::AllocFailed;
use thiserror::Error;

/// The code of a line that can't stand there.
pub const UNFIT: u8 = 1;
/// The code of a line that is missing or doesn't end with LF.
pub const MISSING: u8 = 2;
/// The code of bytes behind a whole dossier.
pub const FOLLOWED: u8 = 3;

/// Where bytes stop being the text of a dossier: the line, counted from 1, and the code.
///
/// Code 1: the line can't stand there. Code 2: it is missing or doesn't end with LF. Code 3: bytes follow a whole dossier.
#[derive(Debug, Clone, Copy, PartialEq, Eq, Error)]
#[error("dossier line {line}: fault {code}")]
pub struct DossierFault {
    pub line: u32,
    pub code: u8,
}

/// Why no dossier is read.
#[derive(Debug, Clone, Copy, PartialEq, Eq, Error)]
pub enum DossierError {
    /// The bytes are the text of no dossier.
    #[error(transparent)]
    Fault(DossierFault),
    /// There is no memory for the dossier.
    #[error("out of memory")]
    Memory,
}

impl From<Memory> for DossierError {
    ghost use Rattle.std.specs.Prelude.{◌≡◌};
    ghost use Rattle.drt_evidence.specs.declared.fault.DossierError.TheVariants.{Memory};

    ghost from_gives = { λ _ e. e ≡ Memory };

    fn from(_e: Memory) -> DossierError {
        DossierError::Memory
    }
}

impl<T: Drop> From<AllocFailed<T>> for DossierError {
    ghost use Rattle.std.specs.Prelude.{◌≡◌};
    ghost use Rattle.drt_evidence.specs.declared.fault.DossierError.TheVariants.{Memory};

    ghost from_gives = { λ _ e. e ≡ Memory };

    fn from(_e: AllocFailed<T>) -> DossierError {
        DossierError::Memory
    }
}
