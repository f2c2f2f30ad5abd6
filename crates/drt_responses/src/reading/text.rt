//! A text that is read from its front, line by line.
ghost use Rattle.std.specs.Prelude.{◌≡◌, ◌++◌, ◌∷◌, length, true, false, MatchResult};
ghost use Rattle.drt_file.specs.trusted.Cutting.{HasNoFeed};
ghost use Rattle.drt_responses.specs.declared.reading.text.Stop.TheVariants.{Fault};

use drt_file::cut_fed_line;
use drt_model::Memory;
use std::alloc::AllocFailed;

// What is left of a text.
#[derive(Drop)]
pub(crate) struct Text<'a> {
    pub rest: &'a [u8],
}

// Why no block is read.
#[derive(Debug, Clone, Copy, PartialEq, Eq)]
pub(crate) enum Stop {
    // The line that so many last bytes of the text begin with can't stand there, or is missing: then it has no LF.
    Fault { left: usize, missing: bool },
    // There is no memory for the block.
    Memory,
}

impl From<Memory> for Stop {
    ghost use Rattle.std.specs.Prelude.{◌≡◌};
    ghost use Rattle.drt_responses.specs.declared.reading.text.Stop.TheVariants.{Memory};

    ghost from_gives = { λ _ e. e ≡ Memory };

    fn from(_e: Memory) -> Stop {
        Stop::Memory
    }
}

impl<T: Drop> From<AllocFailed<T>> for Stop {
    ghost use Rattle.std.specs.Prelude.{◌≡◌};
    ghost use Rattle.drt_responses.specs.declared.reading.text.Stop.TheVariants.{Memory};

    ghost from_gives = { λ _ e. e ≡ Memory };

    fn from(_e: AllocFailed<T>) -> Stop {
        Stop::Memory
    }
}

// The first line of a text, without its LF, and what stands behind it; or the line is missing.
pub(crate) fn first_line(rest: &[u8]) -> Result<(&[u8], &[u8]), Stop>
    ensures { MatchResult result
        (λ cut. (rest.now ≡ cut.0.now ++ 10 ∷ cut.1.now) × HasNoFeed cut.0.now)
        (λ e. (e ≡ Fault (length rest.now) true) × HasNoFeed rest.now) }
{
    match cut_fed_line(rest) {
        Some(cut) => Ok(cut),
        None => Err(Stop::Fault {
            left: rest.len(),
            missing: true,
        }),
    }
}

// The stop at a line that can't stand there.
pub(crate) fn refused(rest: &[u8]) -> Stop
    ensures { result ≡ Fault (length rest.now) false }
{
    Stop::Fault {
        left: rest.len(),
        missing: false,
    }
}
