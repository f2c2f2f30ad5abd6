//! Reading the canonical text at the front of a file.
ghost use Rattle.std.specs.Prelude.{◌≡◌, ◌++◌, ◌∷◌, ◌≤◌, ℕ, true, length, IfOk, IfErr, MatchOption};
ghost use Rattle.drt_model.specs.Numbers.{most_text};
ghost use Rattle.drt_model.specs.Contents.{Contents};
ghost use Rattle.drt_file.specs.declared.front.CanonicalError.TheVariants.{Fault};
ghost use Rattle.drt_file.specs.trusted.CanonicalPrefix.{BeginsWith, GivesFront, IsCanonicalCause};
ghost use Rattle.drt_file.specs.trusted.Cutting.{HasNoFeed};
ghost use Rattle.drt_file.specs.internal.Strict.{Above, has_ended};

use crate::finishing::finish;
use crate::reader::Reader;
use crate::strict::strict_step;
use drt_model::{Memory, TaskSet};
use std::alloc::Global;
use thiserror::Error;

/// The canonical text that a file begins with: the set that it says, and its length in bytes.
#[derive(Debug, Drop)]
pub struct Canonical {
    pub set: TaskSet,
    pub length: u32,
}

/// Why a file doesn't begin with a canonical text.
#[derive(Debug, Clone, Copy, PartialEq, Eq, Error)]
pub enum CanonicalError {
    /// No canonical text goes on with this line, counted from 1. The line is missing where the file
    /// has no LF for it.
    #[error("line {line}: no line of a canonical text (missing: {missing})")]
    Fault { line: u32, missing: bool },
    /// There is no memory for the set.
    #[error("out of memory")]
    Memory,
}

impl From<Memory> for CanonicalError {
    ghost use Rattle.std.specs.Prelude.{◌≡◌};
    ghost use Rattle.drt_file.specs.declared.front.CanonicalError.TheVariants.{Memory};

    ghost from_gives = { λ _ e. e ≡ Memory };

    fn from(_e: Memory) -> CanonicalError {
        CanonicalError::Memory
    }
}

/// The first line of a text without its LF, and the text behind the LF; none where the text has no LF.
pub fn cut_fed_line(text: &[u8]) -> Option<(&[u8], &[u8])>
    ensures { MatchOption result (HasNoFeed text.now) (λ cut. (text.now ≡ cut.0.now ++ 10 ∷ cut.1.now) × HasNoFeed cut.0.now) }
{
    for (i, b) in text.iter().enumerate() {
        if *b == b'\n' {
            return Some((&text[..i], &text[i + 1..]));
        }
    }
    None
}

fn fault(line: u32, missing: bool) -> CanonicalError
    ensures { result ≡ Fault line missing }
{
    CanonicalError::Fault { line, missing }
}

#[tactic(auto, unfolding(crate::specs::internal::Strict::has_ended))]
fn has_ended(above: &Option<Reader>) -> bool
    ensures { result ≡ has_ended above.now }
{
    match above {
        Some(r) => r.state().ended,
        None => false,
    }
}

// The lines down to `end`: the number behind it, what they leave, and the text behind them.
fn all_lines(alloc: Global, bytes: &[u8]) -> Result<(u32, Option<Reader>, &[u8]), CanonicalError>
    requires { length bytes.now ≤ most_text }
    ensures read { IfOk result (λ end. Above bytes.now end.0 end.1 end.2.now × (has_ended end.1 ≡ true)) }
    ensures fault { IfErr result (IsCanonicalCause bytes.now) }
{
    let mut n: u32 = 1;
    let mut above = None;
    let mut rest = bytes;
    'lines: while !has_ended(&above) {
        let (line, others) = match cut_fed_line(rest) {
            Some(cut) => cut,
            None => {
                // One call, where the end of the scope would take the state apart here.
                drop(above);
                return Err(fault(n, true));
            }
        };
        above = match strict_step(alloc, n, above, line)? {
            Some(s) => Some(s),
            None => return Err(fault(n, false)),
        };
        n += 1;
        rest = others;
    }
    Ok((n, above, rest))
}

/// The set whose canonical text a file begins with, and the length of that text; or the first line
/// with which no canonical text goes on.
///
/// It looks at no byte behind that text or that line. Names are found as `read` finds them.
pub fn read_canonical(alloc: Global, bytes: &[u8]) -> Result<Canonical, CanonicalError>
    requires { length bytes.now ≤ most_text }
    ensures read { IfOk result (λ front. BeginsWith bytes.now front.set front.length) }
    ensures found { (set : Contents) (count : ℕ) → BeginsWith bytes.now set count → GivesFront result set count }
    ensures fault { IfErr result (IsCanonicalCause bytes.now) }
{
    let (n, above, rest) = all_lines(alloc, bytes)?;
    let length = (bytes.len() - rest.len()) as u32;
    // Lines down to `end` that stand as printed say a set: this gives none for want of memory alone.
    match finish(alloc, n, above) {
        Ok((version, tasks)) => Ok(Canonical {
            set: TaskSet { version, tasks },
            length,
        }),
        Err(_) => Err(CanonicalError::Memory),
    }
}
