//! A whole dossier, and where bytes stop being one.
ghost use Rattle.std.specs.Prelude.{◌≡◌, ◌≤◌, ◌+◌, ◌-◌, ℕ, List, length, take, IfOk, IfErr};
ghost use Rattle.drt_model.specs.Numbers.{most_text};
ghost use Rattle.drt_file.specs.trusted.Canonical.{written};
ghost use Rattle.drt_file.specs.trusted.CanonicalPrefix.{line_count};
ghost use Rattle.drt_evidence.specs.Blocks.{IsStop, ReadsBlock};
ghost use Rattle.drt_evidence.specs.LineForms.{IsAny};
ghost use Rattle.drt_evidence.specs.Reading.{GivesStatement, IsDossierCause, IsDossierText};
ghost use Rattle.drt_claims.specs.Statement.{IsStated, Statement};
ghost use Rattle.drt_evidence.specs.Text.{head_lines, text};
ghost use Rattle.drt_evidence.specs.declared.fault.DossierError.TheVariants.{Fault, Memory};

use crate::fault::{DossierError, DossierFault, FOLLOWED, MISSING, UNFIT};
use crate::reading::evidences::read_evidence;
use crate::reading::forms::{read_first, read_policy};
use crate::reading::sets::read_set;
use crate::reading::text::{Stop, Text};
use drt_claims::Dossier;
use drt_model::Policy;
use std::alloc::Global;

// The lines above the set.
fn read_head(text: &mut Text) -> Result<Policy, Stop>
    ensures read { IfOk result (λ x. ReadsBlock (λ p. written (head_lines p)) IsAny text.old.rest.now x text.new.rest.now) }
    ensures stops { IfErr result (IsStop (λ p. written (head_lines p)) IsAny text.old.rest.now) }
{
    read_first(text)?;
    let policy = read_policy(text)?;
    Ok(policy)
}

// The dossier whose text stands at the front of a text.
fn read_dossier(alloc: Global, from: &mut Text) -> Result<Dossier, Stop>
    requires { length from.old.rest.now ≤ most_text }
    ensures read { IfOk result (λ d. ReadsBlock text IsStated from.old.rest.now d from.new.rest.now) }
    ensures stops { IfErr result (IsStop text IsStated from.old.rest.now) }
{
    let policy = read_head(from)?;
    let set = read_set(alloc, from)?;
    let evidence = read_evidence(alloc, from)?;
    Ok(Dossier {
        policy,
        set,
        evidence,
    })
}

// How many LFs bytes have.
fn feeds_in(bytes: &[u8]) -> usize
    ensures count { result ≡ line_count bytes.now }
    ensures within { result ≤ length bytes.now }
{
    bytes.iter().filter(|b| **b == b'\n').count()
}

// The line, counted from 1, that so many last bytes begin with.
fn line_at(bytes: &[u8], left: usize) -> u32
    requires size { length bytes.now ≤ most_text }
    requires within { left ≤ length bytes.now }
    ensures { result ≡ 1 + line_count (take (length bytes.now - left) bytes.now) }
{
    1 + feeds_in(&bytes[..bytes.len() - left]) as u32
}

/// The dossier whose text the bytes are, or where they stop being the text of one.
///
/// Lists take the room of what follows, and none by the count above them.
pub fn read(alloc: Global, bytes: &[u8]) -> Result<Dossier, DossierError>
    requires { length bytes.now ≤ most_text }
    ensures read { IfOk result (λ d. bytes.now ≡ text d) }
    ensures found { (s : Statement) → IsDossierText s bytes.now → GivesStatement result s }
    ensures fault { IfErr result (IsDossierCause bytes.now) }
{
    let mut from = Text { rest: bytes };
    match read_dossier(alloc, &mut from) {
        Ok(dossier) => {
            if from.rest.is_empty() {
                Ok(dossier)
            } else {
                Err(fault(bytes, from.rest.len(), FOLLOWED))
            }
        }
        Err(stop) => Err(cause_of(bytes, stop)),
    }
}

// Why a text that stops there is none of a dossier.
fn cause_of(bytes: &[u8], stop: Stop) -> DossierError
    requires size { length bytes.now ≤ most_text }
    requires stops { IsStop text IsStated bytes.now stop }
    ensures fault { IsDossierCause bytes.now result }
    ensures none { (s : Statement) → IsDossierText s bytes.now → result ≡ Memory }
{
    match stop {
        Stop::Fault { left, missing } => {
            if missing {
                fault(bytes, left, MISSING)
            } else {
                fault(bytes, left, UNFIT)
            }
        }
        Stop::Memory => DossierError::Memory,
    }
}

// The fault of the line that so many last bytes begin with.
fn fault(bytes: &[u8], left: usize, code: u8) -> DossierError
    requires size { length bytes.now ≤ most_text }
    requires within { left ≤ length bytes.now }
    ensures { result ≡ Fault (record { line = 1 + line_count (take (length bytes.now - left) bytes.now); code = code }) }
{
    DossierError::Fault(DossierFault {
        line: line_at(bytes, left),
        code,
    })
}
