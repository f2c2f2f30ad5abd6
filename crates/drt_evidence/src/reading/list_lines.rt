//! Lines that end with a list: how many fields follow, and these.
//!
//! Each function is given a line without its LF. A count that isn't that of the fields behind it is no line. Room is made at once for
//! as many values as the count says, but for no more than the bytes behind it can hold.
ghost use Rattle.std.specs.Prelude.{◌≡◌, decimal, map, option_map, All, IfOk, MatchOption};
ghost use Rattle.drt_evidence.specs.Fields.{behind};
ghost use Rattle.drt_evidence.specs.LineForms.{AreBoth, AreItemsCounted, IsFieldForm, IsForm, IsLineOf, IsNoForm, IsNoLine, list_form, numbers_line, pair_form, potentials_line, spaced};
ghost use Rattle.drt_claims.specs.Ranges.{IsInRangeItem, IsInRangePotential, IsInRangeProof, IsNumber};
ghost use Rattle.drt_evidence.specs.Text.{item_field, proof_line};

use crate::reading::fields::{Field, behind_word, cut_field, index_before, index_of};
use drt_claims::{Item, ProofClaim};
use drt_model::{Memory, Row};
use std::alloc::Global;

// The values that the fields behind a space are, of which so many are awaited.
pub(crate) fn values_behind<F: Field>(
    alloc: Global,
    rest: Option<&[u8]>,
    awaited: usize,
) -> Result<Option<Vec<F>>, Memory>
    requires { IsFieldForm F.field F.is_stated }
    ensures { IfOk result (λ found. MatchOption found
        (IsNoForm (λ xs. behind (map F.field xs)) (All F.is_stated) (spaced (option_map (λ r. r.now) rest.entry)))
        (λ v. IsForm (λ xs. behind (map F.field xs)) (All F.is_stated) (spaced (option_map (λ r. r.now) rest.entry)) v.items)) }
{
    let mut found = Vec::with_capacity(alloc, room_for(rest, awaited))?;
    let mut rest = rest;
    'fields: while let Some(bytes) = rest {
        let (field, others) = cut_field(bytes);
        match F::of(field) {
            Some(value) => found.push(value)?,
            None => return Ok(None),
        }
        rest = others;
    }
    Ok(Some(found))
}

// Room for as many values as are awaited, but for no more than the bytes can hold: each takes two at least, but for the last.
fn room_for(rest: Option<&[u8]>, awaited: usize) -> usize {
    match rest {
        Some(bytes) => awaited.min(bytes.len() / 2 + 1),
        None => 0,
    }
}

// The list that the bytes are: how many values, and these.
fn list_of<F: Field>(alloc: Global, bytes: &[u8]) -> Result<Option<Vec<F>>, Memory>
    requires { IsFieldForm F.field F.is_stated }
    ensures { IfOk result (λ found. MatchOption found
        (IsNoForm (list_form F.field) (AreItemsCounted F.is_stated) bytes.now)
        (λ v. IsForm (list_form F.field) (AreItemsCounted F.is_stated) bytes.now v.items)) }
{
    let (field, rest) = cut_field(bytes);
    let count = match index_of(field) {
        Some(count) => count,
        None => return Ok(None),
    };
    let found = match values_behind(alloc, rest, count as usize)? {
        Some(found) => found,
        None => return Ok(None),
    };
    if found.len() != count as usize {
        return Ok(None);
    }
    Ok(Some(found))
}

// The numbers that the line says behind this keyword.
pub(crate) fn numbers_of(
    alloc: Global,
    line: &[u8],
    word: &[u8],
) -> Result<Option<Row<u32>>, Memory>
    ensures { IfOk result (λ found. MatchOption found
        (IsNoLine (numbers_line word.now) (AreItemsCounted IsNumber) line.now)
        (IsLineOf (numbers_line word.now) (AreItemsCounted IsNumber) line.now)) }
{
    let rest = match behind_word(line, word) {
        Some(rest) => rest,
        None => return Ok(None),
    };
    match list_of(alloc, rest)? {
        Some(found) => Ok(Some(Row::from_vec(found))),
        None => Ok(None),
    }
}

// The potentials that the line says.
pub(crate) fn potentials_of(alloc: Global, line: &[u8]) -> Result<Option<Row<i64>>, Memory>
    ensures { IfOk result (λ found. MatchOption found
        (IsNoLine potentials_line (AreItemsCounted IsInRangePotential) line.now)
        (IsLineOf potentials_line (AreItemsCounted IsInRangePotential) line.now)) }
{
    let rest = match behind_word(line, b"potentials") {
        Some(rest) => rest,
        None => return Ok(None),
    };
    match list_of(alloc, rest)? {
        Some(found) => Ok(Some(Row::from_vec(found))),
        None => Ok(None),
    }
}

// The number of a vertex, and items.
fn vertex_and_items(alloc: Global, bytes: &[u8]) -> Result<Option<(u32, Vec<Item>)>, Memory>
    ensures { IfOk result (λ found. MatchOption found
        (IsNoForm (pair_form decimal (list_form item_field)) (AreBoth IsNumber (AreItemsCounted IsInRangeItem)) bytes.now)
        (λ p. IsForm (pair_form decimal (list_form item_field)) (AreBoth IsNumber (AreItemsCounted IsInRangeItem)) bytes.now (p.0, p.1.items))) }
{
    let (vertex, rest) = match index_before(bytes) {
        Some(parts) => parts,
        None => return Ok(None),
    };
    match list_of(alloc, rest)? {
        Some(items) => Ok(Some((vertex, items))),
        None => Ok(None),
    }
}

// The numbers of a task and a vertex, and items.
fn parts_of_proof(alloc: Global, bytes: &[u8]) -> Result<Option<(u32, (u32, Vec<Item>))>, Memory>
    ensures { IfOk result (λ found. MatchOption found
        (IsNoForm (pair_form decimal (pair_form decimal (list_form item_field))) (AreBoth IsNumber (AreBoth IsNumber (AreItemsCounted IsInRangeItem))) bytes.now)
        (λ p. IsForm (pair_form decimal (pair_form decimal (list_form item_field))) (AreBoth IsNumber (AreBoth IsNumber (AreItemsCounted IsInRangeItem))) bytes.now (p.0, (p.1.0, p.1.1.items)))) }
{
    let (task, rest) = match index_before(bytes) {
        Some(parts) => parts,
        None => return Ok(None),
    };
    match vertex_and_items(alloc, rest)? {
        Some(others) => Ok(Some((task, others))),
        None => Ok(None),
    }
}

// The proof that the line says.
pub(crate) fn proof_of(alloc: Global, line: &[u8]) -> Result<Option<ProofClaim>, Memory>
    ensures { IfOk result (λ found. MatchOption found (IsNoLine proof_line IsInRangeProof line.now) (IsLineOf proof_line IsInRangeProof line.now)) }
{
    let rest = match behind_word(line, b"proof") {
        Some(rest) => rest,
        None => return Ok(None),
    };
    match parts_of_proof(alloc, rest)? {
        Some((task, (vertex, items))) => Ok(Some(ProofClaim {
            task,
            vertex,
            items: Row::from_vec(items),
        })),
        None => Ok(None),
    }
}
