//! Values cut off the front of what is left of a line.
//!
//! What is left of a line is `None` at its end, and else the bytes behind a space. Each function answers with a value and with what is left
//! behind it, in one pass over the fields of the value.
ghost use Rattle.std.specs.Prelude.{◌<◌, ◌≤◌, ◌++◌, ℕ, List, decimal, IfOk, MatchOption};
ghost use Rattle.drt_evidence.specs.Blocks.{AreSoMany, in_turn};
ghost use Rattle.drt_evidence.specs.Cuts.{IsFormCut, IsNoCut, IsSpaced, counted_form, entry_form, jump_form, left, spaced_form};
ghost use Rattle.drt_evidence.specs.LineForms.{AreItemsCounted, IsFieldForm};
ghost use Rattle.drt_claims.specs.Ranges.{IsInRangeJump, IsInRangeStateEntry};
ghost use Rattle.drt_evidence.specs.Some.{entry_spaced, jump_spaced};

use crate::reading::fields::{Field, cut_field, number_of};
use drt_claims::{MOST_TICKS, MOST_WORK};
use drt_model::{Memory, Row};
use drt_states::{Jump, StateEntry};
use std::alloc::Global;

// A value that is one field.
pub(crate) fn cut_one<F: Field>(rest: Option<&[u8]>) -> Option<(F, Option<&[u8]>)>
    requires { IsFieldForm F.field F.is_stated }
    ensures { MatchOption result
        (IsNoCut (spaced_form F.field) F.is_stated (left rest.entry))
        (λ p. IsFormCut (spaced_form F.field) F.is_stated (left rest.entry) p.0 (left p.1)) }
{
    let (field, others) = cut_field(rest?);
    let value = F::of(field)?;
    Some((value, others))
}

// A number up to a greatest one.
pub(crate) fn cut_number(rest: Option<&[u8]>, most: u64) -> Option<(u64, Option<&[u8]>)>
    requires { most < 18446744073709551615 }
    ensures { MatchOption result
        (IsNoCut (spaced_form decimal) (λ n. n ≤ most) (left rest.entry))
        (λ p. IsFormCut (spaced_form decimal) (λ n. n ≤ most) (left rest.entry) p.0 (left p.1)) }
{
    let (field, others) = cut_field(rest?);
    let value = number_of(field, most)?;
    Some((value, others))
}

// A value that is some fields of a list, the same number for each value.
pub(crate) trait Group: Sized + Drop {
    // The fields of a value, each with a space before it.
    ghost form: { Self → List ℕ };

    // The values that have fields.
    ghost is_stated: { Self → Type 0 };

    // The value at the front of what is left of a line, and what is left behind it.
    fn cut(rest: Option<&[u8]>) -> Option<(Self, Option<&[u8]>)>
        ensures { MatchOption result
            (IsNoCut form is_stated (left rest.entry))
            (λ p. IsFormCut form is_stated (left rest.entry) p.0 (left p.1)) };

    // The fields of a value begin with a space.
    ghost spaced: { (x : Self) (t : List ℕ) → IsSpaced (form x ++ t) };
}

// A jump: its offset and its work.
fn cut_jump(rest: Option<&[u8]>) -> Option<(Jump, Option<&[u8]>)>
    ensures { MatchOption result
        (IsNoCut jump_form IsInRangeJump (left rest.entry))
        (λ p. IsFormCut jump_form IsInRangeJump (left rest.entry) p.0 (left p.1)) }
{
    let (offset, rest) = cut_number(rest, MOST_TICKS)?;
    let (work, rest) = cut_number(rest, MOST_WORK)?;
    Some((Jump { offset, work }, rest))
}

impl Group for Jump {
    ghost form = { jump_form };

    ghost is_stated = { IsInRangeJump };

    ghost spaced = { jump_spaced };

    fn cut(rest: Option<&[u8]>) -> Option<(Jump, Option<&[u8]>)> {
        cut_jump(rest)
    }
}

// An entry of a state: its place, its vertex and its offset.
fn cut_entry(rest: Option<&[u8]>) -> Option<(StateEntry, Option<&[u8]>)>
    ensures { MatchOption result
        (IsNoCut entry_form IsInRangeStateEntry (left rest.entry))
        (λ p. IsFormCut entry_form IsInRangeStateEntry (left rest.entry) p.0 (left p.1)) }
{
    let (place, rest) = cut_one::<u32>(rest)?;
    let (vertex, rest) = cut_one::<u32>(rest)?;
    let (offset, rest) = cut_number(rest, MOST_TICKS)?;
    Some((
        StateEntry {
            place,
            vertex,
            offset,
        },
        rest,
    ))
}

impl Group for StateEntry {
    ghost form = { entry_form };

    ghost is_stated = { IsInRangeStateEntry };

    ghost spaced = { entry_spaced };

    fn cut(rest: Option<&[u8]>) -> Option<(StateEntry, Option<&[u8]>)> {
        cut_entry(rest)
    }
}

// A number of values, one behind another. A count that no line can hold is found out at the end of the line.
fn cut_each<G: Group>(
    alloc: Global,
    rest: Option<&[u8]>,
    count: u32,
) -> Result<Option<(Vec<G>, Option<&[u8]>)>, Memory>
    ensures { IfOk result (λ found. MatchOption found
        (IsNoCut (in_turn G.form) (AreSoMany count G.is_stated) (left rest.entry))
        (λ p. IsFormCut (in_turn G.form) (AreSoMany count G.is_stated) (left rest.entry) p.0.items (left p.1))) }
{
    let mut found = Vec::with_capacity(alloc, room_for(rest, count as usize))?;
    let mut rest = rest;
    for _ in 0..count {
        match G::cut(rest) {
            Some((value, others)) => {
                found.push(value)?;
                rest = others;
            }
            None => return Ok(None),
        }
    }
    Ok(Some((found, rest)))
}

// Room for as many values as are counted, but for no more than the bytes can hold: each has two fields at least, of two bytes with
// the space before them.
fn room_for(rest: Option<&[u8]>, count: usize) -> usize {
    match rest {
        Some(bytes) => count.min(bytes.len() / 4 + 1),
        None => 0,
    }
}

// Counted values: how many, and these.
pub(crate) fn cut_list<G: Group>(
    alloc: Global,
    rest: Option<&[u8]>,
) -> Result<Option<(Row<G>, Option<&[u8]>)>, Memory>
    ensures { IfOk result (λ found. MatchOption found
        (IsNoCut (counted_form G.form) (AreItemsCounted G.is_stated) (left rest.entry))
        (λ p. IsFormCut (counted_form G.form) (AreItemsCounted G.is_stated) (left rest.entry) p.0 (left p.1))) }
{
    let (count, rest) = match cut_one::<u32>(rest) {
        Some(parts) => parts,
        None => return Ok(None),
    };
    match cut_each(alloc, rest, count)? {
        Some((found, others)) => Ok(Some((Row::from_vec(found), others))),
        None => Ok(None),
    }
}
