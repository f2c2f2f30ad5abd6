//! Lines of tails and of states: how many jumps or entries, the fields of each, and what stands behind them.
//!
//! Each function is given a line without its LF, or what is left of one.
ghost use Rattle.std.specs.Prelude.{◌≡◌, decimal, IfOk, MatchOption};
ghost use Rattle.drt_evidence.specs.Cuts.{AreStateParts, end_form, join_form, left, spaced_form, state_form};
ghost use Rattle.drt_evidence.specs.LineForms.{AreBoth, IsForm, IsLineOf, IsNoForm, IsNoLine};
ghost use Rattle.drt_claims.specs.Ranges.{IsInRangeCurve, IsInRangeEnd, IsInRangeState, IsWork};
ghost use Rattle.drt_evidence.specs.Text.{curve_line, state_line};

use crate::reading::cuts::{cut_list, cut_number, cut_one};
use crate::reading::fields::behind_word;
use crate::reading::list_lines::values_behind;
use drt_claims::{Item, MOST_WORK};
use drt_model::{Memory, Row};
use drt_states::{Jump, StateClaim, StateEnd, StateEntry};
use std::alloc::Global;

// The jumps that the line says.
pub(crate) fn jumps_of(alloc: Global, line: &[u8]) -> Result<Option<Row<Jump>>, Memory>
    ensures { IfOk result (λ found. MatchOption found (IsNoLine curve_line IsInRangeCurve line.now) (IsLineOf curve_line IsInRangeCurve line.now)) }
{
    let rest = match behind_word(line, b"jumps") {
        Some(rest) => rest,
        None => return Ok(None),
    };
    let (jumps, others) = match cut_list(alloc, Some(rest))? {
        Some(parts) => parts,
        None => return Ok(None),
    };
    match others {
        Some(_) => Ok(None),
        None => Ok(Some(jumps)),
    }
}

// The end of a state. How many states it names isn't said, so no room is made for them at once.
fn end_of(alloc: Global, rest: Option<&[u8]>) -> Result<Option<StateEnd>, Memory>
    ensures { IfOk result (λ found. MatchOption found (IsNoForm end_form IsInRangeEnd (left rest.entry)) (IsForm end_form IsInRangeEnd (left rest.entry))) }
{
    match cut_one(rest) {
        Some((Item::Pass(time), None)) => Ok(Some(StateEnd::Passes(time))),
        Some((Item::Pass(_), Some(_))) => Ok(None),
        Some((Item::Split(place), others)) => match values_behind(alloc, others, 0)? {
            Some(children) => Ok(Some(StateEnd::Splits {
                place,
                children: Row::from_vec(children),
            })),
            None => Ok(None),
        },
        None => Ok(None),
    }
}

// The work of a state, and its end.
fn work_and_end(alloc: Global, rest: Option<&[u8]>) -> Result<Option<(u64, StateEnd)>, Memory>
    ensures { IfOk result (λ found. MatchOption found
        (IsNoForm (join_form (spaced_form decimal) end_form) (AreBoth IsWork IsInRangeEnd) (left rest.entry))
        (IsForm (join_form (spaced_form decimal) end_form) (AreBoth IsWork IsInRangeEnd) (left rest.entry))) }
{
    let (work, rest) = match cut_number(rest, MOST_WORK) {
        Some(parts) => parts,
        None => return Ok(None),
    };
    match end_of(alloc, rest)? {
        Some(end) => Ok(Some((work, end))),
        None => Ok(None),
    }
}

// The entries of a state, its work, and its end.
fn parts_of_state(
    alloc: Global,
    rest: Option<&[u8]>,
) -> Result<Option<(Row<StateEntry>, (u64, StateEnd))>, Memory>
    ensures { IfOk result (λ found. MatchOption found
        (IsNoForm state_form AreStateParts (left rest.entry))
        (IsForm state_form AreStateParts (left rest.entry))) }
{
    let (entries, rest) = match cut_list(alloc, rest)? {
        Some(parts) => parts,
        None => return Ok(None),
    };
    match work_and_end(alloc, rest)? {
        Some(others) => Ok(Some((entries, others))),
        None => Ok(None),
    }
}

// The state of these parts.
fn state_with(parts: (Row<StateEntry>, (u64, StateEnd))) -> StateClaim
    ensures { result ≡ record { entries = parts.0; work = parts.1.0; end = parts.1.1 } }
{
    let (entries, (work, end)) = parts;
    StateClaim { entries, work, end }
}

// The state that the line says.
pub(crate) fn state_of(alloc: Global, line: &[u8]) -> Result<Option<StateClaim>, Memory>
    ensures { IfOk result (λ found. MatchOption found (IsNoLine state_line IsInRangeState line.now) (IsLineOf state_line IsInRangeState line.now)) }
{
    let rest = match behind_word(line, b"state") {
        Some(rest) => rest,
        None => return Ok(None),
    };
    match parts_of_state(alloc, Some(rest))? {
        Some(parts) => Ok(Some(state_with(parts))),
        None => Ok(None),
    }
}
