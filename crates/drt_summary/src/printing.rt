//! The text of a line.
ghost use Rattle.std.specs.Prelude.{◌≡◌, IfOk};
ghost use Rattle.serde_json.specs.View.{items_view, view};
ghost use Rattle.drt_summary.specs.Line.{edf_word, fixed_word, summary_line};
ghost use Rattle.drt_summary.specs.Data.{numbers_data, summary_data};

use crate::summary::{EdfVerdict, FixedVerdict, Summary};
use drt_model::{Memory, Row};
use serde_json::{Value, json};
use std::alloc::Global;

/// The line, with its LF.
pub fn print(alloc: Global, summary: &Summary) -> Result<Row<u8>, Memory>
    ensures { IfOk result (λ text. text ≡ summary_line summary.now) }
{
    let value = make_value(alloc, summary)?;
    let text = value.to_string(alloc)?;
    let mut line = Vec::from_slice(alloc, text.as_bytes())?;
    line.push(b'\n')?;
    Ok(Row::from_vec(line))
}

// The object of a summary.
fn make_value(alloc: Global, summary: &Summary) -> Result<Value, Memory>
    ensures { IfOk result (λ v. view v ≡ summary_data summary.now) }
{
    let kept = make_numbers(alloc, summary.kept.as_slice())?;
    let edf = edf_word(summary.edf);
    let fixed = fixed_word(summary.fixed);
    let number = summary.number;
    json!(in alloc; {"edf": edf, "fixed": fixed, "kept": kept, "number": number})
}

// The values of some numbers.
fn make_numbers(alloc: Global, numbers: &[u64]) -> Result<Vec<Value>, Memory>
    ensures { IfOk result (λ values. items_view values.items ≡ numbers_data numbers.now) }
{
    let mut values = Vec::new(alloc);
    for n in numbers {
        values.push(Value::from(*n))?;
    }
    Ok(values)
}

// The word of a verdict under EDF.
fn edf_word(verdict: EdfVerdict) -> &'static str
    ensures { result.now ≡ edf_word verdict }
{
    match verdict {
        EdfVerdict::Yes => "yes",
        EdfVerdict::No => "no",
        EdfVerdict::One => "one",
        EdfVerdict::Beyond => "beyond",
        EdfVerdict::Undecided => "undecided",
    }
}

// The word of a verdict under fixed priorities.
fn fixed_word(verdict: FixedVerdict) -> &'static str
    ensures { result.now ≡ fixed_word verdict }
{
    match verdict {
        FixedVerdict::Yes => "yes",
        FixedVerdict::No => "no",
        FixedVerdict::Undecided => "undecided",
    }
}
