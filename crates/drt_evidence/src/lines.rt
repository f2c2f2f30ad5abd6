//! Lines of fields, as bytes.
ghost use Rattle.std.specs.Prelude.{◌≡◌, ◌++◌, ◌∷◌, [], decimal, length, map, OnOk};
ghost use Rattle.std.specs.Fmt.{signed_decimal};
ghost use Rattle.drt_file.specs.trusted.Canonical.{written_line};
ghost use Rattle.drt_evidence.specs.Fields.{behind};
ghost use Rattle.drt_evidence.specs.Text.{count_line, list_line};

use drt_file::push_line;
use drt_model::Memory;
use itoa::Buffer;

// Adds the line of a count: a keyword and how many follow.
pub(crate) fn push_count(text: &mut Vec<u8>, word: &[u8], count: usize) -> Result<(), Memory>
    ensures { OnOk result (text.new.items ≡ text.old.items ++ written_line (count_line word.now count)) }
{
    let mut number = Buffer::new();
    push_line(text, &[word, number.format(count).as_bytes()])
}

// Adds the line of a list of numbers: a keyword, how many follow, and these.
pub(crate) fn push_numbers(text: &mut Vec<u8>, word: &[u8], numbers: &[u32]) -> Result<(), Memory>
    ensures { OnOk result (text.new.items ≡ text.old.items ++ written_line (list_line word.now (map decimal numbers.now))) }
{
    push_opening(text, word, numbers.len())?;
    push_each_number(text, numbers)?;
    text.push(b'\n')?;
    Ok(())
}

// Adds the line of a list of numbers with a sign: a keyword, how many follow, and these.
pub(crate) fn push_signed(text: &mut Vec<u8>, word: &[u8], numbers: &[i64]) -> Result<(), Memory>
    ensures { OnOk result (text.new.items ≡ text.old.items ++ written_line (list_line word.now (map signed_decimal numbers.now))) }
{
    push_opening(text, word, numbers.len())?;
    push_each_signed(text, numbers)?;
    text.push(b'\n')?;
    Ok(())
}

// Adds the keyword and the count of a line of a list.
pub(crate) fn push_opening(text: &mut Vec<u8>, word: &[u8], count: usize) -> Result<(), Memory>
    ensures { OnOk result (text.new.items ≡ text.old.items ++ (word.now ++ behind (decimal count ∷ []))) }
{
    let mut number = Buffer::new();
    text.extend_from_slice(word)?;
    push_field(text, number.format(count).as_bytes())
}

// Adds numbers, each with a space before it.
pub(crate) fn push_each_number(text: &mut Vec<u8>, numbers: &[u32]) -> Result<(), Memory>
    ensures { OnOk result (text.new.items ≡ text.old.items ++ behind (map decimal numbers.now)) }
{
    let mut buffer = Buffer::new();
    for number in numbers {
        push_field(text, buffer.format(*number).as_bytes())?;
    }
    Ok(())
}

// Adds numbers with a sign, each with a space before it.
fn push_each_signed(text: &mut Vec<u8>, numbers: &[i64]) -> Result<(), Memory>
    ensures { OnOk result (text.new.items ≡ text.old.items ++ behind (map signed_decimal numbers.now)) }
{
    let mut signed = Buffer::new();
    for number in numbers {
        push_field(text, signed.format(*number).as_bytes())?;
    }
    Ok(())
}

// Adds a space and a field.
pub(crate) fn push_field(text: &mut Vec<u8>, field: &[u8]) -> Result<(), Memory>
    ensures { OnOk result (text.new.items ≡ text.old.items ++ 32 ∷ field.now) }
{
    text.push(b' ')?;
    text.extend_from_slice(field)
}
