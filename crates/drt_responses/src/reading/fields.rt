//! Single fields of a line.
ghost use Rattle.std.specs.Prelude.{◌≡◌, ◌<◌, ◌≤◌, ◌↔◌, ◌++◌, ◌∷◌, IsTrue, List, ℕ, min, decimal, MatchOption};
ghost use Rattle.std.specs.List.{list_all};
ghost use Rattle.drt_file.specs.trusted.Words.{is_digit, value};
ghost use Rattle.drt_evidence.specs.LineForms.{HasNoSpace, IsForm, IsNoForm, IsNumeral};

// The least number that 64 bits can't hold.
const BEYOND: u128 = 18_446_744_073_709_551_616;

// The first field of bytes, and what stands behind the space at its end.
pub(crate) fn cut_field(bytes: &[u8]) -> (&[u8], Option<&[u8]>)
    ensures field { HasNoSpace result.0.now }
    ensures rest { MatchOption result.1 (bytes.now ≡ result.0.now) (λ rest. bytes.now ≡ result.0.now ++ 32 ∷ rest.now) }
{
    for (i, b) in bytes.iter().enumerate() {
        if *b == b' ' {
            return (&bytes[..i], Some(&bytes[i + 1..]));
        }
    }
    (bytes, None)
}

// What stands behind a word.
fn strip<'a>(line: &'a [u8], word: &[u8]) -> Option<&'a [u8]>
    ensures { MatchOption result ((rest : List ℕ) → ¬ (line.now ≡ word.now ++ rest)) (λ rest. line.now ≡ word.now ++ rest.now) }
{
    line.strip_prefix(word)
}

// What stands behind a word and a space.
pub(crate) fn behind_word<'a>(line: &'a [u8], word: &[u8]) -> Option<&'a [u8]>
    ensures { MatchOption result ((rest : List ℕ) → ¬ (line.now ≡ word.now ++ 32 ∷ rest)) (λ rest. line.now ≡ word.now ++ 32 ∷ rest.now) }
{
    strip(strip(line, word)?, b" ")
}

// What bytes mean as digits, and 2^64 where that is more.
fn value_of(field: &[u8]) -> u128
    ensures { result ≡ min (value field.now) 18446744073709551616 }
{
    let mut n: u128 = 0;
    for b in field {
        n = n * 10 + u128::from(b.saturating_sub(48));
        if n > BEYOND {
            n = BEYOND;
        }
    }
    n
}

// Whether bytes are digits as a number has them: at least one, and no leading zero.
fn is_numeral(field: &[u8]) -> bool
    ensures { IsTrue result ↔ IsNumeral field.now }
{
    match field {
        [] => false,
        [b'0', _, ..] => false,
        _ => are_digits(field),
    }
}

// Whether each byte is a digit.
#[tactic(auto, unfolding(drt_file::specs::trusted::Words::is_digit))]
fn are_digits(field: &[u8]) -> bool
    ensures { result ≡ list_all is_digit field.now }
{
    field.iter().all(|b| *b >= b'0' && *b <= b'9')
}

// The number that the field is, where it is at most so great.
pub(crate) fn number_of(field: &[u8], most: u64) -> Option<u64>
    ensures { MatchOption result (IsNoForm decimal (λ n. n ≤ most) field.now) (IsForm decimal (λ n. n ≤ most) field.now) }
{
    if !is_numeral(field) {
        return None;
    }
    let n = value_of(field);
    if n <= u128::from(most) {
        Some(n as u64)
    } else {
        None
    }
}
