//! Single fields of a line.
ghost use Rattle.std.specs.Prelude.{◌≡◌, ◌<◌, ◌≤◌, ◌↔◌, ◌-◌, ◌++◌, ◌∷◌, IsTrue, List, ℕ, negsuc, min, decimal, MatchOption};
ghost use Rattle.std.specs.List.{list_all};
ghost use Rattle.std.specs.Fmt.{signed_decimal};
ghost use Rattle.drt_file.specs.trusted.Words.{is_digit, value};
ghost use Rattle.drt_evidence.specs.LineForms.{AreBoth, HasNoSpace, IsAny, IsForm, IsNoForm, IsNumeral, itself, pair_form};
ghost use Rattle.drt_claims.specs.Ranges.{IsInRangeItem, IsInRangePotential, IsNumber, IsTick};
ghost use Rattle.drt_evidence.specs.Text.{item_field};

use drt_claims::{Item, MOST_NUMBER, MOST_TICKS};

/// The greatest size of a potential.
const MOST_HEIGHT: u64 = 10_000_000_000_000_000;

// The first field of bytes, and what stands behind the space at its end.
pub(crate) fn cut_field(bytes: &[u8]) -> (&[u8], Option<&[u8]>)
    ensures field { HasNoSpace result.0.now }
    ensures rest { MatchOption result.1 (bytes.now ≡ result.0.now) (λ rest. bytes.now ≡ result.0.now ++ 32 ∷ rest.now) }
{
    for (i, b) in bytes.iter().enumerate() {
        if *b == b' ' {
            return (&bytes[..i], Some(&bytes[i + 1..]));
        }
    }
    (bytes, None)
}

// What stands behind a word.
fn strip<'a>(line: &'a [u8], word: &[u8]) -> Option<&'a [u8]>
    ensures { MatchOption result ((rest : List ℕ) → ¬ (line.now ≡ word.now ++ rest)) (λ rest. line.now ≡ word.now ++ rest.now) }
{
    line.strip_prefix(word)
}

// What stands behind a word and a space.
pub(crate) fn behind_word<'a>(line: &'a [u8], word: &[u8]) -> Option<&'a [u8]>
    ensures { MatchOption result ((rest : List ℕ) → ¬ (line.now ≡ word.now ++ 32 ∷ rest)) (λ rest. line.now ≡ word.now ++ 32 ∷ rest.now) }
{
    strip(strip(line, word)?, b" ")
}

// What bytes mean as digits, and the greatest number where that is greater.
fn value_of(field: &[u8]) -> u64
    ensures { result ≡ min (value field.now) 18446744073709551615 }
{
    let mut n: u64 = 0;
    for b in field {
        n = n
            .saturating_mul(10)
            .saturating_add(u64::from(b.saturating_sub(48)));
    }
    n
}

// Whether bytes are digits as a number has them: at least one, and no leading zero.
fn is_numeral(field: &[u8]) -> bool
    ensures { IsTrue result ↔ IsNumeral field.now }
{
    match field {
        [] => false,
        [b'0', _, ..] => false,
        _ => are_digits(field),
    }
}

// Whether each byte is a digit.
#[tactic(auto, unfolding(drt_file::specs::trusted::Words::is_digit))]
fn are_digits(field: &[u8]) -> bool
    ensures { result ≡ list_all is_digit field.now }
{
    field.iter().all(|b| *b >= b'0' && *b <= b'9')
}

// The number that the field is, where it is at most so great.
pub(crate) fn number_of(field: &[u8], most: u64) -> Option<u64>
    requires { most < 18446744073709551615 }
    ensures { MatchOption result (IsNoForm decimal (λ n. n ≤ most) field.now) (IsForm decimal (λ n. n ≤ most) field.now) }
{
    if !is_numeral(field) {
        return None;
    }
    let n = value_of(field);
    if n <= most { Some(n) } else { None }
}

// The number of a vertex, a task, a job or a place, or the count, that the field is.
pub(crate) fn index_of(field: &[u8]) -> Option<u32>
    ensures { MatchOption result (IsNoForm decimal IsNumber field.now) (IsForm decimal IsNumber field.now) }
{
    match number_of(field, MOST_NUMBER) {
        Some(n) => Some(n as u32),
        None => None,
    }
}

// The number that the first field is, and what stands behind the space at its end.
pub(crate) fn index_before(bytes: &[u8]) -> Option<(u32, &[u8])>
    ensures { MatchOption result
        (IsNoForm (pair_form decimal itself) (AreBoth IsNumber IsAny) bytes.now)
        (λ p. IsForm (pair_form decimal itself) (AreBoth IsNumber IsAny) bytes.now (p.0, p.1.now)) }
{
    let (field, rest) = cut_field(bytes);
    let rest = rest?;
    Some((index_of(field)?, rest))
}

// A number from 1 on, with a minus.
fn negated(n: u64) -> i64
    requires { (1 ≤ n) × (n ≤ 10000000000000000) }
    ensures { result ≡ negsuc (n - 1) }
{
    -(n as i64)
}

// The potential below 0 whose digits, behind the minus, these are.
fn negative_of(digits: &[u8]) -> Option<i64>
    ensures { MatchOption result (IsNoForm signed_decimal IsInRangePotential (45 ∷ digits.now)) (IsForm signed_decimal IsInRangePotential (45 ∷ digits.now)) }
{
    match number_of(digits, MOST_HEIGHT) {
        Some(0) => None,
        Some(n) => Some(negated(n)),
        None => None,
    }
}

// The potential that the field is.
pub(crate) fn potential_of(field: &[u8]) -> Option<i64>
    ensures { MatchOption result (IsNoForm signed_decimal IsInRangePotential field.now) (IsForm signed_decimal IsInRangePotential field.now) }
{
    if let Some(digits) = strip(field, b"-") {
        return negative_of(digits);
    }
    match number_of(field, MOST_HEIGHT) {
        Some(n) => Some(n as i64),
        None => None,
    }
}

// The item of a proof that the field is.
pub(crate) fn item_of(field: &[u8]) -> Option<Item>
    ensures { MatchOption result (IsNoForm item_field IsInRangeItem field.now) (IsForm item_field IsInRangeItem field.now) }
{
    match field {
        [b'p', time @ ..] => match number_of(time, MOST_TICKS) {
            Some(t) => Some(Item::Pass(t)),
            None => None,
        },
        [b's', place @ ..] => match index_of(place) {
            Some(p) => Some(Item::Split(p)),
            None => None,
        },
        _ => None,
    }
}

// A value that is one field of a list.
pub(crate) trait Field: Sized + Drop {
    // The field of a value.
    ghost field: { Self → List ℕ };

    // The values that have a field.
    ghost is_stated: { Self → Type 0 };

    // The value whose field the bytes are.
    fn of(bytes: &[u8]) -> Option<Self>
        ensures { MatchOption result (IsNoForm field is_stated bytes.now) (IsForm field is_stated bytes.now) };
}

impl Field for u32 {
    ghost field = { decimal };

    ghost is_stated = { IsNumber };

    fn of(bytes: &[u8]) -> Option<u32> {
        index_of(bytes)
    }
}

impl Field for i64 {
    ghost field = { signed_decimal };

    ghost is_stated = { IsInRangePotential };

    fn of(bytes: &[u8]) -> Option<i64> {
        potential_of(bytes)
    }
}

impl Field for Item {
    ghost field = { item_field };

    ghost is_stated = { IsInRangeItem };

    fn of(bytes: &[u8]) -> Option<Item> {
        item_of(bytes)
    }
}
