//! What a line is, from its bytes and its fields.
ghost use Rattle.std.specs.Prelude.{◌≡◌, ◌∷◌, [], nat_lt, map, IsTrue};
ghost use Rattle.std.specs.List.{list_all};
ghost use Rattle.drt_file.specs.trusted.Line.{is_text, is_skipped, is_in_range};
ghost use Rattle.drt_file.specs.trusted.Words.{is_number, value};
ghost use Rattle.drt_classic.specs.ClassicFaults.{classic_kind, first_field, is_head};

use crate::state::Kind;
use drt_file::cutting::blank;
use drt_file::words::{a_number, value_of};

#[tactic(auto, unfolding(drt_file::specs::trusted::Line::is_text))]
fn text(b: u8) -> bool
    ensures { result ≡ is_text b }
{
    blank(b) || (33 <= b && b <= 126)
}

/// Whether each byte is a blank or printable.
pub fn all_text(line: &[u8]) -> bool
    ensures { result ≡ list_all is_text line.now }
{
    for b in line {
        if !text(*b) {
            return false;
        }
    }
    true
}

/// Whether a line of these fields is skipped.
#[tactic(auto, unfolding(drt_file::specs::trusted::Line::is_skipped))]
pub fn skipped(words: &[&[u8]]) -> bool
    ensures { result ≡ is_skipped (map (λ w. w.now) words.now) }
{
    match words {
        [] => true,
        [word, ..] => match *word {
            [] => false,
            [b, ..] => *b == b'#',
        },
    }
}

/// Whether the line is `drt-classic 1`.
#[tactic(auto, unfolding(crate::specs::ClassicFaults::is_head))]
pub fn head(words: &[&[u8]]) -> bool
    ensures { result ≡ is_head (map (λ w. w.now) words.now) }
{
    match words {
        [word, version] => *word == b"drt-classic".as_slice() && *version == b"1".as_slice(),
        _ => false,
    }
}

// What the first field of a line says that it is.
#[tactic(auto, unfolding(crate::specs::ClassicFaults::classic_kind))]
fn kind_of_word(word: &[u8]) -> Kind
    ensures { result ≡ classic_kind word.now }
{
    if word == b"sporadic".as_slice() {
        Kind::Sporadic
    } else if word == b"multiframe".as_slice() {
        Kind::Multiframe
    } else if word == b"gmf".as_slice() {
        Kind::Gmf
    } else if word == b"noncyclic".as_slice() {
        Kind::Noncyclic
    } else if word == b"frame".as_slice() {
        Kind::Frame
    } else if word == b"end".as_slice() {
        Kind::End
    } else {
        Kind::Other
    }
}

/// What the first field of a line of these fields says that it is.
pub fn kind_of(words: &[&[u8]]) -> Kind
    ensures { result ≡ classic_kind (first_field (map (λ w. w.now) words.now)) }
{
    match words {
        [word, ..] => kind_of_word(word),
        [] => kind_of_word(&[]),
    }
}

fn in_range(word: &[u8]) -> bool
    ensures { result ≡ is_in_range word.now }
{
    let n = value_of(word);
    1 <= n && n <= 1_000_000
}

/// Whether each field is a number.
pub fn all_numbers(words: &[&[u8]]) -> bool
    ensures { result ≡ list_all is_number (map (λ w. w.now) words.now) }
{
    for word in words {
        if !a_number(word) {
            return false;
        }
    }
    true
}

/// Whether each number is a time in range.
pub fn all_in_range(words: &[&[u8]]) -> bool
    ensures { result ≡ list_all is_in_range (map (λ w. w.now) words.now) }
{
    for word in words {
        if !in_range(word) {
            return false;
        }
    }
    true
}

/// The time that a field in range means, in ticks.
pub fn time(word: &[u8]) -> u32
    requires { IsTrue (is_in_range word.now) }
    ensures { result ≡ value word.now }
{
    value_of(word)
}

/// Whether the deadline is greater than the separation, two fields in range.
pub fn past(deadline: &[u8], sep: &[u8]) -> bool
    requires deadline { IsTrue (is_in_range deadline.now) }
    requires sep { IsTrue (is_in_range sep.now) }
    ensures { result ≡ nat_lt (value sep.now) (value deadline.now) }
{
    time(sep) < time(deadline)
}
