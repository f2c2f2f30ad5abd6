//! What a line is, from its bytes and its fields.
ghost use Rattle.std.specs.Prelude.{◌≡◌, map};
ghost use Rattle.std.specs.List.{list_all};
ghost use Rattle.drt_file.specs.internal.Kinds.{kind, first_word};
ghost use Rattle.drt_file.specs.trusted.Line.{is_text, is_skipped, is_in_range};

use crate::cutting::blank;
use crate::state::Kind;
use crate::words::value_of;

#[tactic(auto, unfolding(crate::specs::trusted::Line::is_text))]
fn text(b: u8) -> bool
    ensures { result ≡ is_text b }
{
    blank(b) || (33 <= b && b <= 126)
}

/// Whether each byte is a blank or printable.
pub fn all_text(line: &[u8]) -> bool
    ensures { result ≡ list_all is_text line.now }
{
    for b in line {
        if !text(*b) {
            return false;
        }
    }
    true
}

/// Whether a line of these fields is skipped.
#[tactic(auto, unfolding(crate::specs::trusted::Line::is_skipped))]
pub fn skipped(words: &[&[u8]]) -> bool
    ensures { result ≡ is_skipped (map (λ w. w.now) words.now) }
{
    match words {
        [] => true,
        [word, ..] => match *word {
            [] => false,
            [b, ..] => *b == b'#',
        },
    }
}

/// Whether the number is a time or a priority in range.
pub fn in_range(word: &[u8]) -> bool
    ensures { result ≡ is_in_range word.now }
{
    let n = value_of(word);
    1 <= n && n <= 1_000_000
}

// What the first field of a line says that it is.
#[tactic(auto, unfolding(crate::specs::internal::Kinds::kind))]
fn kind_of_word(version: u8, word: &[u8]) -> Kind
    ensures { result ≡ kind version word.now }
{
    if word == b"task".as_slice() {
        Kind::Task
    } else if word == b"vertex".as_slice() {
        Kind::Vertex
    } else if word == b"edge".as_slice() {
        Kind::Edge
    } else if word == b"priority".as_slice() && version == 2 {
        Kind::Priority
    } else if word == b"end".as_slice() {
        Kind::End
    } else {
        Kind::Other
    }
}

/// What the first field of a line of these fields says that it is.
pub fn kind_of(version: u8, words: &[&[u8]]) -> Kind
    ensures { result ≡ kind version (first_word (map (λ w. w.now) words.now)) }
{
    match words {
        [word, ..] => kind_of_word(version, word),
        [] => kind_of_word(version, &[]),
    }
}
