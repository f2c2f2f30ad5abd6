//! Laws of the meaning: what plain lists mean, and which lists are refused.
ghost use Rattle.std.specs.Prelude.{◌≡◌, ◌==◌, ◌∷◌, [], List, ℕ, None, Some, codes, false};
ghost use Rattle.std.specs.Str.{bytes_eq};
ghost use Rattle.drt_words.specs.Plain.{BeginsPlain, IsPlain, GivesBadNumber, MissesNames};
ghost use Rattle.drt_words.specs.Meaning.{meaning_of};

use crate::meaning::Meaning;

/// A plain list means what it names, with the default for each option that isn't there.
pub fn plain_lists()
    ensures { (words : List (List ℕ)) (meaning : Meaning) → IsPlain words meaning → meaning_of words ≡ Some meaning }
{}

/// A list without a command means nothing.
pub fn no_command()
    ensures none { meaning_of [] ≡ None }
    ensures program { (program : List ℕ) → meaning_of (program ∷ []) ≡ None }
{}

/// A second word that is no command's name and doesn't begin with `-` makes the list mean nothing,
/// whatever follows.
pub fn unknown_command()
    ensures { (program text : List ℕ) (rest : List (List ℕ)) → BeginsPlain text
        → bytes_eq (codes "edf") text ≡ false → bytes_eq (codes "sp") text ≡ false → bytes_eq (codes "upgrade") text ≡ false
        → bytes_eq (codes "util") text ≡ false → bytes_eq (codes "check") text ≡ false → bytes_eq (codes "bench") text ≡ false
        → bytes_eq (codes "response") text ≡ false → bytes_eq (codes "convert") text ≡ false
        → bytes_eq (codes "timeline") text ≡ false → bytes_eq (codes "assign") text ≡ false → bytes_eq (codes "margin") text ≡ false
        → meaning_of (program ∷ text ∷ rest) ≡ None }
{}

/// The empty word is no flag, nor is one whose first byte isn't `-`.
pub fn plain_words()
    ensures empty { BeginsPlain [] }
    ensures first { (d : ℕ) (ds : List ℕ) → (d == 45) ≡ false → BeginsPlain (d ∷ ds) }
{}

/// A list that gives an option of `edf`, `sp`, `response`, `assign`, `bench` or `margin` a value that is no number in its range means
/// nothing, whatever stands before it and after it. In a list of `margin` no `--` may stand before it: what follows a `--` is a name.
pub fn bad_numbers()
    ensures { (words : List (List ℕ)) → GivesBadNumber words → meaning_of words ≡ None }
{}

/// A list that names the task of a vertex alone means nothing.
pub fn one_name()
    ensures { (program task : List ℕ) → BeginsPlain task → meaning_of (program ∷ codes "timeline" ∷ codes "--vertex" ∷ task ∷ []) ≡ None }
{}

/// A plain list of `margin` with one name or none means nothing.
pub fn missing_names()
    ensures { (words : List (List ℕ)) → MissesNames words → meaning_of words ≡ None }
{}
