//! A task file with responses behind it.
ghost use Rattle.std.specs.Prelude.{◌≡◌, ◌<◌, ◌↔◌, ◌++◌, ℕ, List, IsTrue, MatchOption, length};
ghost use Rattle.drt_command_timeline.specs.Inputs.{BeginsAt, IsInputCut};

// The line that a text of responses begins with.
const FIRST_LINE: &[u8] = b"drt-response 1\n";

// Where the first text of responses begins; the end where none does.
pub(crate) fn cut_at(bytes: &[u8]) -> usize
    ensures { IsInputCut bytes.now result }
{
    for at in 0..bytes.len() {
        if begins_at(bytes, at) {
            return at;
        }
    }
    bytes.len()
}

// Whether a text of responses begins at this byte.
fn begins_at(bytes: &[u8], at: usize) -> bool
    requires { at < length bytes.now }
    ensures { IsTrue result ↔ BeginsAt bytes.now at }
{
    if at > 0 && bytes[at - 1] != b'\n' {
        return false;
    }
    match behind(&bytes[at..], FIRST_LINE) {
        Some(_) => true,
        None => false,
    }
}

// What stands behind these first bytes.
fn behind<'a>(bytes: &'a [u8], first: &[u8]) -> Option<&'a [u8]>
    ensures { MatchOption result ((rest : List ℕ) → ¬ (bytes.now ≡ first.now ++ rest)) (λ rest. bytes.now ≡ first.now ++ rest.now) }
{
    bytes.strip_prefix(first)
}
