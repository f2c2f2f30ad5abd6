//! Bytes copied from one list to another, and calls that are made to fail.
ghost use Rattle.std.specs.Prelude.{◌≡◌, ◌==◌, ◌+◌, ◌≤◌, ◌++◌, length, take, min, vec_len, vec_capacity};
ghost use Rattle.std.specs.List.{list_any};

// Copies as many bytes as both lists have, but at most `most`, to the front of `into`.
pub(crate) fn copy_front(into: &mut [u8], from: &[u8], most: usize) -> usize
    ensures count { result ≡ min most (min (length into.old) (length from.now)) }
    ensures front { take result into.new ≡ take result from.now }
{
    let count = most.min(into.len().min(from.len()));
    into[..count].copy_from_slice(&from[..count]);
    count
}

// Whether the call after so many calls is one of those that fail.
pub(crate) fn fails_next(failing: &[u64], calls: u64) -> bool
    ensures { result ≡ list_any (λ k. k == calls + 1) failing.now }
{
    match calls.checked_add(1) {
        Some(number) => failing.contains(&number),
        None => false,
    }
}

// Appends bytes for which there is room.
pub(crate) fn append(held: &mut Vec<u8>, piece: &[u8])
    requires { vec_len held.old + length piece.now ≤ vec_capacity held.old }
    ensures items { held.new.items ≡ held.old.items ++ piece.now }
    ensures capacity { vec_capacity held.old ≤ vec_capacity held.new }
{
    match held.extend_from_slice(piece) {
        Ok(()) => {}
        Err(_) => unreachable!(),
    }
}
