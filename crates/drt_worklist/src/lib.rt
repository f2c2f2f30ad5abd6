//! What worklists have in common, in which any workers take entries, work on them and log each step: places in a list,
//! runs of a machine whose steps are logged, and lists that have their room from the start.
//!
//! The layers above state their machines with `specs/Places.antt` and `specs/Runs.antt`, and cite the lemmas on them.
#![tactic(auto)]

ghost use Rattle.std.specs.Prelude.{◌≡◌, ◌<◌, ◌≤◌, ◌++◌, ◌∷◌, [], vec_len, vec_capacity};

/// Appends to a list that has room.
pub fn push_within<T: Drop>(items: &mut Vec<T>, item: T)
    requires { vec_len items.old < vec_capacity items.old }
    ensures items { items.new.items ≡ items.old.items ++ item ∷ [] }
    ensures capacity { vec_capacity items.old ≤ vec_capacity items.new }
{
    match items.push(item) {
        Ok(()) => {}
        Err(_) => unreachable!(),
    }
}
