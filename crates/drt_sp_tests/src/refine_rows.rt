//! The rows, as the definitions compute them.

ghost use Rattle.std.specs.Prelude.{◌≡◌, Some, None, [], ◌∷◌};
ghost use Rattle.drt_sp_tests.specs.Row.{narrow_setting, wide_setting, steps_of_narrow, replies_to_narrow, steps_of_wide, replies_to_wide, replies_along};
ghost use Rattle.drt_refine.specs.Machine.{opening_state};

/// One worker and a tree of two leaves, of which the second is too much: the root is split, the first half passes, and
/// the second one fails. After that nothing changes. The function does nothing: its contract is the row.
pub fn split_once()
    ensures replies { replies_along (narrow_setting 6) (opening_state (narrow_setting 6)) steps_of_narrow ≡ replies_to_narrow }
{}

/// Two workers and a tree of three leaves: the root is split, and both halves pass, the second one first. While it is
/// held, a third worker finds the frontier busy.
pub fn split_twice()
    ensures replies { replies_along wide_setting (opening_state wide_setting) steps_of_wide ≡ replies_to_wide }
{}
