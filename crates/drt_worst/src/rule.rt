//! The rule of the word, and its four kinds of step.

ghost use Rattle.std.specs.Prelude.{ℕ};
ghost use Rattle.drt_worst.specs.Rising.{IsRisen, fresh_view, spent, split_left, split_right, joined_views, Raised, Glanced};

use crate::view::View;
use atomic_table::{Play, TableRule};
use std::snapshot::Snapshot;

/// What the word is about, and which numbers may be put into it.
pub trait Meaning {
    // The number was reached.
    ghost is_reached: { Self → ℕ → Type 0 };
}

/// The rule of the word.
pub struct Rule;

impl<S: Meaning> TableRule<(), View, Snapshot<S>> for Rule {
    ghost holds = { λ key. IsRisen (S.is_reached key.value) };

    ghost first = { λ _. fresh_view 1024 };
}

/// A seat makes the word at least a number.
pub(crate) struct Raise;

impl Play<(), View> for Raise {
    ghost then = { Raised };
}

/// A seat loads the word, and notes the value.
pub(crate) struct Glance;

impl Play<(), View> for Glance {
    ghost then = { Glanced };
}

/// A seat gives one part to a new seat.
pub(crate) struct Split;

impl atomic_table::Split<View> for Split {
    ghost left = { split_left };

    ghost right = { split_right };
}

/// A seat takes in the numbers and the parts of another one.
pub(crate) struct Join;

impl atomic_table::Join<View> for Join {
    ghost both = { joined_views };

    ghost spent = { spent };
}
