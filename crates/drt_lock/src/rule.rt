//! The rule of the lock, and its six kinds of step.

ghost use Rattle.std.specs.Prelude.{ℕ};
ghost use Rattle.drt_lock.specs.Rule.{IsLocked, fresh, spent, split_left, split_right, joined, grabbed, took, counted, left};

use crate::view::SeatView;
use atomic_table::{Join, Play, Split, TableRule};
use std::marker::PhantomData;
use std::snapshot::Snapshot;

/// A machine that keeps the log of its steps.
pub trait Guarded {
    /// What no step changes: the values that it was started with.
    type Fixed;

    // These values, as the machine has them.
    ghost fixed: { Self → Self.Fixed };

    // The length of its log.
    ghost entries: { Self → ℕ };
}

/// The rule of the lock.
pub struct Rule;

impl<M: Guarded> TableRule<M, SeatView<M::Fixed>, Snapshot<M::Fixed>> for Rule {
    ghost holds = { λ key. IsLocked M.fixed M.entries key.value };

    ghost first = { λ key. fresh key.value 1024 };
}

/// A seat takes the lock where it is free.
pub(crate) struct Grab;

impl<S, F> Play<S, SeatView<F>> for Grab {
    ghost then = { grabbed };
}

/// A seat that has the lock takes the machine out, and reads the length of its log.
pub(crate) struct Take<M> {
    of: PhantomData<M>,
}

impl<M: Guarded> Play<M, SeatView<M::Fixed>> for Take<M> {
    ghost then = { took M.fixed M.entries };
}

/// A seat that works on the machine counts a logged step.
pub(crate) struct Count;

impl<S, F> Play<S, SeatView<F>> for Count {
    ghost then = { counted };
}

/// A seat puts the machine back and frees the lock.
pub(crate) struct Leave;

impl<S, F> Play<S, SeatView<F>> for Leave {
    ghost then = { left };
}

/// A seat gives one part to a new seat.
pub(crate) struct Cut;

impl<F> Split<SeatView<F>> for Cut {
    ghost left = { split_left };

    ghost right = { split_right };
}

/// A seat takes in the count and the parts of another one.
pub(crate) struct Glue;

impl<F> Join<SeatView<F>> for Glue {
    ghost both = { joined };

    ghost spent = { spent };
}
