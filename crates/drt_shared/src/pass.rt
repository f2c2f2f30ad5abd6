//! Passes, through which workers step a shared table.

ghost use Rattle.std.specs.Prelude.{◌≡◌, Some, None, option_map};
ghost use Rattle.drt_shared.specs.Passes.{offers_of};

use crate::board::TableBoard;
use crate::terms::Terms;
use atomic_table::Seat;
use drt_label::Label;
use drt_lock::SeatView;
use std::marker::Model;

/// A node that a pass holds, with its label and the count of its out-edges that were offered.
#[derive(Drop)]
pub struct Holding<L> {
    pub node: u32,
    pub label: L,
    pub offered: u32,
}

/// A worker's pass to a shared table. Contracts see its number, the count of its logged steps, what it holds, whether `halt` was
/// called with it, and the table that it is of.
#[derive(Drop)]
pub struct Pass<L: Label> {
    pub(crate) number: u32,
    pub(crate) count: u64,
    pub(crate) holding: Option<Holding<L>>,
    pub(crate) halted: bool,
    pub(crate) seat: Seat<TableBoard<L>, SeatView<Terms>>,
}

impl<L: Label> Model for Pass<L> {
    ghost use Rattle.std.specs.Prelude.{◌≡◌, []};
    ghost use Rattle.drt_lock.specs.declared.view.Grip.TheVariants.{Away};
    ghost use Rattle.drt_shared.specs.Passes.{PassOf};

    ghost Value = { PassOf L };

    ghost view = { λ p. record { number = p.number; count = p.count; holding = p.holding; halted = p.halted; name = p.seat.table_id; setting = p.seat.me.0.fixed } };

    ghost invariant = { λ p. (p.seat.me.0.parts ≡ 1) × (p.seat.me.0.count ≡ p.count) × (p.seat.me.0.grip ≡ Away) × (p.seat.me.1 ≡ []) };
}

impl<L: Label> Pass<L> {
    /// The worker's number, by which the table knows it.
    pub fn number(&self) -> u32
        ensures { result ≡ self.now.number }
    {
        self.number
    }

    /// How many of the steps that were made with the pass are logged.
    pub fn count(&self) -> u64
        ensures { result ≡ self.now.count }
    {
        self.count
    }

    /// The node that it holds, if any.
    pub fn held(&self) -> Option<u32>
        ensures { result ≡ option_map (λ h. h.node) self.now.holding }
    {
        match &self.holding {
            Some(holding) => Some(holding.node),
            None => None,
        }
    }

    /// The label of the node that it holds, if any.
    pub fn label(&self) -> Option<&L>
        ensures { option_map (λ l. l.now) result ≡ option_map (λ h. h.label) self.now.holding }
    {
        match &self.holding {
            Some(holding) => Some(&holding.label),
            None => None,
        }
    }

    /// How many out-edges of the node that it holds were offered, 0 where it holds none.
    pub fn offered(&self) -> u32
        ensures { result ≡ offers_of self.now.holding }
    {
        match &self.holding {
            Some(holding) => holding.offered,
            None => 0,
        }
    }
}
