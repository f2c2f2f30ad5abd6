//! Passes, through which workers step a shared frontier.

ghost use Rattle.std.specs.Prelude.{◌≡◌, ℕ, Some};

use atomic_table::Seat;
use drt_frontier_board::{FrontierBoard, Terms};
use drt_lock::SeatView;
use std::marker::Model;

/// A worker's pass to a shared frontier. Contracts see its number, the count of its logged steps, the combination that it holds, its
/// copy of that one's nodes, and the frontier that it is of.
#[derive(Drop)]
pub struct FrontierPass {
    pub(crate) number: u32,
    pub(crate) count: u64,
    pub(crate) held: Option<u32>,
    pub(crate) nodes: Vec<u32>,
    pub(crate) seat: Seat<FrontierBoard, SeatView<Terms>>,
}

impl Model for FrontierPass {
    ghost use Rattle.std.specs.Prelude.{◌≡◌, []};
    ghost use Rattle.drt_lock.specs.declared.view.Grip.TheVariants.{Away};
    ghost use Rattle.drt_shared_frontier.specs.Passes.{FrontierPassOf};

    ghost Value = { FrontierPassOf };

    ghost view = { λ p. record { number = p.number; count = p.count; held = p.held; nodes = p.nodes.items; name = p.seat.table_id; setting = p.seat.me.0.fixed } };

    ghost invariant = { λ p. (p.seat.me.0.parts ≡ 1) × (p.seat.me.0.count ≡ p.count) × (p.seat.me.0.grip ≡ Away) × (p.seat.me.1 ≡ []) };
}

impl FrontierPass {
    /// The worker's number, by which the frontier knows it.
    pub fn number(&self) -> u32
        ensures { result ≡ self.now.number }
    {
        self.number
    }

    /// How many of the steps that were made with the pass are logged.
    pub fn count(&self) -> u64
        ensures { result ≡ self.now.count }
    {
        self.count
    }

    /// The combination that it holds, if any.
    pub fn held(&self) -> Option<u32>
        ensures { result ≡ self.now.held }
    {
        self.held
    }

    /// The copy of the nodes of the combination that it holds, one for each root.
    pub fn nodes(&self) -> &[u32]
        requires { (id : ℕ) × (self.now.held ≡ Some id) }
        ensures { result.now ≡ self.now.nodes }
    {
        self.nodes.as_slice()
    }
}
