//! What a worker takes steps with.

use crate::claims::ClaimSeat;
use crate::lane::LaneSeat;

/// A seat of the claim words, and one of each lane, by vertex. None of them has bytes: what a worker did and knows is there for contracts
/// alone.
#[derive(Drop)]
pub struct WaveSeat {
    pub(crate) claims: ClaimSeat,
    pub(crate) lanes: Vec<LaneSeat>,
}
