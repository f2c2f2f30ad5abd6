//! The claim words: one for each wave, from which workers draw the numbers of its blocks.
ghost use Rattle.std.specs.Prelude.{◌≡◌, ◌<◌, IfOk};
ghost use Rattle.drt_lock.specs.Rule.{all_parts};
ghost use Rattle.drt_wave.specs.Claims.{Draws, fresh_claims, claims_left, claims_right, claims_joined};

use crate::rule::{Claim, ClaimRule, Cut, Glue};
use crate::view::ClaimView;
use atomic_table::{Seat, Table};
use drt_model::Memory;
use std::alloc::Global;

/// What a worker draws numbers with. It has no bytes.
pub type ClaimSeat = Seat<(), ClaimView>;

/// One word for each wave.
#[derive(Drop)]
pub struct Claims {
    pub(crate) table: Table<(), ClaimView, u32, ClaimRule, Global>,
    ghost some: { 0 < table.shared.table_id.words },
    ghost counted: { table.shared.table_id.words ≡ table.shared.key },
    ghost no_slots: { table.shared.table_id.slots ≡ 0 },
}

impl Claims {
    ghost use Rattle.drt_wave.specs.Lane.{IsClaimSeat};

    /// The words of so many waves, of which no number is drawn, with the seat that has every part.
    pub(crate) fn start(alloc: Global, waves: u32) -> Result<(Claims, ClaimSeat), Memory>
        requires some { 0 < waves }
        ensures words { IfOk result (λ r. r.0.table.shared.table_id.words ≡ waves) }
        ensures seat { IfOk result (λ r. IsClaimSeat r.0 r.1) }
        ensures fresh { IfOk result (λ r. r.1.me.0 ≡ fresh_claims all_parts) }
    {
        let words = vec![in alloc; 0u64; waves as usize]?;
        let (table, seat) = Table::of_words(alloc, words.as_slice(), &waves)?;
        Ok((Claims { table }, seat))
    }

    /// Draws the next number of a wave.
    pub(crate) fn claim(&self, seat: &mut ClaimSeat, wave: u32) -> u64
        requires seat { IsClaimSeat self.now seat.old }
        requires parts { 0 < seat.old.me.0.parts }
        requires wave { wave < self.now.table.shared.table_id.words }
        ensures seat { IsClaimSeat self.now seat.new }
        ensures drawn { Draws wave result seat.old.me.0 seat.new.me.0 }
    {
        self.table.shared.fetch_add::<Claim>(seat, wave as usize, 1)
    }

    /// A seat with one of the parts.
    pub(crate) fn split(&self, seat: &mut ClaimSeat) -> ClaimSeat
        requires seat { IsClaimSeat self.now seat.old }
        requires parts { 1 < seat.old.me.0.parts }
        ensures seat { IsClaimSeat self.now seat.new }
        ensures new { IsClaimSeat self.now result }
        ensures left { seat.new.me.0 ≡ claims_left seat.old.me.0 }
        ensures right { result.me.0 ≡ claims_right seat.old.me.0 }
    {
        self.table.shared.split_seat::<Cut>(seat)
    }

    /// Takes in another seat.
    pub(crate) fn join(&self, seat: &mut ClaimSeat, other: ClaimSeat)
        requires seat { IsClaimSeat self.now seat.old }
        requires other { IsClaimSeat self.now other }
        requires parts { 0 < seat.old.me.0.parts }
        ensures seat { IsClaimSeat self.now seat.new }
        ensures joined { seat.new.me.0 ≡ claims_joined seat.old.me.0 other.me.0 }
    {
        self.table.shared.join_seat::<Glue>(seat, other);
    }
}
