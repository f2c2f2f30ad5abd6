//! The word. Each step is taken by a seat.

ghost use Rattle.std.specs.Prelude.{◌≡◌, ℕ, ◌<◌, ◌≤◌, [], IfOk};
ghost use Rattle.drt_lock.specs.Rule.{all_parts};
ghost use Rattle.drt_worst.specs.Rising.{HoldsOfEach, fresh_view, split_left, split_right, joined_views, with_raised, with_noted};
ghost use Rattle.drt_worst.specs.Closing.{IsWordClosed};

use crate::rule::{Glance, Join, Meaning, Raise, Rule, Split};
use crate::view::View;
use atomic_table::{Seat, Table};
use std::alloc::{AllocError as Memory, Global};
use std::marker::Model;
use std::snapshot::Snapshot;

/// The only word of its table.
const WORD: usize = 0;

/// A word that begins with 0 and never falls. Contracts see its name and what it is about.
#[derive(Drop)]
pub struct Word<S: Meaning> {
    table: Table<(), View, Snapshot<S>, Rule, Global>,
}

impl<S: Meaning> Model for Word<S> {
    ghost use Rattle.std.specs.Prelude.{◌≡◌};
    ghost use Rattle.drt_worst.specs.Closing.{WordOf};

    ghost Value = { WordOf S };

    ghost view = { λ w. record { name = w.table.shared.table_id; about = w.table.shared.key.value } };

    ghost invariant = { λ w. (w.table.shared.table_id.words ≡ 1) × (w.table.shared.table_id.slots ≡ 0) };
}

impl<S: Meaning> Word<S> {
    /// A word that holds 0, and the seat that has every part.
    pub fn new(alloc: Global, about: Snapshot<S>) -> Result<(Word<S>, Seat<(), View>), Memory>
        ensures about { IfOk result (λ r. r.0.about ≡ about.value) }
        ensures name { IfOk result (λ r. r.1.table_id ≡ r.0.name) }
        ensures seat { IfOk result (λ r. r.1.me ≡ (fresh_view all_parts, [])) }
    {
        let (table, seat) = Table::of_words(alloc, &[0], &about)?;
        Ok((Word { table }, seat))
    }

    /// Makes the word at least the number, which has to have been reached.
    pub fn raise(&self, seat: &mut Seat<(), View>, number: u64)
        requires name { seat.old.table_id ≡ self.now.name }
        requires part { 0 < seat.old.me.0.parts }
        requires reached { S.is_reached self.now.about number }
        ensures name { seat.new.table_id ≡ self.now.name }
        ensures seat { seat.new.me ≡ (with_raised seat.old.me.0 number, seat.old.me.1) }
    {
        self.table.shared.fetch_max::<Raise>(seat, WORD, number);
    }

    /// The value of the word, which is at least each number that the seat knows.
    pub fn glance(&self, seat: &mut Seat<(), View>) -> u64
        requires name { seat.old.table_id ≡ self.now.name }
        requires part { 0 < seat.old.me.0.parts }
        ensures name { seat.new.table_id ≡ self.now.name }
        ensures seat { seat.new.me ≡ (with_noted seat.old.me.0 result, seat.old.me.1) }
        ensures raised { HoldsOfEach (λ x. x ≤ result) seat.old.me.0.raised }
        ensures noted { HoldsOfEach (λ x. x ≤ result) seat.old.me.0.noted }
    {
        self.table.shared.load::<Glance>(seat, WORD)
    }

    /// Gives one part to a new seat.
    pub fn split(&self, seat: &mut Seat<(), View>) -> Seat<(), View>
        requires name { seat.old.table_id ≡ self.now.name }
        requires parts { 1 < seat.old.me.0.parts }
        ensures name { (seat.new.table_id ≡ self.now.name) × (result.table_id ≡ self.now.name) }
        ensures seat { seat.new.me ≡ (split_left seat.old.me.0, seat.old.me.1) }
        ensures new { result.me ≡ (split_right seat.old.me.0, []) }
    {
        self.table.shared.split_seat::<Split>(seat)
    }

    /// Takes in the numbers and the parts of another seat.
    pub fn join(&self, seat: &mut Seat<(), View>, other: Seat<(), View>)
        requires name { (seat.old.table_id ≡ self.now.name) × (other.table_id ≡ self.now.name) }
        requires part { 0 < seat.old.me.0.parts }
        requires other { other.me.1 ≡ [] }
        ensures name { seat.new.table_id ≡ self.now.name }
        ensures seat { seat.new.me ≡ (joined_views seat.old.me.0 other.me.0, seat.old.me.1) }
    {
        self.table.shared.join_seat::<Join>(seat, other);
    }

    /// The word at the end, by the seat that has every part. It is 0 or the greatest number that any seat raised, each of these
    /// was reached, and no number that was noted is above it.
    pub fn close(self, seat: Seat<(), View>) -> u64
        requires name { seat.table_id ≡ self.name }
        requires parts { seat.me.0.parts ≡ all_parts }
        ensures { IsWordClosed (S.is_reached self.about) result seat.me.0 }
    {
        let Word { table } = self;
        let closed = table.close_with(seat);
        let word = closed.word(WORD);
        closed.free();
        word
    }
}
