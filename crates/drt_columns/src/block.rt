//! Blocks of labels, sample by sample.
//!
//! A block has a column for each sample, and a column has that sample of each of the block's labels. The loops over a
//! column go through all of it, take no branch and leave nothing out, and a mask is made of the columns' own numbers: a
//! compiler makes such a loop wide, and one with an exit it doesn't.

ghost use Rattle.std.specs.Prelude.{◌≡◌, ◌≢◌, ℕ, ◌+◌, ◌<◌, ◌≤◌, ◌∷◌, ◌++◌, [], Some, length, slice_get, slice_index, MatchOption};
ghost use Rattle.drt_columns.specs.Entries.{KeptLabel};
ghost use Rattle.drt_columns.specs.Slots.{AreColumns, IsMask, kept, samples_at};

use drt_label::SAMPLES;
use std::marker::Model;

/// How many labels a block has slots for.
pub(crate) const SLOTS: usize = 64;

/// For each slot, whether the label there is still possible: 0 where it isn't.
pub(crate) type Mask = [u16; SLOTS];

/// A block of labels.
#[derive(Drop)]
pub(crate) struct Block {
    count: usize,
    numbers: [u32; SLOTS],
    columns: [[u16; SLOTS]; SAMPLES],
}

impl Model for Block {
    ghost use Rattle.std.specs.Prelude.{List, length, ◌≡◌, ◌≤◌};
    ghost use Rattle.drt_columns.specs.Entries.{KeptLabel};
    ghost use Rattle.drt_columns.specs.Slots.{AreColumns, first_entries};

    ghost Value = { List KeptLabel };

    ghost view = { λ b. first_entries b.numbers b.columns b.count };

    ghost invariant = { λ b. (b.count ≤ 64) × (length b.numbers ≡ 64) × AreColumns b.columns };
}

impl Block {
    /// A block with no labels.
    pub(crate) fn new() -> Block
        ensures { result ≡ [] }
    {
        Block {
            count: 0,
            numbers: [0; SLOTS],
            columns: [[0; SLOTS]; SAMPLES],
        }
    }

    /// Adds a label.
    pub(crate) fn push(&mut self, number: u32, samples: &[u16; SAMPLES])
        requires { length self.old < 64 }
        ensures { self.new ≡ self.old ++ record { number = number; samples = samples.now } ∷ [] }
    {
        let slot = self.count;
        self.numbers[slot] = number;
        write_samples(&mut self.columns, slot, samples);
        self.count = slot + 1;
    }

    /// The number of the label in a slot.
    pub(crate) fn number(&self, slot: usize) -> u32
        requires { slot < length self.now }
        ensures { (e : KeptLabel) → slice_get self.now slot ≡ Some e → result ≡ e.number }
    {
        let numbers = &self.numbers;
        numbers[slot]
    }

    /// Which labels are left when those with a sample less than one of these are ruled out.
    pub(crate) fn mask(&self, samples: &[u16; SAMPLES]) -> Mask
        ensures { IsMask self.now samples.now result }
    {
        let mut mask = used_slots(self.count);
        for k in 0..SAMPLES {
            if rule_out(&mut mask, &self.columns[k], samples[k]) == 0 {
                return mask;
            }
        }
        mask
    }
}

// Writes the samples of a label into a slot of the columns.
fn write_samples(columns: &mut [[u16; SLOTS]; SAMPLES], slot: usize, samples: &[u16; SAMPLES])
    requires slot { slot < 64 }
    requires columns { AreColumns columns.old }
    ensures columns { AreColumns columns.new }
    ensures here { samples_at columns.new slot ≡ samples.now }
    ensures others { (other : ℕ) → other ≢ slot → samples_at columns.new other ≡ samples_at columns.old other }
{
    for k in 0..SAMPLES {
        columns[k][slot] = samples[k];
    }
}

// The mask of so many labels.
fn used_slots(count: usize) -> Mask
    requires { count ≤ 64 }
    ensures used { (slot : ℕ) → slice_index result slot ≢ 0 → slot < count }
    ensures all { (slot : ℕ) → slot < count → slice_index result slot ≢ 0 }
{
    let mut mask = [0; SLOTS];
    for slot in 0..count {
        mask[slot] = u16::MAX;
    }
    mask
}

// Rules out the labels whose sample is less, and says whether any is left: 0 where none is.
fn rule_out(mask: &mut Mask, column: &[u16; SLOTS], least: u16) -> u16
    ensures { (slot : ℕ) → slice_index mask.new slot ≡ kept least (slice_index column.now slot) (slice_index mask.old slot) }
{
    let mut left = 0;
    for slot in 0..SLOTS {
        let here = if column[slot] < least { 0 } else { mask[slot] };
        mask[slot] = here;
        left |= here;
    }
    left
}

// The greatest number of a mask.
fn greatest(mask: &Mask) -> u16
    ensures { (k : ℕ) → slice_index mask.now k ≤ result }
{
    let mut greatest = 0;
    for slot in 0..SLOTS {
        greatest = mask[slot].max(greatest);
    }
    greatest
}

/// The first slot, from one on, whose label is still possible. Of most blocks none is, and a loop over all slots tells that sooner than one
/// with an exit.
pub(crate) fn first_possible(mask: &Mask, from: usize) -> Option<usize>
    ensures none { MatchOption result ((k : ℕ) → from ≤ k → slice_index mask.now k ≡ 0) (λ slot. (k : ℕ) → from ≤ k → k < slot → slice_index mask.now k ≡ 0) }
    ensures some { MatchOption result (Unit {0}) (λ slot. (from ≤ slot) × (slot < 64) × (slice_index mask.now slot ≢ 0)) }
{
    if greatest(mask) == 0 {
        return None;
    }
    for slot in from..SLOTS {
        if mask[slot] != 0 {
            return Some(slot);
        }
    }
    None
}
