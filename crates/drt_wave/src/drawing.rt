//! What a worker of a shared wave does: it draws blocks in a row, and then expands their cells.
ghost use Rattle.std.specs.Prelude.{◌≡◌, ℕ, ◌*◌, ◌/◌, ◌<◌, ◌≤◌, slice_index, false};
ghost use Rattle.drt_wave.specs.Cells.{net_of};
ghost use Rattle.drt_wave.specs.Seats.{parts_held, KnowsTo, IsOfTable, IsExpanded, AllExpanded, IsSeatKept, IsPast, Turned};
ghost use Rattle.drt_wave.specs.Rows.{ExpandedBut};

use crate::expanding::expand_block;
use crate::seat::WaveSeat;
use crate::table::WaveTable;

// So many blocks are drawn in a row, since blocks next to one another are then one worker's: lines of memory don't go back and forth.
const ROW: usize = 8;

// Draws blocks of a wave until the row is full or a number is past the wave's end, and says how many are drawn. There it reads no cell, since only
// a seat with every part would get to know the next wave by that.
fn draw_row(table: &WaveTable, seat: &mut WaveSeat, wave: u32, row: &mut [u64; ROW]) -> usize
    requires seat { IsOfTable table.now seat.old }
    requires parts { 0 < parts_held seat.old }
    requires wave { wave < (net_of table.now.plan).waves }
    requires all { AllExpanded table.now.plan seat.old }
    ensures seat { IsOfTable table.now seat.new }
    ensures turned { Turned seat.old seat.new }
    ensures count { result ≤ 8 }
    ensures within { (k : ℕ) → k < result → slice_index row.new k * 64 < (net_of table.now.plan).size wave }
    ensures others { ExpandedBut table.now.plan wave row.new result seat.new }
    ensures past { result < 8 → IsPast (net_of table.now.plan) wave seat.new }
{
    let blocks = table.block_count(wave);
    'draws: for k in 0..ROW {
        let block = table.draw(seat, wave);
        if block >= blocks {
            return k;
        }
        row[k] = block;
    }
    ROW
}

// Expands the cells of the first blocks of a row.
fn expand_row(table: &WaveTable, seat: &mut WaveSeat, wave: u32, row: &[u64; ROW], count: usize)
    requires seat { IsOfTable table.now seat.old }
    requires parts { 0 < parts_held seat.old }
    requires wave { wave < (net_of table.now.plan).waves }
    requires known { KnowsTo wave seat.old }
    requires count { count ≤ 8 }
    requires within { (k : ℕ) → k < count → slice_index row.now k * 64 < (net_of table.now.plan).size wave }
    ensures seat { IsOfTable table.now seat.new }
    ensures kept { IsSeatKept seat.old seat.new }
    ensures expanded { (k n : ℕ) → k < count → n < (net_of table.now.plan).size wave → n / 64 ≡ slice_index row.now k
        → IsExpanded table.now.plan seat.new ((net_of table.now.plan).cell wave n) }
{
    'drawn: for k in 0..count {
        expand_block(table, seat, wave, row[k]);
    }
}

/// Draws blocks of a wave in a row, and then expands their cells. False where a number is past the wave's end.
pub(crate) fn turn_some(table: &WaveTable, seat: &mut WaveSeat, wave: u32) -> bool
    requires seat { IsOfTable table.now seat.old }
    requires parts { 0 < parts_held seat.old }
    requires wave { wave < (net_of table.now.plan).waves }
    requires known { KnowsTo wave seat.old }
    requires all { AllExpanded table.now.plan seat.old }
    ensures seat { IsOfTable table.now seat.new }
    ensures turned { Turned seat.old seat.new }
    ensures all { AllExpanded table.now.plan seat.new }
    ensures past { result ≡ false → IsPast (net_of table.now.plan) wave seat.new }
{
    let mut row = [0; ROW];
    let count = draw_row(table, seat, wave, &mut row);
    expand_row(table, seat, wave, &row, count);
    count == ROW
}

/// How many turns a wave takes one worker: with the last one it is told of the wave's end.
pub(crate) fn turn_count(table: &WaveTable, wave: u32) -> u64
    requires { wave < (net_of table.now.plan).waves }
    ensures { result ≤ 8193 }
{
    table.block_count(wave) / ROW as u64 + 1
}
