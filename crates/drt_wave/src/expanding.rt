//! What a worker does with a wave: it draws a block, and expands its cells.
ghost use Rattle.std.specs.Prelude.{◌≡◌, ℕ, ◌+◌, ◌*◌, ◌^◌, ◌<◌, ◌≤◌, ◌/◌, ◌%◌, false};
ghost use Rattle.drt_lock.specs.Rule.{all_parts};
ghost use Rattle.drt_model.specs.Digraph.{vertex_count, out_degree};
ghost use Rattle.drt_wave.specs.Net.{Reached};
ghost use Rattle.drt_wave.specs.Cells.{net_of, cell_at, most_cells};
ghost use Rattle.drt_wave.specs.Seats.{parts_held, KnowsTo, HasRaised, IsOfTable, IsExpanded, AllExpanded, IsSeatKept, Passed, IsPast, HasDrawn, HasDrawnBelow, Turned};
ghost use Rattle.drt_wave.specs.Shifts.{HasWorked};
ghost use Rattle.drt_wave.specs.Ways.{IsWayRow};

use crate::layout::BLOCK;
use crate::seat::WaveSeat;
use crate::table::WaveTable;
use crate::ways::Way;

// Passes the value of a cell on along a way from its offset.
fn pass_one(table: &WaveTable, seat: &mut WaveSeat, way: Way, offset: u64, value: u64)
    requires seat { IsOfTable table.now seat.old }
    requires parts { 0 < parts_held seat.old }
    requires vertex { way.vertex < vertex_count table.now.plan.graph }
    requires within { offset < way.end → way.gap + offset ≤ table.now.plan.bound }
    requires reached { offset < way.end → Reached (net_of table.now.plan) (cell_at table.now.plan way.vertex (way.gap + offset)) (value + way.work) }
    requires small { table.now.plan.bound < most_cells }
    requires fits { value + way.work < 2 ^ 64 }
    ensures seat { IsOfTable table.now seat.new }
    ensures kept { IsSeatKept seat.old seat.new }
    ensures passed { offset < way.end → HasRaised seat.new way.vertex (way.gap + offset) (value + way.work) }
{
    if offset >= way.end as u64 {
        return;
    }
    table.raise_at(
        seat,
        way.vertex,
        way.gap as u64 + offset,
        value + way.work as u64,
    );
}

// Passes the value of a cell on along the edges out of its vertex.
fn pass_on(table: &WaveTable, seat: &mut WaveSeat, vertex: u32, offset: u64, value: u64)
    requires seat { IsOfTable table.now seat.old }
    requires parts { 0 < parts_held seat.old }
    requires vertex { vertex < vertex_count table.now.plan.graph }
    requires offset { offset ≤ table.now.plan.bound }
    requires value { Reached (net_of table.now.plan) (cell_at table.now.plan vertex offset) value }
    ensures seat { IsOfTable table.now seat.new }
    ensures kept { IsSeatKept seat.old seat.new }
    ensures passed { Passed table.now.plan seat.new vertex offset value (out_degree table.now.plan.graph vertex) }
{
    let ways = table.ways_from(vertex);
    'edges: for k in 0..ways.len() {
        pass_one(table, seat, ways[k], offset, value);
    }
}

// Reads a cell, and passes its value on. A cell of 0 costs this look alone.
fn expand(table: &WaveTable, seat: &mut WaveSeat, vertex: u32, offset: u64)
    requires seat { IsOfTable table.now seat.old }
    requires parts { 0 < parts_held seat.old }
    requires vertex { vertex < vertex_count table.now.plan.graph }
    requires offset { offset ≤ table.now.plan.bound }
    requires known { KnowsTo (offset / table.now.plan.span) seat.old }
    ensures seat { IsOfTable table.now seat.new }
    ensures kept { IsSeatKept seat.old seat.new }
    ensures expanded { IsExpanded table.now.plan seat.new (cell_at table.now.plan vertex offset) }
{
    let value = table.glance_at(seat, vertex, offset);
    if value == 0 {
        return;
    }
    pass_on(table, seat, vertex, offset, value);
}

// The row and the column of the number after this one in rows of `width`.
fn next_place(row: u32, column: u64, width: u64) -> (u32, u64)
    requires row { row < most_cells }
    requires column { column < width }
    requires width { width ≤ most_cells }
    ensures { (n : ℕ) → row ≡ n / width → column ≡ n % width → (result.0 ≡ (n + 1) / width) × (result.1 ≡ (n + 1) % width) }
{
    if column + 1 < width {
        return (row, column + 1);
    }
    (row + 1, 0)
}

// Expands the cells of a block.
pub(crate) fn expand_block(table: &WaveTable, seat: &mut WaveSeat, wave: u32, block: u64)
    requires seat { IsOfTable table.now seat.old }
    requires parts { 0 < parts_held seat.old }
    requires wave { wave < (net_of table.now.plan).waves }
    requires known { KnowsTo wave seat.old }
    requires block { block * 64 < (net_of table.now.plan).size wave }
    ensures seat { IsOfTable table.now seat.new }
    ensures kept { IsSeatKept seat.old seat.new }
    ensures expanded { (n : ℕ) → n < (net_of table.now.plan).size wave → n / 64 ≡ block → IsExpanded table.now.plan seat.new ((net_of table.now.plan).cell wave n) }
{
    let first = table.first_offset(wave);
    let width = table.offsets(wave);
    let begin = block * BLOCK;
    let end = (begin + BLOCK).min(table.wave_size(wave));
    let mut vertex = (begin / width) as u32;
    let mut at = begin % width;
    'cells: for _number in begin..end {
        expand(table, seat, vertex, first + at);
        (vertex, at) = next_place(vertex, at, width);
    }
}

impl WaveTable {
    // The ways out of a vertex.
    fn ways_from(&self, vertex: u32) -> &[Way]
        requires { vertex < vertex_count self.now.plan.graph }
        ensures { IsWayRow self.now.plan vertex result.now }
    {
        self.ways.as_slice()[vertex as usize].as_slice()
    }
}

/// Draws the next block of a wave, and expands its cells. False where the number is past the wave's end.
pub(crate) fn turn(table: &WaveTable, seat: &mut WaveSeat, wave: u32) -> bool
    requires seat { IsOfTable table.now seat.old }
    requires parts { 0 < parts_held seat.old }
    requires wave { wave < (net_of table.now.plan).waves }
    requires known { KnowsTo wave seat.old }
    requires all { AllExpanded table.now.plan seat.old }
    ensures seat { IsOfTable table.now seat.new }
    ensures turned { Turned seat.old seat.new }
    ensures all { AllExpanded table.now.plan seat.new }
    ensures past { result ≡ false → IsPast (net_of table.now.plan) wave seat.new }
    ensures drawn { (b : ℕ) → parts_held seat.old ≡ all_parts → HasDrawn wave b seat.old → HasDrawn wave (b + 1) seat.new }
    ensures worked { result ≡ false → parts_held seat.old ≡ all_parts → HasWorked table.now wave seat.new }
    ensures known { result ≡ false → parts_held seat.old ≡ all_parts → HasDrawnBelow (net_of table.now.plan) wave seat.old → KnowsTo (wave + 1) seat.new }
{
    let blocks = table.block_count(wave);
    let block = table.claim(seat, wave);
    if block >= blocks {
        return false;
    }
    expand_block(table, seat, wave, block);
    true
}
