//! A wave, worked to its end by one seat.
ghost use Rattle.std.specs.Prelude.{◌≡◌, ◌+◌, ◌<◌, true};
ghost use Rattle.drt_lock.specs.Rule.{all_parts};
ghost use Rattle.drt_wave.specs.Cells.{net_of};
ghost use Rattle.drt_wave.specs.Seats.{parts_held, KnowsTo, IsOfTable, AllExpanded, HasDrawnBelow, Turned};
ghost use Rattle.drt_wave.specs.Shifts.{HasWorked};

use crate::expanding::turn;
use crate::seat::WaveSeat;
use crate::table::WaveTable;

/// Works a wave to its end, or what is left of it, by the seat that has every part, which then knows the next wave as final.
pub fn work_wave(table: &WaveTable, seat: &mut WaveSeat, wave: u32)
    requires seat { IsOfTable table.now seat.old }
    requires whole { parts_held seat.old ≡ all_parts }
    requires wave { wave < (net_of table.now.plan).waves }
    requires known { KnowsTo wave seat.old }
    requires all { AllExpanded table.now.plan seat.old }
    requires drawn { HasDrawnBelow (net_of table.now.plan) wave seat.old }
    ensures seat { IsOfTable table.now seat.new }
    ensures whole { parts_held seat.new ≡ all_parts }
    ensures all { AllExpanded table.now.plan seat.new }
    ensures drawn { HasDrawnBelow (net_of table.now.plan) (wave + 1) seat.new }
    ensures known { KnowsTo (wave + 1) seat.new }
{
    if !draw_wave(table, seat, wave) {
        table.look_along(seat, wave);
    }
}

// Draws all blocks of a wave, or what is left of them, and expands their cells. The last number is past the end. True where it was told so, as it
// is but after 2^64 draws, for a number is told modulo 2^64: then the seat knows the next wave as final.
fn draw_wave(table: &WaveTable, seat: &mut WaveSeat, wave: u32) -> bool
    requires seat { IsOfTable table.now seat.old }
    requires whole { parts_held seat.old ≡ all_parts }
    requires wave { wave < (net_of table.now.plan).waves }
    requires known { KnowsTo wave seat.old }
    requires all { AllExpanded table.now.plan seat.old }
    requires drawn { HasDrawnBelow (net_of table.now.plan) wave seat.old }
    ensures seat { IsOfTable table.now seat.new }
    ensures turned { Turned seat.old seat.new }
    ensures all { AllExpanded table.now.plan seat.new }
    ensures worked { HasWorked table.now wave seat.new }
    ensures known { result ≡ true → KnowsTo (wave + 1) seat.new }
{
    let blocks = table.block_count(wave);
    'turns: for _block in 0..blocks {
        if !turn(table, seat, wave) {
            return true;
        }
    }
    !turn(table, seat, wave)
}
