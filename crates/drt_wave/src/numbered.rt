//! The steps on cells, by their numbers.
ghost use Rattle.std.specs.Prelude.{◌≡◌, ◌≢◌, ℕ, ◌/◌, ◌%◌, ◌<◌, ◌≤◌, ◌⊎◌};
ghost use Rattle.drt_wave.specs.Net.{Reached, IsGreatestReaching};
ghost use Rattle.drt_wave.specs.Cells.{net_of, width};

use crate::seat::WaveSeat;
use crate::table::WaveTable;

impl WaveTable {
    ghost use Rattle.drt_wave.specs.Seats.{parts_held, HasRaised, HasNoMore, KnowsTo, IsOfTable, IsSeatKept};

    /// Makes a cell at least `work`, which is that of a walk that ends at the cell's vertex and offset.
    pub fn raise(&self, seat: &mut WaveSeat, cell: u32, work: u64)
        requires seat { IsOfTable self.now seat.old }
        requires parts { 0 < parts_held seat.old }
        requires cell { cell < (net_of self.now.plan).cells }
        requires work { Reached (net_of self.now.plan) cell work }
        ensures seat { IsOfTable self.now seat.new }
        ensures kept { IsSeatKept seat.old seat.new }
        ensures raised { HasRaised seat.new (cell / width self.now.plan) (cell % width self.now.plan) work }
        ensures only { (v o x : ℕ) → HasRaised seat.new v o x → ((v ≡ cell / width self.now.plan) × (o ≡ cell % width self.now.plan) × (x ≡ work)) ⊎ HasRaised seat.old v o x }
    {
        let width = self.plan.bound + 1;
        self.raise_at(
            seat,
            (cell as u64 / width) as u32,
            cell as u64 % width,
            work,
        );
    }

    /// Reads a cell.
    pub fn glance(&self, seat: &mut WaveSeat, cell: u32) -> u64
        requires seat { IsOfTable self.now seat.old }
        requires cell { cell < (net_of self.now.plan).cells }
        ensures seat { IsOfTable self.now seat.new }
        ensures kept { IsSeatKept seat.old seat.new }
        ensures same { HasNoMore seat.old seat.new }
        ensures opened { (net_of self.now.plan).opens cell ≤ result }
        ensures own { (x : ℕ) → HasRaised seat.old (cell / width self.now.plan) (cell % width self.now.plan) x → x ≤ result }
        ensures reached { result ≢ 0 → Reached (net_of self.now.plan) cell result }
        ensures best { (k : ℕ) → KnowsTo k seat.old → (net_of self.now.plan).wave cell ≤ k → IsGreatestReaching (net_of self.now.plan) cell result }
    {
        let width = self.plan.bound + 1;
        self.glance_at(seat, (cell as u64 / width) as u32, cell as u64 % width)
    }
}
