//! How many workers a table has, and which waves they share.
ghost use Rattle.std.specs.Prelude.{◌≡◌, ◌<◌, ◌≤◌};
ghost use Rattle.drt_wave.specs.Cells.{net_of, IsWavePlan, most_cells};
ghost use Rattle.drt_wave.specs.Seats.{IsOfTable, IsSeatKept};

use crate::plan::Plan;
use crate::seat::WaveSeat;
use crate::table::WaveTable;
use drt_pool::Gate;
use std::thread::{Threads, available_parallelism};

// The load of a wave is how long it takes one worker, in the time that a cell with some work takes.

// What it takes to hand a wave out to workers and to have it back, as a load.
const HANDING: u64 = 512;

// What workers must spare the caller for them to begin, as a load: over twice what it takes them to.
const BEGINNING: u64 = 20_480;

// So many cells without any work take as long as one that has some.
const EMPTY: u64 = 8;

// Workers that begin at once share each wave of as many cells.
const WIDE: u64 = 8_192;

// A table of fewer cells is opened by one worker.
const LARGE: u64 = 524_288;

// How many cells of a wave are looked at to tell its load, and how many once more where workers would begin with it.
const FEW: u64 = 16;

const MANY: u64 = 64;

// After a look in vain as many waves go by without one as an eighth of those before.
const PAUSE: u32 = 8;

// A wave, as a whole of which its cells stand at fractions: 2^32.
const WHOLE: u64 = 4_294_967_296;

// Its golden section. The cells that are looked at stand at multiples of it, so that they keep no step with what repeats in the wave.
const GOLDEN: u64 = 2_654_435_769;

/// The workers of a table.
#[derive(Clone, Copy)]
pub(crate) struct Crew {
    /// How many there may be.
    pub(crate) count: u32,
    /// Whether all begin at once, since the gate may wait for another worker.
    pub(crate) begins_at_once: bool,
}

impl Crew {
    /// So many workers under a gate.
    pub(crate) fn new<G: Gate>(workers: u32, gate: &G) -> Crew
        ensures { result.count ≡ workers }
    {
        Crew {
            count: workers,
            begins_at_once: gate.alone() == 0,
        }
    }

    /// How many of them open a table: all where they begin at once, and else several only where the table is large and its waves may be shared, no
    /// more than there are processors. (Cells that others opened come slowly to one who works them alone.) To ask how many processors there are takes
    /// as long as to work a thousand cells.
    pub(crate) fn openers<R: Threads>(self, rt: &R, plan: &Plan) -> u32
        requires planned { IsWavePlan plan.now }
        requires some { 1 ≤ self.count }
        ensures { result ≤ self.count }
    {
        if self.begins_at_once {
            return self.count;
        }
        let cells = plan.cell_count();
        let waves = u64::from(plan.wave_count());
        if self.count <= 1 || cells < LARGE || !self.gains(cells / waves, waves) {
            return 1;
        }
        match available_parallelism(rt) {
            Ok(processors) => processors.get().min(self.count as usize) as u32,
            Err(_) => 1,
        }
    }

    // Whether it is worth it to share so many waves of this load: the workers spare one of them more of each than it takes to hand it out, and of
    // all together enough for them to begin.
    fn gains(self, load: u64, waves: u64) -> bool
        requires { 1 ≤ self.count }
    {
        let spared = (load - load / self.count as u64).saturating_sub(HANDING);
        spared > 0 && spared.saturating_mul(waves) >= BEGINNING
    }
}

/// Which waves of a table its crew shares.
#[derive(Drop)]
pub(crate) struct Sharing {
    crew: Crew,
    // Whether a wave was shared: workers begin with the first one that is.
    has_begun: bool,
    // The wave from which on cells are looked at again.
    next_look: u32,
}

impl Sharing {
    /// Of a table of which no wave is worked.
    pub(crate) fn new(crew: Crew) -> Sharing {
        Sharing {
            crew,
            has_begun: false,
            next_look: 0,
        }
    }

    /// Whether all workers begin at once.
    pub(crate) fn begins_at_once(&self) -> bool {
        self.crew.begins_at_once
    }

    /// Whether all workers work a wave, whose cells are final. Where they begin at once they work the first wave and each one of many cells. Else
    /// they work each one of which they spare the caller more than it takes to hand it out; and as long as they haven't begun, only where that is
    /// enough for them to begin, if the waves after this one are as it is.
    pub(crate) fn shares(&mut self, table: &WaveTable, seat: &mut WaveSeat, wave: u32) -> bool
        requires seat { IsOfTable table.now seat.old }
        requires wave { wave < (net_of table.now.plan).waves }
        ensures seat { IsOfTable table.now seat.new }
        ensures kept { IsSeatKept seat.old seat.new }
    {
        if self.crew.count <= 1 {
            return false;
        }
        let size = table.wave_size(wave);
        if self.crew.begins_at_once {
            return wave == 0 || size >= WIDE;
        }
        // The quickest test comes first, since there may be many narrow waves.
        if size <= HANDING {
            return false;
        }
        let pays = self.pays(table, seat, wave, size);
        self.has_begun = self.has_begun || pays;
        pays
    }

    // Whether it is worth it to share a wave of this size.
    fn pays(&mut self, table: &WaveTable, seat: &mut WaveSeat, wave: u32, size: u64) -> bool
        requires seat { IsOfTable table.now seat.old }
        requires wave { wave < (net_of table.now.plan).waves }
        requires some { 1 ≤ self.old.crew.count }
        ensures seat { IsOfTable table.now seat.new }
        ensures kept { IsSeatKept seat.old seat.new }
    {
        // So many waves as it is are left; where workers have begun any number will do.
        let waves = if self.has_begun {
            u64::MAX
        } else {
            table.cells_from(wave) / size.max(1)
        };
        // Where that is told by its size alone no cell is looked at.
        if self.crew.gains(size / EMPTY, waves) {
            return true;
        }
        if wave < self.next_look || !self.crew.gains(size, waves) {
            return false;
        }
        let pays = self.is_loaded(table, seat, wave, waves);
        if !pays && !self.has_begun {
            self.next_look = wave.saturating_add(wave / PAUSE + 1);
        }
        pays
    }

    // Whether it is worth it to share a wave by the load that its cells tell. Before workers begin, which they do once, more cells have to tell it.
    fn is_loaded(&self, table: &WaveTable, seat: &mut WaveSeat, wave: u32, waves: u64) -> bool
        requires seat { IsOfTable table.now seat.old }
        requires wave { wave < (net_of table.now.plan).waves }
        requires some { 1 ≤ self.now.crew.count }
        ensures seat { IsOfTable table.now seat.new }
        ensures kept { IsSeatKept seat.old seat.new }
    {
        if !self.crew.gains(load_of(table, seat, wave, FEW), waves) {
            return false;
        }
        if self.has_begun {
            return true;
        }
        self.crew.gains(load_of(table, seat, wave, MANY), waves)
    }
}

// The load of a wave whose cells are final, told by so many looks.
fn load_of(table: &WaveTable, seat: &mut WaveSeat, wave: u32, looks: u64) -> u64
    requires seat { IsOfTable table.now seat.old }
    requires wave { wave < (net_of table.now.plan).waves }
    requires looks { (1 ≤ looks) × (looks ≤ 64) }
    ensures seat { IsOfTable table.now seat.new }
    ensures kept { IsSeatKept seat.old seat.new }
    ensures load { result ≤ most_cells }
{
    let size = table.wave_size(wave);
    let width = table.offsets(wave);
    let first = table.first_offset(wave);
    let mut full = 0;
    // Not at the first cell, which has some work in the first wave of each table.
    'looks: for look in 0..looks {
        let number = (look + 1) * GOLDEN % WHOLE * size / WHOLE;
        let vertex = (number / width) as u32;
        if table.glance_at(seat, vertex, first + number % width) > 0 {
            full += 1;
        }
    }
    (full * size + (looks - full) * size / EMPTY) / looks
}
