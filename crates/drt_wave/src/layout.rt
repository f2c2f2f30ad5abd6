//! Where the cells of a wave stand.
ghost use Rattle.std.specs.Prelude.{◌≡◌, ℕ, ◌*◌, ◌<◌, ◌≤◌};
ghost use Rattle.drt_wave.specs.Cells.{net_of, offsets, most_cells};

use crate::table::WaveTable;

/// How many cells a block has, the last one of a wave aside.
pub(crate) const BLOCK: u64 = 64;

impl WaveTable {
    /// The first offset of a wave.
    pub(crate) fn first_offset(&self, wave: u32) -> u64
        requires wave { wave < (net_of self.now.plan).waves }
        ensures value { result ≡ wave * self.now.plan.span }
        ensures within { result ≤ self.now.plan.bound }
    {
        wave as u64 * self.plan.span
    }

    /// How many offsets a wave has.
    pub(crate) fn offsets(&self, wave: u32) -> u64
        requires wave { wave < (net_of self.now.plan).waves }
        ensures value { result ≡ offsets self.now.plan wave }
        ensures some { 0 < result }
        ensures few { result ≤ most_cells }
        ensures first { wave * self.now.plan.span ≤ self.now.plan.bound }
        ensures bound { self.now.plan.bound < most_cells }
    {
        let first = self.first_offset(wave);
        self.plan.span.min(self.plan.width() - first)
    }

    /// How many cells a wave has.
    pub(crate) fn wave_size(&self, wave: u32) -> u64
        requires wave { wave < (net_of self.now.plan).waves }
        ensures value { result ≡ (net_of self.now.plan).size wave }
        ensures small { result ≤ most_cells }
    {
        self.plan.graph.vertex_count() as u64 * self.offsets(wave)
    }

    /// How many blocks a wave has.
    pub(crate) fn block_count(&self, wave: u32) -> u64
        requires wave { wave < (net_of self.now.plan).waves }
        ensures covers { (net_of self.now.plan).size wave ≤ result * 64 }
        ensures begins { (b : ℕ) → b < result → b * 64 < (net_of self.now.plan).size wave }
        ensures few { result ≤ 65536 }
    {
        (self.wave_size(wave) + (BLOCK - 1)) / BLOCK
    }

    /// How many cells a wave and those after it have.
    pub(crate) fn cells_from(&self, wave: u32) -> u64
        requires wave { wave < (net_of self.now.plan).waves }
        ensures { result ≤ most_cells }
    {
        self.plan.graph.vertex_count() as u64 * (self.plan.width() - self.first_offset(wave))
    }
}
