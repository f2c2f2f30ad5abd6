//! The cells of one vertex, one for each offset, on words that threads share without a lock.
ghost use Rattle.std.specs.Prelude.{◌≡◌, ℕ, ◌+◌, ◌<◌, ◌≤◌, length, slice_index, IfOk};
ghost use Rattle.drt_lock.specs.Rule.{all_parts};
ghost use Rattle.drt_model.specs.Digraph.{vertex_count};
ghost use Rattle.drt_wave.specs.Net.{Reached};
ghost use Rattle.drt_wave.specs.Cells.{IsWavePlan, width};
ghost use Rattle.drt_wave.specs.Keys.{lane_net, lane_first, lane_count};
ghost use Rattle.drt_wave.specs.Lanes.{Settled, IsRead, fresh_lane, lane_left, lane_right, lane_joined, lane_raised, Learns};

use crate::column::Column;
use crate::plan::Plan;
use crate::rule::{Cut, Glance, Glue, LaneRule, Raise};
use crate::view::{LaneKey, LaneView};
use atomic_table::{Seat, Table};
use drt_model::Memory;
use std::alloc::Global;
use std::snapshot::Snapshot;

/// What a worker takes steps on a lane with. It has no bytes.
pub type LaneSeat = Seat<(), LaneView<LaneKey>>;

/// The cells of one vertex: at each offset the greatest work so far of the walks that end there.
#[derive(Drop)]
pub struct Lane {
    pub(crate) table: Table<(), LaneView<LaneKey>, LaneKey, LaneRule, Global>,
    ghost some: { 0 < table.shared.table_id.words },
    ghost counted: { table.shared.table_id.words ≡ lane_count table.shared.key },
    ghost no_slots: { table.shared.table_id.slots ≡ 0 },
}

impl Lane {
    ghost use Rattle.drt_wave.specs.Lane.{IsLane, IsLaneSeat, AreFinal};

    /// The lane of a vertex, whose cell at offset 0 is open where the vertex is due within the bound, with the seat that has every part. The
    /// words are as many as there are offsets, and zeros from the second one on: what the lane opens from.
    pub(crate) fn open(
        alloc: Global,
        plan: &Plan,
        vertex: u32,
        words: &mut [u64],
    ) -> Result<(Lane, LaneSeat), Memory>
        requires planned { IsWavePlan plan.now }
        requires vertex { vertex < vertex_count plan.now.graph }
        requires count { length words.old ≡ width plan.now }
        requires zeros { (k : ℕ) → 0 < k → slice_index words.old k ≡ 0 }
        ensures count { length words.new ≡ length words.old }
        ensures zeros { (k : ℕ) → 0 < k → slice_index words.new k ≡ 0 }
        ensures lane { IfOk result (λ r. IsLane plan.now vertex r.0) }
        ensures seat { IfOk result (λ r. IsLaneSeat r.0 r.1) }
        ensures fresh { IfOk result (λ r. r.1.me.0 ≡ fresh_lane r.0.table.shared.key all_parts) }
    {
        let task_vertex = plan.graph.vertex(vertex);
        words[0] = if task_vertex.deadline as u64 <= plan.bound {
            task_vertex.wcet as u64
        } else {
            0
        };
        let key = LaneKey {
            plan: Snapshot::of(plan),
            vertex,
        };
        let (table, seat) = Table::of_words(alloc, words, &key)?;
        Ok((Lane { table }, seat))
    }

    /// Makes the cell at an offset at least `work`, which is that of a walk that ends there.
    pub(crate) fn raise(&self, seat: &mut LaneSeat, offset: u64, work: u64)
        requires seat { IsLaneSeat self.now seat.old }
        requires parts { 0 < seat.old.me.0.parts }
        requires offset { offset < self.now.table.shared.table_id.words }
        requires work { Reached (lane_net self.now.table.shared.key) (lane_first self.now.table.shared.key + offset) work }
        ensures seat { IsLaneSeat self.now seat.new }
        ensures raised { seat.new.me.0 ≡ lane_raised seat.old.me.0 offset work }
    {
        self.table
            .shared
            .fetch_max::<Raise>(seat, offset as usize, work);
    }

    /// Reads the cell at an offset. A seat that passed on all that the cells up to that cell's wave have for the lane knows the next wave as
    /// final then.
    pub(crate) fn glance(&self, seat: &mut LaneSeat, offset: u64) -> u64
        requires seat { IsLaneSeat self.now seat.old }
        requires offset { offset < self.now.table.shared.table_id.words }
        ensures seat { IsLaneSeat self.now seat.new }
        ensures learned { Learns seat.old.me.0 seat.new.me.0 }
        ensures read { IsRead lane_net lane_first self.now.table.shared.key seat.old.me.0 offset result }
        ensures settled { Settled lane_net lane_first lane_count self.now.table.shared.key seat.old.me.0 ((lane_net self.now.table.shared.key).wave (lane_first self.now.table.shared.key + offset))
            → (lane_net self.now.table.shared.key).wave (lane_first self.now.table.shared.key + offset) + 1 ≤ seat.new.me.0.known }
    {
        self.table.shared.load::<Glance>(seat, offset as usize)
    }

    /// A seat with one of the parts.
    pub(crate) fn split(&self, seat: &mut LaneSeat) -> LaneSeat
        requires seat { IsLaneSeat self.now seat.old }
        requires parts { 1 < seat.old.me.0.parts }
        ensures seat { IsLaneSeat self.now seat.new }
        ensures new { IsLaneSeat self.now result }
        ensures left { seat.new.me.0 ≡ lane_left seat.old.me.0 }
        ensures right { result.me.0 ≡ lane_right seat.old.me.0 }
    {
        self.table.shared.split_seat::<Cut>(seat)
    }

    /// Takes in another seat.
    pub(crate) fn join(&self, seat: &mut LaneSeat, other: LaneSeat)
        requires seat { IsLaneSeat self.now seat.old }
        requires other { IsLaneSeat self.now other }
        requires parts { 0 < seat.old.me.0.parts }
        ensures seat { IsLaneSeat self.now seat.new }
        ensures joined { seat.new.me.0 ≡ lane_joined seat.old.me.0 other.me.0 }
    {
        self.table.shared.join_seat::<Glue>(seat, other);
    }

    /// The cells, once the seat knows the waves of all of them as final.
    pub(crate) fn close(self, seat: LaneSeat) -> Column
        requires seat { IsLaneSeat self seat }
        requires known { (o : ℕ) → o < self.table.shared.table_id.words → (lane_net self.table.shared.key).wave (lane_first self.table.shared.key + o) ≤ seat.me.0.known }
        ensures count { length result ≡ self.table.shared.table_id.words }
        ensures best { AreFinal self.table.shared.key result }
    {
        let Lane { table } = self;
        Column {
            closed: Some(table.close_with(seat)),
        }
    }
}
