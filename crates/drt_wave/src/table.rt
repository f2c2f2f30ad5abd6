//! The table. Each step is taken by a seat, and none waits.
ghost use Rattle.std.specs.Prelude.{◌≡◌, ◌≢◌, ℕ, ◌+◌, ◌*◌, ◌/◌, ◌<◌, ◌≤◌, ◌⊎◌, [], length, IfOk, IfErr};
ghost use Rattle.drt_lock.specs.Rule.{all_parts};
ghost use Rattle.drt_model.specs.Digraph.{vertex_count};
ghost use Rattle.drt_wave.specs.Net.{Reached, IsGreatestReaching};
ghost use Rattle.drt_wave.specs.Cells.{net_of, cell_at, IsWavePlan, most_cells};
ghost use Rattle.drt_wave.specs.Tables.{AreLanes, AreOpened};
ghost use Rattle.drt_wave.specs.Ways.{AreWays};

use crate::claims::Claims;
use crate::dense::DenseFront;
use crate::lane::{Lane, LaneSeat};
use crate::opening::open_all;
use crate::plan::{Plan, make_plan};
use crate::seat::WaveSeat;
use crate::ways::{Way, make_ways};
use arrayvec::ArrayVec;
use drt_graph::Graph;
use drt_model::{Memory, Row};
use std::alloc::Global;

/// A table that is being worked: one cell for each vertex and offset, and one claim word for each wave.
///
/// The cells of a vertex are its lane, by offset: a row of words of its own, so that several workers may open them side by side. A wave spans
/// as many offsets as the plan says. Its cells, in order of vertices and then of offsets, stand in blocks of 64, the last block with what is
/// left.
#[derive(Drop)]
pub struct WaveTable {
    pub plan: Plan,
    pub(crate) claims: Claims,
    pub(crate) lanes: Row<Lane>,
    pub(crate) ways: Row<Row<Way>>,
    ghost planned: { IsWavePlan plan },
    ghost claimed: { claims.table.shared.table_id.words ≡ (net_of plan).waves },
    ghost laned: { AreLanes plan lanes },
    ghost followed: { AreWays plan ways },
}

impl WaveTable {
    ghost use Rattle.drt_wave.specs.Seats.{parts_held, draws_of, HasRaised, HasNoMore, KnowsTo, IsOfTable, HasRoomForLanes, IsSeatKept, Turned, IsSeatCut, IsGlued, HasClaimed, ExpandedTo};

    /// A table of the graph's walks up to a bound in ticks, with the seat that has every part.
    pub fn start(alloc: Global, graph: &Graph, bound: u64) -> Result<(WaveTable, WaveSeat), Memory>
        requires small { vertex_count graph.now * (bound + 1) ≤ most_cells }
        ensures graph { IfOk result (λ r. r.0.plan.graph ≡ graph.now) }
        ensures bound { IfOk result (λ r. r.0.plan.bound ≡ bound) }
        ensures seat { IfOk result (λ r. IsOfTable r.0 r.1) }
        ensures parts { IfOk result (λ r. parts_held r.1 ≡ all_parts) }
        ensures draws { IfOk result (λ r. draws_of r.1 ≡ []) }
        ensures raised { IfOk result (λ r. (v o x : ℕ) → HasRaised r.1 v o x → ⊥) }
        ensures known { IfOk result (λ r. KnowsTo 0 r.1) }
    {
        let plan = make_plan(alloc, graph, bound)?;
        let (lanes, seats) = open_all(alloc, &plan)?;
        WaveTable::of_lanes(alloc, plan, lanes, seats)
    }

    /// A table of a plan whose lanes are open.
    pub(crate) fn of_lanes(
        alloc: Global,
        plan: Plan,
        lanes: Vec<Lane>,
        seats: Vec<LaneSeat>,
    ) -> Result<(WaveTable, WaveSeat), Memory>
        requires planned { IsWavePlan plan }
        requires count { length lanes.items ≡ vertex_count plan.graph }
        requires opened { AreOpened plan 0 lanes.items seats.items }
        ensures plan { IfOk result (λ r. r.0.plan ≡ plan) }
        ensures seat { IfOk result (λ r. IsOfTable r.0 r.1) }
        ensures parts { IfOk result (λ r. parts_held r.1 ≡ all_parts) }
        ensures draws { IfOk result (λ r. draws_of r.1 ≡ []) }
        ensures raised { IfOk result (λ r. (v o x : ℕ) → HasRaised r.1 v o x → ⊥) }
        ensures known { IfOk result (λ r. KnowsTo 0 r.1) }
    {
        let ways = make_ways(alloc, &plan)?;
        let waves = plan.wave_count();
        let (claims, claim_seat) = Claims::start(alloc, waves)?;
        let table = WaveTable {
            plan,
            claims,
            lanes: Row::from_vec(lanes),
            ways,
        };
        let seat = WaveSeat {
            claims: claim_seat,
            lanes: seats,
        };
        Ok((table, seat))
    }

    /// Draws the next number of a wave, which stands for a block of its cells. Past the wave's end the seat also reads a cell of each lane:
    /// where it expanded each cell up to that wave, as the seat that has every part does by expanding what it draws, it knows the next wave as
    /// final then.
    pub fn claim(&self, seat: &mut WaveSeat, wave: u32) -> u64
        requires seat { IsOfTable self.now seat.old }
        requires parts { 0 < parts_held seat.old }
        requires wave { wave < (net_of self.now.plan).waves }
        ensures seat { IsOfTable self.now seat.new }
        ensures claimed { HasClaimed wave result seat.old seat.new }
        ensures turned { Turned seat.old seat.new }
        ensures same { HasNoMore seat.old seat.new }
        ensures known { (net_of self.now.plan).size wave ≤ result * 64 → ExpandedTo self.now.plan wave seat.old → KnowsTo (wave + 1) seat.new }
    {
        let number = self.claims.claim(&mut seat.claims, wave);
        if number >= self.block_count(wave) {
            self.look_along(seat, wave);
        }
        number
    }

    /// The same, but no cell is read past the wave's end.
    pub(crate) fn draw(&self, seat: &mut WaveSeat, wave: u32) -> u64
        requires seat { IsOfTable self.now seat.old }
        requires parts { 0 < parts_held seat.old }
        requires wave { wave < (net_of self.now.plan).waves }
        ensures seat { IsOfTable self.now seat.new }
        ensures claimed { HasClaimed wave result seat.old seat.new }
        ensures turned { Turned seat.old seat.new }
        ensures same { HasNoMore seat.old seat.new }
    {
        self.claims.claim(&mut seat.claims, wave)
    }

    /// Makes the cell of a vertex and an offset at least `work`, which is that of a walk that ends there.
    pub(crate) fn raise_at(&self, seat: &mut WaveSeat, vertex: u32, offset: u64, work: u64)
        requires seat { IsOfTable self.now seat.old }
        requires parts { 0 < parts_held seat.old }
        requires vertex { vertex < vertex_count self.now.plan.graph }
        requires offset { offset ≤ self.now.plan.bound }
        requires work { Reached (net_of self.now.plan) (cell_at self.now.plan vertex offset) work }
        ensures seat { IsOfTable self.now seat.new }
        ensures kept { IsSeatKept seat.old seat.new }
        ensures raised { HasRaised seat.new vertex offset work }
        ensures only { (v o x : ℕ) → HasRaised seat.new v o x → ((v ≡ vertex) × (o ≡ offset) × (x ≡ work)) ⊎ HasRaised seat.old v o x }
    {
        let lane = &self.lanes.as_slice()[vertex as usize];
        lane.raise(&mut seat.lanes[vertex as usize], offset, work);
    }

    /// Reads the cell of a vertex and an offset.
    pub(crate) fn glance_at(&self, seat: &mut WaveSeat, vertex: u32, offset: u64) -> u64
        requires seat { IsOfTable self.now seat.old }
        requires vertex { vertex < vertex_count self.now.plan.graph }
        requires offset { offset ≤ self.now.plan.bound }
        ensures seat { IsOfTable self.now seat.new }
        ensures kept { IsSeatKept seat.old seat.new }
        ensures same { HasNoMore seat.old seat.new }
        ensures opened { (net_of self.now.plan).opens (cell_at self.now.plan vertex offset) ≤ result }
        ensures own { (x : ℕ) → HasRaised seat.old vertex offset x → x ≤ result }
        ensures reached { result ≢ 0 → Reached (net_of self.now.plan) (cell_at self.now.plan vertex offset) result }
        ensures best { (k : ℕ) → KnowsTo k seat.old → offset / self.now.plan.span ≤ k → IsGreatestReaching (net_of self.now.plan) (cell_at self.now.plan vertex offset) result }
    {
        let lane = &self.lanes.as_slice()[vertex as usize];
        lane.glance(&mut seat.lanes[vertex as usize], offset)
    }

    /// Reads the first cell of a wave in each lane. A seat that expanded each cell up to the wave knows the next one as final then.
    pub(crate) fn look_along(&self, seat: &mut WaveSeat, wave: u32)
        requires seat { IsOfTable self.now seat.old }
        requires wave { wave < (net_of self.now.plan).waves }
        ensures seat { IsOfTable self.now seat.new }
        ensures kept { IsSeatKept seat.old seat.new }
        ensures same { HasNoMore seat.old seat.new }
        ensures known { ExpandedTo self.now.plan wave seat.old → KnowsTo (wave + 1) seat.new }
    {
        let first = self.first_offset(wave);
        let lanes = self.lanes.as_slice();
        'lanes: for v in 0..lanes.len() {
            lanes[v].glance(&mut seat.lanes[v], first);
        }
    }

    /// Room for a seat that is split off. The seats have no bytes, but it is asked for before a lock is taken.
    pub(crate) fn room(&self, alloc: Global) -> Result<Vec<LaneSeat>, Memory>
        ensures { IfOk result (λ room. HasRoomForLanes self.now room) }
    {
        Ok(Vec::with_capacity(alloc, self.lanes.as_slice().len())?)
    }

    /// A seat with one of the parts, for another worker.
    pub fn split(&self, alloc: Global, seat: &mut WaveSeat) -> Result<WaveSeat, Memory>
        requires seat { IsOfTable self.now seat.old }
        requires parts { 1 < parts_held seat.old }
        ensures cut { IfOk result (λ new. IsOfTable self.now seat.new × IsOfTable self.now new × IsSeatCut seat.old seat.new new) }
        ensures kept { IfErr result (λ e. seat.new ≡ seat.old) }
    {
        let room = self.room(alloc)?;
        Ok(self.split_into(seat, room))
    }

    /// The same, into room that was asked for before.
    pub(crate) fn split_into(&self, seat: &mut WaveSeat, room: Vec<LaneSeat>) -> WaveSeat
        requires seat { IsOfTable self.now seat.old }
        requires parts { 1 < parts_held seat.old }
        requires room { HasRoomForLanes self.now room }
        ensures seat { IsOfTable self.now seat.new }
        ensures new { IsOfTable self.now result }
        ensures cut { IsSeatCut seat.old seat.new result }
    {
        let lanes = self.lanes.as_slice();
        let mut cut = room;
        'lanes: for v in 0..lanes.len() {
            cut.push_reserved(lanes[v].split(&mut seat.lanes[v]));
        }
        WaveSeat {
            claims: self.claims.split(&mut seat.claims),
            lanes: cut,
        }
    }

    /// Takes in another seat.
    pub fn join(&self, seat: &mut WaveSeat, other: WaveSeat)
        requires seat { IsOfTable self.now seat.old }
        requires other { IsOfTable self.now other }
        requires parts { 0 < parts_held seat.old }
        ensures seat { IsOfTable self.now seat.new }
        ensures glued { IsGlued seat.old other seat.new }
    {
        let _room = self.join_back(seat, other);
    }

    /// Takes in another seat, and gives its room back.
    pub(crate) fn join_back(&self, seat: &mut WaveSeat, other: WaveSeat) -> Vec<LaneSeat>
        requires seat { IsOfTable self.now seat.old }
        requires other { IsOfTable self.now other }
        requires parts { 0 < parts_held seat.old }
        ensures seat { IsOfTable self.now seat.new }
        ensures glued { IsGlued seat.old other seat.new }
        ensures room { HasRoomForLanes self.now result }
    {
        let lanes = self.lanes.as_slice();
        let WaveSeat {
            claims,
            lanes: mut others,
        } = other;
        self.claims.join(&mut seat.claims, claims);
        'lanes: while let Some(lane_seat) = others.pop() {
            let v = others.len();
            lanes[v].join(&mut seat.lanes[v], lane_seat);
        }
        others
    }

    /// The greatest works. The seat knows every wave as final.
    pub fn close(self, seat: WaveSeat) -> DenseFront
        requires seat { IsOfTable self seat }
        requires known { (k : ℕ) × KnowsTo k seat × ((net_of self.plan).waves ≤ k + 1) }
        ensures { result.plan ≡ self.plan }
    {
        let WaveTable { plan, lanes, .. } = self;
        let WaveSeat {
            lanes: mut seats,
            ..
        } = seat;
        plan.graph.keep_limits();
        let mut lanes = lanes.into_vec();
        let mut columns = ArrayVec::new();
        'lanes: while let Some(lane) = lanes.pop() {
            let Some(lane_seat) = seats.pop() else {
                unreachable!()
            };
            columns.push(lane.close(lane_seat));
        }
        columns.as_mut_slice().reverse();
        DenseFront { plan, columns }
    }
}
