//! The lanes of a table at its start, opened one after another or side by side.
ghost use Rattle.std.specs.Prelude.{◌≡◌, ◌<◌, ◌≤◌, length, IfOk};
ghost use Rattle.drt_lock.specs.Rule.{all_parts};
ghost use Rattle.drt_model.specs.Digraph.{vertex_count};
ghost use Rattle.drt_pool.specs.Turns.{EachPlace};
ghost use Rattle.drt_wave.specs.Cells.{IsWavePlan};
ghost use Rattle.drt_wave.specs.Tables.{AreOpened};
ghost use Rattle.drt_wave.specs.Openers.{IsOpener, HasLanes};
ghost use Rattle.drt_wave.specs.Lane.{IsLane, IsLaneSeat};
ghost use Rattle.drt_wave.specs.Lanes.{fresh_lane};

use crate::lane::{Lane, LaneSeat};
use crate::plan::Plan;
use drt_model::Memory;
use drt_pool::{EagerGate, Turn, Work, run_all};
use std::alloc::Global;
use std::sync::Wait;
use std::sync::atomic::{AtomicU64, Ordering};
use std::thread::Threads;

/// A lane, with the seat that has every part of it.
type Opened = (Lane, LaneSeat);

/// What a worker opened: a place for each vertex, with its lane where this worker opened it.
#[derive(Drop)]
pub(crate) struct Opener {
    // What lanes open from. None before the first lane, so that who opens none takes no memory for them.
    pub(crate) words: Vec<u64>,
    pub(crate) places: Vec<Option<Opened>>,
}

/// What those who open lanes share.
#[derive(Drop)]
struct Opening<'a> {
    alloc: Global,
    plan: &'a Plan,
    // The vertex whose lane is opened next. Who is slow opens fewer.
    next: AtomicU64,
    ghost planned: { IsWavePlan plan.now },
}

impl Work for Opening<'_> {
    type Pass = Opener;

    ghost fits = { λ opening place opener. IsOpener opening.plan.now opener };

    ghost ended = { λ opening place opener. Unit {0} };

    // A turn opens a lane. Where memory runs out no more are opened, and the caller finds out.
    fn turn<R: Wait>(&self, _rt: &R, opener: &mut Opener) -> Turn {
        let vertex = self.next.fetch_add(1, Ordering::SeqCst);
        if vertex >= self.plan.graph.vertex_count() as u64 {
            return Turn::Stop;
        }
        if opener.open(self.alloc, self.plan, vertex as u32) {
            Turn::More
        } else {
            Turn::Stop
        }
    }
}

// A place for each vertex, all of them empty.
fn empty_places(alloc: Global, plan: &Plan) -> Result<Vec<Option<Opened>>, Memory>
    ensures { IfOk result (λ places. HasLanes plan.now places.items) }
{
    let count = plan.graph.vertex_count() as usize;
    let mut places = Vec::with_capacity(alloc, count)?;
    'places: for _place in 0..count {
        places.push_reserved(None);
    }
    Ok(places)
}

impl Opener {
    // One that opened no lane.
    fn start(alloc: Global, plan: &Plan) -> Result<Opener, Memory>
        ensures { IfOk result (IsOpener plan.now) }
    {
        Ok(Opener {
            words: Vec::new(alloc),
            places: empty_places(alloc, plan)?,
        })
    }

    // Opens the lane of a vertex.
    fn make(&mut self, alloc: Global, plan: &Plan, vertex: u32) -> Result<Opened, Memory>
        requires planned { IsWavePlan plan.now }
        requires vertex { vertex < vertex_count plan.now.graph }
        requires opener { IsOpener plan.now self.old }
        ensures opener { IsOpener plan.now self.new }
        ensures lane { IfOk result (λ r. IsLane plan.now vertex r.0) }
        ensures seat { IfOk result (λ r. IsLaneSeat r.0 r.1) }
        ensures fresh { IfOk result (λ r. r.1.me.0 ≡ fresh_lane r.0.table.shared.key all_parts) }
    {
        if self.words.is_empty() {
            self.words = vec![in alloc; 0u64; plan.width() as usize]?;
        }
        Lane::open(alloc, plan, vertex, self.words.as_mut_slice())
    }

    // Opens the lane of a vertex and puts it in its place. False where memory ran out.
    fn open(&mut self, alloc: Global, plan: &Plan, vertex: u32) -> bool
        requires planned { IsWavePlan plan.now }
        requires vertex { vertex < vertex_count plan.now.graph }
        requires opener { IsOpener plan.now self.old }
        ensures { IsOpener plan.now self.new }
    {
        match self.make(alloc, plan, vertex) {
            Ok(opened) => {
                self.places[vertex as usize] = Some(opened);
                true
            }
            Err(_) => false,
        }
    }

    // The lane of a vertex, opened here where it isn't in its place.
    fn lane_at(&mut self, alloc: Global, plan: &Plan, vertex: u32) -> Result<Opened, Memory>
        requires planned { IsWavePlan plan.now }
        requires vertex { vertex < vertex_count plan.now.graph }
        requires opener { IsOpener plan.now self.old }
        ensures opener { IsOpener plan.now self.new }
        ensures lane { IfOk result (λ r. IsLane plan.now vertex r.0) }
        ensures seat { IfOk result (λ r. IsLaneSeat r.0 r.1) }
        ensures fresh { IfOk result (λ r. r.1.me.0 ≡ fresh_lane r.0.table.shared.key all_parts) }
    {
        match self.places[vertex as usize].take() {
            Some(opened) => Ok(opened),
            None => self.make(alloc, plan, vertex),
        }
    }

    // The lanes in order of vertices. Those that nobody opened are opened here.
    fn in_order(self, alloc: Global, plan: &Plan) -> Result<(Vec<Lane>, Vec<LaneSeat>), Memory>
        requires planned { IsWavePlan plan.now }
        requires opener { IsOpener plan.now self }
        ensures count { IfOk result (λ r. length r.0.items ≡ vertex_count plan.now.graph) }
        ensures opened { IfOk result (λ r. AreOpened plan.now 0 r.0.items r.1.items) }
    {
        let count = plan.graph.vertex_count();
        let mut opener = self;
        let mut lanes = Vec::with_capacity(alloc, count as usize)?;
        let mut seats = Vec::with_capacity(alloc, count as usize)?;
        'vertices: for vertex in 0..count {
            let (lane, seat) = opener.lane_at(alloc, plan, vertex)?;
            lanes.push_reserved(lane);
            seats.push_reserved(seat);
        }
        Ok((lanes, seats))
    }
}

/// The lanes of all vertices, with seats that have every part.
pub(crate) fn open_all(alloc: Global, plan: &Plan) -> Result<(Vec<Lane>, Vec<LaneSeat>), Memory>
    requires planned { IsWavePlan plan.now }
    ensures count { IfOk result (λ r. length r.0.items ≡ vertex_count plan.now.graph) }
    ensures opened { IfOk result (λ r. AreOpened plan.now 0 r.0.items r.1.items) }
{
    Opener::start(alloc, plan)?.in_order(alloc, plan)
}

// One for each worker, of whom none opened a lane.
fn start_openers(alloc: Global, plan: &Plan, workers: u32) -> Result<Vec<Opener>, Memory>
    ensures count { IfOk result (λ openers. length openers.items ≡ workers) }
    ensures each { IfOk result (λ openers. EachPlace (λ place opener. IsOpener plan.now opener) openers.items) }
{
    let mut openers = Vec::with_capacity(alloc, workers as usize)?;
    'workers: for _worker in 0..workers {
        let opener = Opener::start(alloc, plan)?;
        openers.push_reserved(opener);
    }
    Ok(openers)
}

// Puts the lanes that a worker opened to those of the others.
fn put_in(plan: &Plan, places: &mut Vec<Option<Opened>>, opener: Opener)
    requires places { HasLanes plan.now places.old.items }
    requires opener { IsOpener plan.now opener }
    ensures { HasLanes plan.now places.new.items }
{
    plan.graph.keep_limits();
    let mut opener = opener;
    'places: for v in 0..places.len() {
        match opener.places[v].take() {
            Some(opened) => places[v] = Some(opened),
            None => (),
        }
    }
}

// Puts what the workers opened together.
fn collect_lanes(
    alloc: Global,
    plan: &Plan,
    openers: Vec<Opener>,
) -> Result<(Vec<Lane>, Vec<LaneSeat>), Memory>
    requires planned { IsWavePlan plan.now }
    requires each { EachPlace (λ place opener. IsOpener plan.now opener) openers.items }
    ensures count { IfOk result (λ r. length r.0.items ≡ vertex_count plan.now.graph) }
    ensures opened { IfOk result (λ r. AreOpened plan.now 0 r.0.items r.1.items) }
{
    let mut all = Opener::start(alloc, plan)?;
    'openers: for opener in openers {
        put_in(plan, &mut all.places, opener);
    }
    all.in_order(alloc, plan)
}

/// The same, opened by several workers side by side. They begin at once, and a table's gate doesn't see their turns.
pub(crate) fn open_together<R: Threads + Wait + Sync>(
    rt: &R,
    alloc: Global,
    plan: &Plan,
    workers: u32,
) -> Result<(Vec<Lane>, Vec<LaneSeat>), Memory>
    requires planned { IsWavePlan plan.now }
    requires workers { workers ≤ 16 }
    ensures count { IfOk result (λ r. length r.0.items ≡ vertex_count plan.now.graph) }
    ensures opened { IfOk result (λ r. AreOpened plan.now 0 r.0.items r.1.items) }
{
    let mut openers = start_openers(alloc, plan, workers)?;
    let opening = Opening {
        alloc,
        plan,
        next: AtomicU64::new(0),
    };
    run_all(rt, &opening, openers.as_mut_slice(), &EagerGate);
    collect_lanes(alloc, plan, openers)
}
