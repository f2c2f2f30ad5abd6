//! Searches of several tasks' walks, side by side and ahead of their turn.
ghost use Rattle.std.specs.Prelude.{◌≡◌, ℕ, ◌+◌, ◌<◌, ◌≤◌, All, IfOk, IfSome, List, length};
ghost use Rattle.drt_model.specs.Numbers.{most_time};
ghost use Rattle.drt_model.specs.Digraph.{Digraph};
ghost use Rattle.drt_check_trees.specs.Order.{IsOrder};
ghost use Rattle.drt_claims.specs.Claims.{graphs_of};
ghost use Rattle.drt_sp.specs.Searches.{AreEndsAhead, IsEndAt};

use crate::progress::Given;
use crate::trees::{SearchEnd, search_leaves};
use drt_ahead::{largest_first, look_ahead, take_found};
use drt_crew::Crew;
use drt_effort::Effort;
use drt_graph::Graph;
use drt_model::Memory;
use drt_pool::Gate;
use std::alloc::Global;
use std::sync::Wait;
use std::thread::Threads;

/// What a search must be reckoned to cost before it is worth a worker. A unit takes about ten nanoseconds, and to begin a worker as long as
/// ten thousand of them.
const WORTH: u64 = 50_000;

/// As many tasks as a set may have.
const MOST_TASKS: usize = 32;

/// What was found ahead: how the searches at some places of the order end, from this place on; or nothing where that isn't known.
#[derive(Drop)]
pub(crate) struct EndsAhead {
    pub(crate) from: usize,
    pub(crate) found: Vec<Option<SearchEnd>>,
}

impl EndsAhead {
    /// Nothing is found.
    pub(crate) fn nothing(alloc: Global) -> EndsAhead
        ensures { (gs : List Digraph) (order : List ℕ) (bound budget : ℕ) → AreEndsAhead gs order bound budget result }
    {
        EndsAhead {
            from: 0,
            found: Vec::new(alloc),
        }
    }

    // Whether nothing was looked for at this place or at a later one.
    fn ends_before(&self, place: usize) -> bool {
        place.saturating_sub(self.from) >= self.found.len()
    }

    /// Takes what was found at a place.
    pub(crate) fn take(&mut self, place: usize) -> Option<SearchEnd>
        ensures taken { (gs : List Digraph) (order : List ℕ) (bound budget : ℕ) → AreEndsAhead gs order bound budget self.old → IfSome result (IsEndAt gs order bound budget place) }
        ensures left { (gs : List Digraph) (order : List ℕ) (bound budget : ℕ) → AreEndsAhead gs order bound budget self.old → AreEndsAhead gs order bound budget self.new }
    {
        if place < self.from {
            return None;
        }
        match u32::try_from(place - self.from) {
            Ok(number) => take_found(&mut self.found, number),
            Err(_) => None,
        }
    }
}

/// Searches the walks of the tasks from this place of the order on ahead of their turn, each by one worker, the dearest first; but not
/// those of the last task, which has no tree. What was found before is kept where it goes on to this place.
///
/// The first time there are as many searches as workers: so what is done for nothing, where the analysis ends early, is done beside a search
/// that one worker makes too. After that there are all that are left. None are made where fewer than two of them are worth a worker;
/// the caller goes on by itself then. A search that spends its budget ends the analysis, so none behind it is begun.
///
/// A worker's table is dropped when its search ends; its leaves are kept until their tree is made, or the steps that spent the budget. So
/// what is in memory at once is the labels that the searches of all tasks keep, and a table for each worker.
pub(crate) fn search_ahead<G: Gate, R: Threads + Wait + Sync>(
    crew: &Crew<'_, G, R>,
    given: &Given<'_>,
    place: usize,
    bound: u64,
    ahead: EndsAhead,
) -> Result<EndsAhead, Memory>
    requires order { IsOrder given.now.set.now.tasks given.now.order.now }
    requires here { place + 1 < length given.now.order.now }
    requires bound { (1 ≤ bound) × (bound ≤ most_time) }
    requires ahead { AreEndsAhead (graphs_of given.now.set.now.tasks) given.now.order.now bound crew.now.effort.budget ahead }
    ensures { IfOk result (AreEndsAhead (graphs_of given.now.set.now.tasks) given.now.order.now bound crew.now.effort.budget) }
{
    let workers = crew.effort.workers();
    if workers < 2 || !ahead.ends_before(place) {
        return Ok(ahead);
    }
    let most = if ahead.found.is_empty() {
        workers as usize
    } else {
        MOST_TASKS
    };
    let count = most.min(MOST_TASKS).min(given.order.len() - 1 - place);
    let costs = reckon_all(crew.alloc, given, place, count, bound, crew.effort)?;
    if !are_worth(costs.as_slice()) {
        return Ok(ahead);
    }
    let begun = largest_first(crew.alloc, costs.as_slice())?;
    search_all(crew, given, place, bound, begun.as_slice())
}

// Searches the walks of the tasks at so many places from this one on, as workers get to them in this order.
fn search_all<G: Gate, R: Threads + Wait + Sync>(
    crew: &Crew<'_, G, R>,
    given: &Given<'_>,
    from: usize,
    bound: u64,
    begun: &[u32],
) -> Result<EndsAhead, Memory>
    requires order { IsOrder given.now.set.now.tasks given.now.order.now }
    requires here { from + length begun.now ≤ length given.now.order.now }
    requires bound { (1 ≤ bound) × (bound ≤ most_time) }
    requires begun { All (λ i. i < length begun.now) begun.now }
    ensures { IfOk result (AreEndsAhead (graphs_of given.now.set.now.tasks) given.now.order.now bound crew.now.effort.budget) }
{
    given.set.keep_limits();
    let alloc = crew.alloc;
    let effort = &crew.effort;
    let search = move |number: u32| -> Result<SearchEnd, Memory>
        requires { IsOrder given.now.set.now.tasks given.now.order.now × (from + number < length given.now.order.now) × (from + number < 32) × (1 ≤ bound) × (bound ≤ most_time) }
        ensures { IfOk result (IsEndAt (graphs_of given.entry.now.set.now.tasks) given.entry.now.order.now bound effort.entry.now.budget (from + number)) }
    { search_at(alloc, given, from + number as usize, bound, *effort) };
    let found = look_ahead(crew, begun, search, is_spent)?;
    Ok(EndsAhead { from, found })
}

// Searches the walks of the task at a place of the order, by one worker.
fn search_at(
    alloc: Global,
    given: &Given<'_>,
    place: usize,
    bound: u64,
    effort: Effort,
) -> Result<SearchEnd, Memory>
    requires order { IsOrder given.now.set.now.tasks given.now.order.now }
    requires here { place < length given.now.order.now }
    requires bound { (1 ≤ bound) × (bound ≤ most_time) }
    ensures { IfOk result (IsEndAt (graphs_of given.now.set.now.tasks) given.now.order.now bound effort.budget place) }
{
    let graphs = given.set.graphs();
    let graph = graphs.graph(given.order[place]);
    search_leaves(alloc, graph, bound, effort)
}

// Whether a search spent its budget: the analysis ends there at the latest.
fn is_spent(end: &SearchEnd) -> bool {
    match end {
        SearchEnd::Finished(_) => false,
        SearchEnd::Spent(_) => true,
    }
}

// What the searches of the tasks at so many places of the order from this one on are reckoned to cost.
fn reckon_all(
    alloc: Global,
    given: &Given<'_>,
    place: usize,
    count: usize,
    bound: u64,
    effort: Effort,
) -> Result<Vec<u64>, Memory>
    requires order { IsOrder given.now.set.now.tasks given.now.order.now }
    requires within { place + count ≤ length given.now.order.now }
    ensures count { IfOk result (λ costs. length costs.items ≡ count) }
{
    let graphs = given.set.graphs();
    let mut all = Vec::new(alloc);
    for number in 0..count {
        let graph = graphs.graph(given.order[place + number]);
        all.push(reckon(graph, bound, effort.budget()))?;
    }
    Ok(all)
}

// What the search of a graph's walks is reckoned to cost: its steps as if each vertex had one label in each least separation, until the bound
// comes or the budget is spent, times the jobs of the longest walk, since each label has the whole function of its own.
fn reckon(graph: &Graph, bound: u64, budget: u64) -> u64 {
    let mut sep = bound.max(1);
    let mut degree = 0;
    for vertex in 0..graph.vertex_count() {
        degree = degree.max(graph.out_degree(vertex));
        sep = sep.min(least_separation(graph, vertex, sep));
    }
    let round = u64::from(graph.vertex_count()).saturating_mul(u64::from(degree).saturating_add(2));
    let length = (bound / sep.max(1))
        .min(budget / round.max(1))
        .saturating_add(1);
    round.saturating_mul(length).saturating_mul(length)
}

// The least separation of the edges out of a vertex, or this number where none is less.
fn least_separation(graph: &Graph, vertex: u32, most: u64) -> u64
    requires { vertex < length graph.now.vertices }
{
    let mut least = most;
    for k in 0..graph.out_degree(vertex) {
        least = least.min(u64::from(graph.out_edge(vertex, k).sep));
    }
    least
}

// Whether two searches at least are worth a worker.
fn are_worth(costs: &[u64]) -> bool {
    costs.iter().filter(|cost| **cost >= WORTH).count() >= 2
}
