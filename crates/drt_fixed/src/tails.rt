//! The tails of the tasks that have tasks of lower priority.
ghost use Rattle.std.specs.Prelude.{◌≡◌, ◌<◌, All, IfOk, IfSome, length};
ghost use Rattle.drt_ahead.specs.Found.{AreThere};
ghost use Rattle.drt_check_states.specs.Curves.{HasRisingCurves};
ghost use Rattle.drt_check_states.specs.Places.{AreTasks};

use drt_ahead::{largest_first, look_ahead, shared_size, take_found};
use drt_crew::Crew;
use drt_effort::MOST_BUDGET;
use drt_graph::{Graph, Graphs};
use drt_model::{MOST_TIME, Memory};
use drt_pool::Gate;
use drt_states::TailClaim;
use drt_tails::{find_tail, latest_deadline};
use std::alloc::Global;
use std::sync::Wait;
use std::thread::Threads;

// How many steps a tail may take.
const MOST_STEPS: u64 = MOST_BUDGET as u64;
// The size of tails that it is worth threads to share.
const ENOUGH: u64 = 4_096;

/// The tails of the tasks in this order, from the highest priority on, but for the last one: each up to the greatest deadline of the
/// tasks behind it. None where one takes too many steps.
pub(crate) fn find_tails<G: Gate, R: Threads + Wait + Sync>(
    crew: &Crew<'_, G, R>,
    graphs: &Graphs,
    order: &[u32],
) -> Result<Option<Vec<TailClaim>>, Memory>
    requires { AreTasks graphs.now order.now }
    ensures { IfOk result (λ r. IfSome r (λ tails. All HasRisingCurves tails.items)) }
{
    let bounds = find_bounds(crew.alloc, graphs, order)?;
    let higher = &order[..order.len().saturating_sub(1)];
    let mut ahead = find_ahead(crew, graphs, higher, &bounds)?;
    gather_tails(crew.alloc, graphs, higher, &bounds, &mut ahead)
}

// The tails of the tasks in this order, over what is found ahead of them. None where one takes too many steps.
fn gather_tails(
    alloc: Global,
    graphs: &Graphs,
    higher: &[u32],
    bounds: &[u32],
    ahead: &mut Vec<Option<Option<TailClaim>>>,
) -> Result<Option<Vec<TailClaim>>, Memory>
    requires order { AreTasks graphs.now higher.now }
    requires ahead { AreThere (λ i tail. IfSome tail HasRisingCurves) ahead.old.items }
    ensures { IfOk result (λ r. IfSome r (λ tails. All HasRisingCurves tails.items)) }
{
    let mut tails = Vec::new(alloc);
    for i in 0..higher.len() {
        match next_tail(alloc, graphs, higher, bounds, i, ahead)? {
            Some(tail) => tails.push(tail)?,
            None => return Ok(None),
        }
    }
    Ok(Some(tails))
}

// The tails that workers find ahead, where that is worth it. The answer of a tail that takes too many steps is the last one.
fn find_ahead<G: Gate, R: Threads + Wait + Sync>(
    crew: &Crew<'_, G, R>,
    graphs: &Graphs,
    higher: &[u32],
    bounds: &[u32],
) -> Result<Vec<Option<Option<TailClaim>>>, Memory>
    requires { AreTasks graphs.now higher.now }
    ensures { IfOk result (λ found. AreThere (λ i tail. IfSome tail HasRisingCurves) found.items) }
{
    let alloc = crew.alloc;
    let sizes = find_sizes(alloc, graphs, higher, bounds)?;
    if shared_size(&sizes) < crew.gate.alone().min(ENOUGH) {
        return Ok(Vec::new(alloc));
    }
    let first = largest_first(alloc, &sizes)?;
    let job = move |place: u32| -> Result<Option<TailClaim>, Memory>
        requires { AreTasks graphs.now higher.now × (place < length higher.now) }
        ensures { IfOk result (λ tail. IfSome tail HasRisingCurves) }
    { tail_at(alloc, graphs, higher, bounds, place as usize) };
    look_ahead(crew, first.as_slice(), job, is_none)
}

fn is_none(tail: &Option<TailClaim>) -> bool {
    tail.is_none()
}

// The tail of the task at a place: what is found ahead, or else what is found now.
fn next_tail(
    alloc: Global,
    graphs: &Graphs,
    higher: &[u32],
    bounds: &[u32],
    place: usize,
    ahead: &mut Vec<Option<Option<TailClaim>>>,
) -> Result<Option<TailClaim>, Memory>
    requires order { AreTasks graphs.now higher.now }
    requires place { place < length higher.now }
    requires ahead { AreThere (λ i tail. IfSome tail HasRisingCurves) ahead.old.items }
    ensures ahead { IfOk result (λ r. AreThere (λ i tail. IfSome tail HasRisingCurves) ahead.new.items) }
    ensures rising { IfOk result (λ r. IfSome r HasRisingCurves) }
{
    match take_tail(ahead, place) {
        Some(tail) => Ok(tail),
        None => tail_at(alloc, graphs, higher, bounds, place),
    }
}

// Takes what is found at a place.
fn take_tail(ahead: &mut Vec<Option<Option<TailClaim>>>, place: usize) -> Option<Option<TailClaim>>
    requires { AreThere (λ i tail. IfSome tail HasRisingCurves) ahead.old.items }
    ensures ahead { AreThere (λ i tail. IfSome tail HasRisingCurves) ahead.new.items }
    ensures rising { IfSome result (λ tail. IfSome tail HasRisingCurves) }
{
    match u32::try_from(place) {
        Ok(place) => take_found(ahead, place),
        Err(_) => None,
    }
}

// The tail of the task at a place, up to the bound there. None where no task is of lower priority.
fn tail_at(
    alloc: Global,
    graphs: &Graphs,
    order: &[u32],
    bounds: &[u32],
    place: usize,
) -> Result<Option<TailClaim>, Memory>
    requires order { AreTasks graphs.now order.now }
    requires place { place < length order.now }
    ensures { IfOk result (λ r. IfSome r HasRisingCurves) }
{
    let bound = bounds.get(place).copied().unwrap_or(0);
    if bound == 0 || bound > MOST_TIME {
        return Ok(None);
    }
    let graph = graphs.graph(order[place]);
    find_tail(alloc, graph, u64::from(bound), MOST_STEPS)
}

// For each place the greatest deadline of the tasks behind it, 0 for the last one.
fn find_bounds(alloc: Global, graphs: &Graphs, order: &[u32]) -> Result<Vec<u32>, Memory>
    requires { AreTasks graphs.now order.now }
{
    let mut bounds = Vec::with_capacity(alloc, order.len())?;
    let mut bound = 0;
    for task in order.iter().rev() {
        bounds.push(bound)?;
        bound = bound.max(latest_deadline(graphs.graph(*task)));
    }
    bounds.reverse();
    Ok(bounds)
}

// How large the tail of the task at each place is reckoned to be.
fn find_sizes(
    alloc: Global,
    graphs: &Graphs,
    order: &[u32],
    bounds: &[u32],
) -> Result<Vec<u64>, Memory>
    requires { AreTasks graphs.now order.now }
    ensures { IfOk result (λ sizes. length sizes.items ≡ length order.now) }
{
    let mut sizes = Vec::with_capacity(alloc, order.len())?;
    for i in 0..order.len() {
        let bound = bounds.get(i).copied().unwrap_or(0);
        sizes.push(size_up_to(graphs.graph(order[i]), bound))?;
    }
    Ok(sizes)
}

// For each vertex as many steps as a walk of the least separations takes up to the bound.
fn size_up_to(graph: &Graph, bound: u32) -> u64 {
    let steps = match least_separation(graph) {
        Some(least) => u64::from(bound / least.max(1)),
        None => 0,
    };
    u64::from(graph.vertex_count()).saturating_mul(steps.saturating_add(1))
}

// The least separation of a graph's edges, where it has one.
fn least_separation(graph: &Graph) -> Option<u32> {
    let mut least: Option<u32> = None;
    for v in 0..graph.vertex_count() {
        for k in 0..graph.out_degree(v) {
            let sep = graph.out_edge(v, k).sep;
            least = Some(least.unwrap_or(sep).min(sep));
        }
    }
    least
}
