//! Searches of the vertex of the last task of a set, and what they find.
ghost use Rattle.std.specs.Prelude.{◌≤◌, ◌<◌, IfOk, IfSome, IsTrue, length};
ghost use Rattle.std.specs.List.{All};
ghost use Rattle.drt_check_states.specs.Curves.{HasRisingCurves};
ghost use Rattle.drt_check_states.specs.Places.{AreTasks};

use drt_check_states::find_crests;
use drt_crew::Crew;
use drt_effort::{Effort, MOST_BUDGET, MOST_WORKERS};
use drt_fixtures::{Shape, make_set};
use drt_graph::{Graph, Graphs, check};
use drt_model::{Memory, Row};
use drt_pool::EagerGate;
use drt_sp_states::{Responded, Searched, Subject, search_response, search_states};
use drt_states::{StateClaim, StateEnd, StateEntry, TailClaim};
use drt_tails::find_tail;
use std::alloc::Global;
use std::sync::Wait;
use std::test::Fail;
use std::thread::Threads;

/// A set whose last task has one vertex, the greatest time that its tails reach to, and the budget of a search.
#[derive(Clone, Copy)]
pub(crate) struct Case<'a> {
    pub shapes: &'a [Shape<'a>],
    pub bound: u64,
    pub budget: u64,
}

/// How a state ends.
#[derive(Clone, Copy)]
pub(crate) enum End<'a> {
    Passes(u64),
    Splits(u32, &'a [u32]),
}

/// A state: its entries (place, vertex, offset), its work and its end.
pub(crate) type State<'a> = (&'a [(u32, u32, u64)], u64, End<'a>);

/// Whether the search finds these states.
pub(crate) fn finds_states<R: Threads + Wait + Sync>(
    rt: &R,
    alloc: Global,
    case: Case<'_>,
    wanted: &[State<'_>],
) -> Result<bool, Fail> {
    match find_searched(rt, alloc, case)? {
        Searched::Passes(states) => Ok(are_states(states.as_slice(), wanted)),
        _ => Ok(false),
    }
}

/// Whether the search finds these walks.
pub(crate) fn finds_walks<R: Threads + Wait + Sync>(
    rt: &R,
    alloc: Global,
    case: Case<'_>,
    wanted: &[&[u32]],
) -> Result<bool, Fail> {
    match find_searched(rt, alloc, case)? {
        Searched::Misses(walks) => Ok(are_walks(walks.as_slice(), wanted)),
        _ => Ok(false),
    }
}

/// Whether the search spends its budget.
pub(crate) fn is_spent<R: Threads + Wait + Sync>(
    rt: &R,
    alloc: Global,
    case: Case<'_>,
) -> Result<bool, Fail> {
    match find_searched(rt, alloc, case)? {
        Searched::Spent => Ok(true),
        _ => Ok(false),
    }
}

/// The greatest response that is found, in ticks. None where the search finds none.
pub(crate) fn find_response<R: Threads + Wait + Sync>(
    rt: &R,
    alloc: Global,
    case: Case<'_>,
) -> Result<Option<u64>, Fail> {
    let Findings { responded, .. } = find(rt, alloc, case, 1)?;
    match responded {
        Responded::Reached { ticks, .. } => Ok(Some(ticks)),
        Responded::Spent => Ok(None),
    }
}

// What the search of states of the vertex of the last task finds.
fn find_searched<R: Threads + Wait + Sync>(
    rt: &R,
    alloc: Global,
    case: Case<'_>,
) -> Result<Searched, Fail> {
    let Findings { searched, .. } = find(rt, alloc, case, 1)?;
    Ok(searched)
}

// What the searches of the vertex of the last task find.
#[derive(Drop)]
struct Findings {
    searched: Searched,
    responded: Responded,
}

/// Whether the searches find the same by so many workers as by one.
pub(crate) fn find_alike<R: Threads + Wait + Sync>(
    rt: &R,
    alloc: Global,
    case: Case<'_>,
    workers: u32,
) -> Result<bool, Fail> {
    let alone = find(rt, alloc, case, 1)?;
    let together = find(rt, alloc, case, workers)?;
    Ok(
        is_same_search(&alone.searched, &together.searched)
            && is_same_response(&alone.responded, &together.responded),
    )
}

// What the searches of the vertex of the last task find by so many workers.
fn find<R: Threads + Wait + Sync>(
    rt: &R,
    alloc: Global,
    case: Case<'_>,
    workers: u32,
) -> Result<Findings, Fail> {
    let set = make_set(alloc, case.shapes)?.ok_or("within the limits")?;
    let graphs = check(alloc, &set)?;
    let effort = make_effort(workers, case.budget).ok_or("in range")?;
    let crew = Crew {
        rt,
        alloc,
        effort,
        gate: &EagerGate,
    };
    match search_last(&crew, &graphs, case.bound)? {
        Some(found) => Ok(found),
        None => Err("a task without tail".into()),
    }
}

// So many workers and steps, where both are in range.
fn make_effort(workers: u32, budget: u64) -> Option<Effort> {
    if workers < 1 || workers > MOST_WORKERS || budget < 1 || budget > u64::from(MOST_BUDGET) {
        return None;
    }
    Some(Effort::new(workers, budget))
}

// What the searches of vertex 0 of the last task find. None where there is none, or a task before it has no tail up to the bound.
fn search_last<R: Threads + Wait + Sync>(
    crew: &Crew<'_, EagerGate, R>,
    graphs: &Graphs,
    bound: u64,
) -> Result<Option<Findings>, Memory> {
    let count = graphs.count();
    if count < 1 || count > 4 || graphs.graph(count - 1).vertex_count() < 1 {
        return Ok(None);
    }
    let vertex = graphs.graph(count - 1).vertex(0);
    let job = Job {
        wcet: vertex.wcet,
        deadline: vertex.deadline,
        bound,
    };
    let order = &HIGHER[..count as usize - 1];
    if !is_within(job) || !are_tasks(graphs, order) {
        return Ok(None);
    }
    search_vertex(crew, graphs, order, job)
}

// The job of a vertex, and the greatest time that the tails of the tasks above it reach to.
#[derive(Clone, Copy)]
struct Job {
    wcet: u32,
    deadline: u32,
    bound: u64,
}

// The numbers of the first three tasks.
const HIGHER: [u32; 3] = [0, 1, 2];

fn is_within(job: Job) -> bool
    ensures wcet { IsTrue result → job.wcet ≤ 1000000 }
    ensures some { IsTrue result → 1 ≤ job.deadline }
    ensures deadline { IsTrue result → job.deadline ≤ 1000000 }
    ensures from { IsTrue result → 1 ≤ job.bound }
    ensures to { IsTrue result → job.bound ≤ 1000000 }
{
    let Job {
        wcet,
        deadline,
        bound,
    } = job;
    wcet <= 1000000 && 1 <= deadline && deadline <= 1000000 && 1 <= bound && bound <= 1000000
}

// Whether the numbers are those of tasks.
fn are_tasks(graphs: &Graphs, order: &[u32]) -> bool
    ensures { IsTrue result → AreTasks graphs.now order.now }
{
    for task in order {
        if *task >= graphs.count() {
            return false;
        }
    }
    true
}

fn search_vertex<R: Threads + Wait + Sync>(
    crew: &Crew<'_, EagerGate, R>,
    graphs: &Graphs,
    order: &[u32],
    job: Job,
) -> Result<Option<Findings>, Memory>
    requires order { AreTasks graphs.now order.now }
    requires few { length order.now ≤ 31 }
    requires wcet { job.wcet ≤ 1000000 }
    requires some { 1 ≤ job.deadline }
    requires most { job.deadline ≤ 1000000 }
    requires from { 1 ≤ job.bound }
    requires to { job.bound ≤ 1000000 }
{
    match find_tails(crew.alloc, graphs, order, job.bound)? {
        Some(tails) => {
            let crests = find_crests(crew.alloc, &tails)?;
            let subject = Subject {
                graphs,
                order,
                tails: &tails,
                crests: crests.as_slice(),
                wcet: job.wcet,
                deadline: job.deadline,
            };
            Ok(Some(Findings {
                searched: search_states(crew, subject)?,
                responded: search_response(crew, subject)?,
            }))
        }
        None => Ok(None),
    }
}

// The tails of these tasks up to the bound. None where a task has none.
fn find_tails(
    alloc: Global,
    graphs: &Graphs,
    order: &[u32],
    bound: u64,
) -> Result<Option<Vec<TailClaim>>, Memory>
    requires order { AreTasks graphs.now order.now }
    requires from { 1 ≤ bound }
    requires to { bound ≤ 1000000 }
    ensures { IfOk result (λ r. IfSome r (λ tails. All HasRisingCurves tails.items)) }
{
    let mut tails = Vec::new(alloc);
    for i in 0..order.len() {
        let Some(tail) = find_rising(alloc, graphs.graph(order[i]), bound)? else {
            return Ok(None);
        };
        tails.push(tail)?;
    }
    Ok(Some(tails))
}

fn find_rising(alloc: Global, graph: &Graph, bound: u64) -> Result<Option<TailClaim>, Memory>
    requires from { 1 ≤ bound }
    requires to { bound ≤ 1000000 }
    ensures { IfOk result (λ r. IfSome r HasRisingCurves) }
{
    find_tail(alloc, graph, bound, 1000000)
}

fn are_states(states: &[StateClaim], wanted: &[State<'_>]) -> bool {
    if states.len() != wanted.len() {
        return false;
    }
    for i in 0..states.len() {
        if !is_state(&states[i], wanted[i]) {
            return false;
        }
    }
    true
}

fn is_state(state: &StateClaim, wanted: State<'_>) -> bool {
    let (entries, work, end) = wanted;
    state.work == work && are_entries(state.entries.as_slice(), entries) && is_end(&state.end, end)
}

fn are_entries(entries: &[StateEntry], wanted: &[(u32, u32, u64)]) -> bool {
    if entries.len() != wanted.len() {
        return false;
    }
    for i in 0..entries.len() {
        let entry = entries[i];
        if (entry.place, entry.vertex, entry.offset) != wanted[i] {
            return false;
        }
    }
    true
}

fn is_end(end: &StateEnd, wanted: End<'_>) -> bool {
    match (end, wanted) {
        (StateEnd::Passes(time), End::Passes(wanted)) => *time == wanted,
        (StateEnd::Splits { place, children }, End::Splits(at, numbers)) => {
            *place == at && children.as_slice() == numbers
        }
        _ => false,
    }
}

fn are_walks(walks: &[Row<u32>], wanted: &[&[u32]]) -> bool {
    if walks.len() != wanted.len() {
        return false;
    }
    for i in 0..walks.len() {
        if walks[i].as_slice() != wanted[i] {
            return false;
        }
    }
    true
}

fn is_same_search(one: &Searched, other: &Searched) -> bool {
    match (one, other) {
        (Searched::Passes(one), Searched::Passes(other)) => {
            are_same_states(one.as_slice(), other.as_slice())
        }
        (Searched::Misses(one), Searched::Misses(other)) => {
            are_same_walks(one.as_slice(), other.as_slice())
        }
        _ => false,
    }
}

fn is_same_response(one: &Responded, other: &Responded) -> bool {
    match (one, other) {
        (
            Responded::Reached { ticks, walks },
            Responded::Reached {
                ticks: number,
                walks: others,
            },
        ) => *ticks == *number && are_same_walks(walks.as_slice(), others.as_slice()),
        (Responded::Spent, Responded::Spent) => true,
        _ => false,
    }
}

fn are_same_states(some: &[StateClaim], others: &[StateClaim]) -> bool {
    if some.len() != others.len() {
        return false;
    }
    for i in 0..some.len() {
        if !is_same_state(&some[i], &others[i]) {
            return false;
        }
    }
    true
}

fn is_same_state(one: &StateClaim, other: &StateClaim) -> bool {
    one.work == other.work
        && one.entries.as_slice() == other.entries.as_slice()
        && is_same_end(&one.end, &other.end)
}

fn is_same_end(one: &StateEnd, other: &StateEnd) -> bool {
    match (one, other) {
        (StateEnd::Passes(time), StateEnd::Passes(other)) => *time == *other,
        (
            StateEnd::Splits { place, children },
            StateEnd::Splits {
                place: at,
                children: numbers,
            },
        ) => *place == *at && children.as_slice() == numbers.as_slice(),
        _ => false,
    }
}

fn are_same_walks(some: &[Row<u32>], others: &[Row<u32>]) -> bool {
    if some.len() != others.len() {
        return false;
    }
    for i in 0..some.len() {
        if some[i].as_slice() != others[i].as_slice() {
            return false;
        }
    }
    true
}
