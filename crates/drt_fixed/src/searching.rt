//! The searches of all vertices.
ghost use Rattle.std.specs.Prelude.{◌≡◌, ◌<◌, ◌≤◌, ◌↔◌, All, IfOk, IfSome, IsTrue, length};
ghost use Rattle.drt_claims.specs.Claims.{graphs_of};
ghost use Rattle.drt_check_states.specs.Curves.{HasRisingCurves};
ghost use Rattle.drt_check_states.specs.Places.{AreTasks};
ghost use Rattle.drt_fixed.specs.Answers.{IsOfStates};
ghost use Rattle.drt_fixed.specs.Searching.{IsFoundRefusal, IsSearchGiven};

use crate::looking::{Ahead, search_next};
use crate::releases::refusal;
use crate::tails::find_tails;
use crate::vertices::{Given, list_vertices};
use drt_accepted::Accepted;
use drt_check_states::find_crests;
use drt_check_trees::priority_order;
use drt_claims::Evidence;
use drt_crew::Crew;
use drt_graph::Graphs;
use drt_model::{Memory, Row};
use drt_pool::Gate;
use drt_sp_states::Searched;
use drt_states::{SearchClaim, TailClaim};
use std::sync::Wait;
use std::thread::Threads;

// What the searches of all vertices find.
#[derive(Drop)]
enum Found {
    // States for each vertex.
    Searches(Vec<SearchClaim>),
    // A no.
    Refusal(Evidence),
    // Nothing.
    Nothing,
}

/// The evidence of a yes by tails and states, or of a no, where one is found with the crew's budget of states for each vertex.
pub(crate) fn find_by_states<G: Gate, R: Threads + Wait + Sync>(
    crew: &Crew<'_, G, R>,
    set: &Accepted<'_>,
) -> Result<Option<Evidence>, Memory>
    ensures { IfOk result (λ found. IfSome found (IsOfStates set.now.tasks)) }
{
    let order = priority_order(crew.alloc, set.set())?;
    let order = order.as_slice();
    let graphs = set.graphs();
    if !are_tasks(graphs, order) {
        return Ok(None);
    }
    match find_tails(crew, graphs, order)? {
        Some(tails) => find_over(crew, set, order, tails),
        None => Ok(None),
    }
}

// Whether the numbers are those of tasks.
fn are_tasks(graphs: &Graphs, order: &[u32]) -> bool
    ensures { IsTrue result ↔ AreTasks graphs.now order.now }
{
    let count = graphs.count();
    order.iter().all(|task| *task < count)
}

// The evidence over these tails of the tasks, which stand in order of priority.
fn find_over<G: Gate, R: Threads + Wait + Sync>(
    crew: &Crew<'_, G, R>,
    set: &Accepted<'_>,
    order: &[u32],
    tails: Vec<TailClaim>,
) -> Result<Option<Evidence>, Memory>
    requires order { AreTasks (graphs_of set.now.tasks) order.now }
    requires tails { All HasRisingCurves tails.items }
    ensures { IfOk result (λ found. IfSome found (IsOfStates set.now.tasks)) }
{
    let crests = find_crests(crew.alloc, &tails)?;
    let given = Given {
        set,
        order,
        tails: &tails,
        crests: crests.as_slice(),
    };
    match search_all(crew, given)? {
        Found::Searches(searches) => Ok(Some(Evidence::FixedStates {
            tails: Row::from_vec(tails),
            searches: Row::from_vec(searches),
        })),
        Found::Refusal(evidence) => Ok(Some(evidence)),
        Found::Nothing => Ok(None),
    }
}

// The searches of all vertices, in order of tasks; the first vertex that fails, in order of priority, gives a no.
fn search_all<G: Gate, R: Threads + Wait + Sync>(
    crew: &Crew<'_, G, R>,
    given: Given<'_>,
) -> Result<Found, Memory>
    requires given { IsSearchGiven given }
    ensures { IfOk result (IsFoundRefusal given.entry.set.now.tasks) }
{
    let listed = list_vertices(crew.alloc, given)?;
    let vertices = listed.as_slice();
    let mut ahead = Ahead::none(crew.alloc);
    let mut all = Vec::new(crew.alloc);
    'vertices: for number in 0..vertices.len() {
        let vertex = vertices[number];
        match search_next(crew, given, vertices, number, &mut ahead)? {
            Searched::Passes(states) => all.push(SearchClaim {
                task: vertex.at.task,
                vertex: vertex.at.vertex,
                states,
            })?,
            Searched::Misses(walks) => {
                let evidence = refusal(crew.alloc, given, walks.as_slice(), vertex)?;
                return Ok(Found::Refusal(evidence));
            }
            Searched::Spent => return Ok(Found::Nothing),
        }
    }
    all.sort_by_key(|search: &SearchClaim| (search.task, search.vertex))?;
    Ok(Found::Searches(all))
}
