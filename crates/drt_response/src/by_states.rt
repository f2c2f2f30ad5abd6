//! The greatest response times of all vertices, by tails and states.
ghost use Rattle.std.specs.Prelude.{◌+◌, ◌<◌, IfOk, IfSome, IsTrue, length};
ghost use Rattle.drt_model.specs.declared.jobs.Policy.TheVariants.{Fixed};
ghost use Rattle.drt_model.specs.Digraph.{vertex_count};
ghost use Rattle.drt_model.specs.Schedulable.{Schedulable};
ghost use Rattle.drt_busy.specs.Choice.{graph_at};
ghost use Rattle.drt_fixed.specs.Answers.{IsDecision};
ghost use Rattle.drt_response.specs.Answers.{AreResponses, AreResponsesTo, IsResponseOfVertex, IsStatesResponse};
ghost use Rattle.drt_response.specs.Subjects.{AreFound, AreWorstAt, IsResponseGiven};
ghost use Rattle.drt_response.specs.Tails.{HaveTails};

use crate::ahead::{respond_ahead, take_response};
use crate::reaching::{FirstJob, reaching_releases};
use crate::subjects::{Given, VertexAt, subject_of};
use drt_accepted::Accepted;
use drt_busy::{releases_reach, response_decides};
use drt_check_states::find_crests;
use drt_check_trees::priority_order;
use drt_claims::Evidence;
use drt_crew::Crew;
use drt_fixed::decide_by_states;
use drt_model::{Memory, Row};
use drt_pool::Gate;
use drt_responses::Response;
use drt_sp::Answer;
use drt_sp_states::{Responded, search_response};
use drt_states::{SearchClaim, TailClaim};
use drt_states_laws::states_pass;
use std::alloc::Global;
use std::sync::Wait;
use std::thread::Threads;

/// What tails and states say of a set, with the crew's budget of states for each vertex: a response for each vertex of each task, in order
/// of the file, or a no with its evidence. They may find neither, and leave no trail then.
pub fn respond_by_states<G: Gate, R: Threads + Wait + Sync>(
    crew: &Crew<'_, G, R>,
    set: &Accepted<'_>,
) -> Result<Answer<Row<Response>, ()>, Memory>
    ensures { IfOk result (IsStatesResponse set.now) }
{
    match decide_by_states(crew, set)? {
        Some(evidence) => respond_decided(crew, set, evidence),
        None => Ok(Answer::Undecided(())),
    }
}

// What they say of a set that this evidence decides.
fn respond_decided<G: Gate, R: Threads + Wait + Sync>(
    crew: &Crew<'_, G, R>,
    set: &Accepted<'_>,
    evidence: Evidence,
) -> Result<Answer<Row<Response>, ()>, Memory>
    requires decision { IsDecision set.now evidence }
    ensures { IfOk result (IsStatesResponse set.now) }
{
    let found = match &evidence {
        Evidence::FixedStates { tails, searches } => {
            respond_over(crew, set, tails.as_slice(), searches.as_slice())?
        }
        Evidence::FixedNo { .. } => return Ok(Answer::Misses(evidence)),
        _ => None,
    };
    match found {
        Some(responses) => Ok(Answer::Meets(responses)),
        None => Ok(Answer::Undecided(())),
    }
}

// The responses of a schedulable set over these tails; none where a search finds nothing. The searches of the analysis tell how long those
// of the responses are.
fn respond_over<G: Gate, R: Threads + Wait + Sync>(
    crew: &Crew<'_, G, R>,
    set: &Accepted<'_>,
    tails: &[TailClaim],
    searches: &[SearchClaim],
) -> Result<Option<Row<Response>>, Memory>
    requires schedulable { Schedulable set.now.tasks Fixed }
    requires tails { HaveTails set.now.tasks tails.now }
    ensures { IfOk result (λ found. IfSome found (AreResponses set.now)) }
{
    let order = priority_order(crew.alloc, set.set())?;
    let crests = find_crests(crew.alloc, tails)?;
    let given = Given {
        set,
        order: order.as_slice(),
        tails,
        crests: crests.as_slice(),
    };
    respond_all(crew, given, searches)
}

// The responses of all vertices.
fn respond_all<G: Gate, R: Threads + Wait + Sync>(
    crew: &Crew<'_, G, R>,
    given: Given<'_>,
    searches: &[SearchClaim],
) -> Result<Option<Row<Response>>, Memory>
    requires given { IsResponseGiven given }
    ensures { IfOk result (λ found. IfSome found (AreResponses given.entry.set.now)) }
{
    let graphs = given.set.graphs();
    let mut ahead = respond_ahead(crew, given, searches)?;
    let mut responses = Vec::new(crew.alloc);
    'tasks: for task in 0..graphs.count() {
        if !respond_task(crew, given, task, &mut ahead, &mut responses)? {
            return Ok(None);
        }
    }
    Ok(Some(Row::from_vec(responses)))
}

// Adds the responses of the vertices of a task to those of the tasks before it. It answers whether all are found.
fn respond_task<G: Gate, R: Threads + Wait + Sync>(
    crew: &Crew<'_, G, R>,
    given: Given<'_>,
    task: u32,
    ahead: &mut Vec<Option<Option<Response>>>,
    responses: &mut Vec<Response>,
) -> Result<bool, Memory>
    requires given { IsResponseGiven given }
    requires task { task < length given.set.now.tasks }
    requires ahead { AreFound given ahead.old.items }
    requires before { AreResponsesTo given.set.now task 0 responses.old.items }
    ensures ahead { IfOk result (λ all. AreFound given.entry ahead.new.items) }
    ensures responses { IfOk result (λ all. IsTrue all → AreResponsesTo given.entry.set.now (task + 1) 0 responses.new.items) }
{
    let graphs = given.set.graphs();
    let graph = graphs.graph(task);
    'vertices: for vertex in 0..graph.vertex_count() {
        let at = VertexAt { task, vertex };
        match next_response(crew, given, at, responses.len(), ahead)? {
            Some(response) => responses.push(response)?,
            None => return Ok(false),
        }
    }
    Ok(true)
}

// The response of the vertex of this number: what is found ahead, or else what all workers find together.
fn next_response<G: Gate, R: Threads + Wait + Sync>(
    crew: &Crew<'_, G, R>,
    given: Given<'_>,
    at: VertexAt,
    number: usize,
    ahead: &mut Vec<Option<Option<Response>>>,
) -> Result<Option<Response>, Memory>
    requires given { IsResponseGiven given }
    requires task { at.task < length given.set.now.tasks }
    requires vertex { at.vertex < vertex_count (graph_at given.set.now.tasks at.task) }
    requires ahead { AreFound given ahead.old.items }
    ensures ahead { IfOk result (λ found. AreFound given.entry ahead.new.items) }
    ensures response { IfOk result (λ found. IfSome found (IsResponseOfVertex given.entry.set.now at.task at.vertex)) }
{
    match take_response(given, at, number, ahead) {
        Some(response) => Ok(Some(response)),
        None => respond_vertex(crew, given, at),
    }
}

/// The response of a vertex of a task, where its search finds one.
pub(crate) fn respond_vertex<G: Gate, R: Threads + Wait + Sync>(
    crew: &Crew<'_, G, R>,
    given: Given<'_>,
    at: VertexAt,
) -> Result<Option<Response>, Memory>
    requires given { IsResponseGiven given }
    requires task { at.task < length given.set.now.tasks }
    requires vertex { at.vertex < vertex_count (graph_at given.set.now.tasks at.task) }
    ensures { IfOk result (λ found. IfSome found (IsResponseOfVertex given.entry.set.now at.task at.vertex)) }
{
    let subject = subject_of(given, at);
    match search_response(crew, subject)? {
        Responded::Spent => Ok(None),
        Responded::Reached { ticks, walks } => {
            let response = response_of(crew.alloc, given, at, ticks, walks.as_slice())?;
            Ok(Some(response))
        }
    }
}

// The response of a vertex whose search ends with so many ticks and these walks.
fn response_of(
    alloc: Global,
    given: Given<'_>,
    at: VertexAt,
    ticks: u64,
    walks: &[Row<u32>],
) -> Result<Response, Memory>
    requires given { IsResponseGiven given }
    requires task { at.task < length given.set.now.tasks }
    requires vertex { at.vertex < vertex_count (graph_at given.set.now.tasks at.task) }
    requires worst { AreWorstAt given at ticks walks.now }
    ensures { IfOk result (IsResponseOfVertex given.entry.set.now at.task at.vertex) }
{
    states_pass();
    response_decides();
    releases_reach();
    given.set.keep_limits();
    let job = FirstJob {
        at,
        finish: ticks as u32,
    };
    let releases = reaching_releases(alloc, given.set, walks, job)?;
    Ok(Response {
        task: at.task,
        vertex: at.vertex,
        ticks,
        releases,
    })
}
