//! The greatest response times of all vertices, by trees alone.
ghost use Rattle.std.specs.Prelude.{◌+◌, ◌<◌, length, IfOk, MatchOption};
ghost use Rattle.drt_sp.specs.Grown.{AreProvedTrees};
ghost use Rattle.drt_response.specs.Answers.{AreResponsesTo, IsResponseAnswer, IsUndecidedResponse};

use crate::answer::ResponseTrail;
use crate::subjects::VertexAt;
use crate::vertex::{VertexResponse, respond_vertex};
use drt_accepted::Accepted;
use drt_crew::Crew;
use drt_model::{Memory, Row};
use drt_pool::Gate;
use drt_responses::Response;
use drt_sp::{Answer, ProvedTrees, analyse_trees};
use std::sync::Wait;
use std::thread::Threads;

/// The exact worst response time of each vertex of a set that is schedulable under fixed priorities, in ticks, with releases that reach it;
/// or the no of the analysis. The workers search together for a response, and the gate sees each of their turns; they take part in the
/// analysis as there. Each search of the analysis, and each worker's part of a search for a response time, ends after the crew's budget of
/// steps at the latest.
///
/// Source: Stigge and Yi, "Combinatorial Abstraction Refinement for Feasibility Analysis" (RTSS 2013).
pub(crate) fn respond_by_trees<G: Gate, R: Threads + Wait + Sync>(
    crew: &Crew<'_, G, R>,
    set: &Accepted<'_>,
) -> Result<Answer<Row<Response>, ResponseTrail>, Memory>
    ensures { IfOk result (IsResponseAnswer set.now crew.now.effort.budget) }
{
    match analyse_trees(crew, set)? {
        Answer::Meets(trees) => respond_all(crew, set, &trees),
        Answer::Misses(evidence) => Ok(Answer::Misses(evidence)),
        Answer::Undecided(trail) => Ok(Answer::Undecided(ResponseTrail::Fixed(trail))),
    }
}

// The responses of all vertices of a set whose trees these are.
fn respond_all<G: Gate, R: Threads + Wait + Sync>(
    crew: &Crew<'_, G, R>,
    set: &Accepted<'_>,
    trees: &ProvedTrees,
) -> Result<Answer<Row<Response>, ResponseTrail>, Memory>
    requires trees { AreProvedTrees set.now trees.now }
    ensures { IfOk result (IsResponseAnswer set.now crew.now.effort.budget) }
{
    let graphs = set.graphs();
    let mut responses = Vec::new(crew.alloc);
    'tasks: for task in 0..graphs.count() {
        if let Some(trail) = respond_task(crew, set, trees, task, &mut responses)? {
            return Ok(Answer::Undecided(trail));
        }
    }
    Ok(Answer::Meets(Row::from_vec(responses)))
}

// Adds the responses of the vertices of a task to those of the tasks before it. A trail ends it.
fn respond_task<G: Gate, R: Threads + Wait + Sync>(
    crew: &Crew<'_, G, R>,
    set: &Accepted<'_>,
    trees: &ProvedTrees,
    task: u32,
    responses: &mut Vec<Response>,
) -> Result<Option<ResponseTrail>, Memory>
    requires trees { AreProvedTrees set.now trees.now }
    requires task { task < length set.now.tasks }
    requires before { AreResponsesTo set.now task 0 responses.old.items }
    ensures { IfOk result (λ trail. MatchOption trail (AreResponsesTo set.now (task + 1) 0 responses.new.items) (IsUndecidedResponse set.now crew.now.effort.budget)) }
{
    let graphs = set.graphs();
    let graph = graphs.graph(task);
    'vertices: for vertex in 0..graph.vertex_count() {
        match respond_vertex(crew, set, trees, VertexAt { task, vertex })? {
            VertexResponse::Reached(response) => responses.push(response)?,
            VertexResponse::Spent(taken) => {
                return Ok(Some(ResponseTrail::Search {
                    task,
                    vertex,
                    taken,
                }));
            }
        }
    }
    Ok(None)
}
