//! Responses that workers find ahead.
ghost use Rattle.std.specs.Prelude.{◌<◌, ◌≤◌, All, IfOk, IfSome, length};
ghost use denote.Param.Send.{IsSync};
ghost use Rattle.drt_response.specs.Answers.{IsResponseOf, IsResponseOfVertex};
ghost use Rattle.drt_response.specs.Subjects.{AreFound, IsResponseGiven, IsVertexAt};

use crate::by_states::respond_vertex;
use crate::subjects::{Given, VertexAt};
use drt_ahead::{largest_first, look_ahead, shared_size, take_found};
use drt_crew::Crew;
use drt_fixed::{ENOUGH_STATES, MOST_AHEAD};
use drt_model::Memory;
use drt_pool::Gate;
use drt_responses::Response;
use drt_states::SearchClaim;
use std::alloc::Global;
use std::sync::Wait;
use std::thread::Threads;

/// The responses that workers find side by side, each by one of them, where the searches of the analysis tell that it is worth it: those of
/// the most states first. Each stands at the number of its vertex, in order of the file. A search that finds none is the last one.
pub(crate) fn respond_ahead<G: Gate, R: Threads + Wait + Sync>(
    crew: &Crew<'_, G, R>,
    given: Given<'_>,
    searches: &[SearchClaim],
) -> Result<Vec<Option<Option<Response>>>, Memory>
    requires given { IsResponseGiven given }
    ensures { IfOk result (λ found. AreFound given.entry found.items) }
{
    let alloc = crew.alloc;
    let sizes = count_states(alloc, searches)?;
    let vertices = list_vertices(alloc, given)?;
    let enough = crew.gate.alone().min(ENOUGH_STATES);
    if shared_size(&sizes) < enough || sizes.len() != vertices.len() {
        return Ok(Vec::new(alloc));
    }
    let first = largest_first(alloc, &sizes)?;
    find_ahead(crew, given, &vertices, &first)
}

// The responses of vertices that workers find, begun in this order.
fn find_ahead<G: Gate, R: Threads + Wait + Sync>(
    crew: &Crew<'_, G, R>,
    given: Given<'_>,
    vertices: &[VertexAt],
    order: &[u32],
) -> Result<Vec<Option<Option<Response>>>, Memory>
    requires given { IsResponseGiven given }
    requires vertices { All (IsVertexAt given) vertices.now }
    requires order { All (λ i. i < length order.now) order.now }
    requires most { length order.now ≤ length vertices.now }
    ensures { IfOk result (λ found. AreFound given.entry found.items) }
{
    let alone = crew.with(crew.effort.alone().at_most(MOST_AHEAD));
    let alone = &alone;
    let job = move |place: u32| -> Result<Option<Response>, Memory>
        requires { IsSync R.row × IsSync G.row × IsResponseGiven given × All (IsVertexAt given) vertices.now × (place < length vertices.now) }
        ensures { IfOk result (λ found. IfSome found (IsResponseOf given.entry.set.now)) }
    { respond_vertex(alone, given, vertices[place as usize]) };
    look_ahead(crew, order, job, is_none)
}

fn is_none(response: &Option<Response>) -> bool {
    response.is_none()
}

/// Takes the response that is found at a place, where it is one of this vertex.
pub(crate) fn take_response(
    given: Given<'_>,
    at: VertexAt,
    place: usize,
    ahead: &mut Vec<Option<Option<Response>>>,
) -> Option<Response>
    requires { AreFound given ahead.old.items }
    ensures ahead { AreFound given.entry ahead.new.items }
    ensures response { IfSome result (IsResponseOfVertex given.entry.set.now at.task at.vertex) }
{
    match u32::try_from(place) {
        Ok(place) => of_vertex(given, at, take_found(ahead, place)),
        Err(_) => None,
    }
}

// The response that is found, where it is one of this vertex.
fn of_vertex(given: Given<'_>, at: VertexAt, found: Option<Option<Response>>) -> Option<Response>
    requires { IfSome found (λ response. IfSome response (IsResponseOf given.set.now)) }
    ensures { IfSome result (IsResponseOfVertex given.entry.set.now at.task at.vertex) }
{
    match found {
        Some(Some(response)) if response.task == at.task && response.vertex == at.vertex => {
            Some(response)
        }
        _ => None,
    }
}

// The vertices of all tasks, in order of the file.
fn list_vertices(alloc: Global, given: Given<'_>) -> Result<Vec<VertexAt>, Memory>
    requires { IsResponseGiven given }
    ensures { IfOk result (λ vertices. All (IsVertexAt given.entry) vertices.items) }
{
    let graphs = given.set.graphs();
    let mut vertices = Vec::new(alloc);
    'tasks: for task in 0..graphs.count() {
        add_vertices(given, task, &mut vertices)?;
    }
    Ok(vertices)
}

// Adds the vertices of a task.
fn add_vertices(given: Given<'_>, task: u32, vertices: &mut Vec<VertexAt>) -> Result<(), Memory>
    requires given { IsResponseGiven given }
    requires task { task < length given.set.now.tasks }
    requires before { All (IsVertexAt given) vertices.old.items }
    ensures { IfOk result (λ done. All (IsVertexAt given.entry) vertices.new.items) }
{
    let graphs = given.set.graphs();
    let graph = graphs.graph(task);
    'vertices: for vertex in 0..graph.vertex_count() {
        vertices.push(VertexAt { task, vertex })?;
    }
    Ok(())
}

// How many states each search has.
fn count_states(alloc: Global, searches: &[SearchClaim]) -> Result<Vec<u64>, Memory> {
    let mut counts = Vec::with_capacity(alloc, searches.len())?;
    for search in searches {
        counts.push(search.states.as_slice().len() as u64)?;
    }
    Ok(counts)
}
