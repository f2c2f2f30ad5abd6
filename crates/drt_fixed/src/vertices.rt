//! The vertices to be searched, and the search of each.
ghost use Rattle.std.specs.Prelude.{◌≡◌, ◌<◌, ◌≤◌, All, IfOk, IfSome, length, take};
ghost use Rattle.drt_model.specs.Digraph.{vertex_count};
ghost use Rattle.drt_model.specs.Walk.{deadline};
ghost use Rattle.drt_check_states.specs.Places.{graphs_at};
ghost use Rattle.drt_sp_states.specs.Subjects.{IsStateSubject};
ghost use Rattle.drt_fixed.specs.Searching.{IsFoundVertex, IsSearchGiven, IsVertexPlaced, graphs_given};

use drt_accepted::Accepted;
use drt_crew::Crew;
use drt_graph::Graph;
use drt_model::{MOST_TIME, Memory, Row};
use drt_pool::Gate;
use drt_sp_states::{Searched, Subject, search_states};
use drt_states::{Jump, TailClaim};
use std::alloc::Global;
use std::sync::Wait;
use std::thread::Threads;

// The most tasks of higher priority.
const MOST_HIGHER: usize = 31;
/// What the searches of all vertices are over: the set, the tasks in order of priority, and the tails of all but the last one with their
/// greatest values.
#[derive(Clone, Copy)]
pub(crate) struct Given<'a> {
    pub set: &'a Accepted<'a>,
    pub order: &'a [u32],
    pub tails: &'a [TailClaim],
    pub crests: &'a [Row<Jump>],
}

/// A vertex of a task, by their numbers, and its deadline in ticks.
#[derive(Clone, Copy)]
pub(crate) struct VertexAt {
    pub task: u32,
    pub vertex: u32,
    pub deadline: u32,
}

/// A vertex of the task at a place of the order, and its execution time in ticks.
#[derive(Clone, Copy)]
pub(crate) struct PlacedVertex {
    pub place: usize,
    pub at: VertexAt,
    pub wcet: u32,
}

/// The vertices of all tasks, in order of priority.
pub(crate) fn list_vertices(alloc: Global, given: Given<'_>) -> Result<Vec<PlacedVertex>, Memory>
    requires { IsSearchGiven given }
    ensures { IfOk result (λ vertices. All (IsVertexPlaced given.entry) vertices.items) }
{
    let mut vertices = Vec::new(alloc);
    for place in 0..given.order.len() {
        add_vertices(given, place, &mut vertices)?;
    }
    Ok(vertices)
}

// Adds the vertices of the task at a place.
fn add_vertices(
    given: Given<'_>,
    place: usize,
    vertices: &mut Vec<PlacedVertex>,
) -> Result<(), Memory>
    requires given { IsSearchGiven given }
    requires place { place < length given.order.now }
    requires before { All (IsVertexPlaced given) vertices.old.items }
    ensures { IfOk result (λ done. All (IsVertexPlaced given.entry) vertices.new.items) }
{
    let task = given.order[place];
    let graphs = given.set.graphs();
    let graph = graphs.graph(task);
    for vertex in 0..graph.vertex_count() {
        vertices.push(placed_vertex(graph, place, task, vertex))?;
    }
    Ok(())
}

// A vertex of the graph of the task at a place.
fn placed_vertex(graph: &Graph, place: usize, task: u32, vertex: u32) -> PlacedVertex
    requires { vertex < vertex_count graph.now }
    ensures place { result.place ≡ place }
    ensures at { result.at ≡ record { task = task; vertex = vertex; deadline = deadline graph.now vertex } }
{
    let job = graph.vertex(vertex);
    let at = VertexAt {
        task,
        vertex,
        deadline: job.deadline,
    };
    let wcet = job.wcet;
    PlacedVertex { place, at, wcet }
}

/// The search of a vertex, which is within the limits of a set.
pub(crate) fn search_vertex<G: Gate, R: Threads + Wait + Sync>(
    crew: &Crew<'_, G, R>,
    given: Given<'_>,
    vertex: PlacedVertex,
) -> Result<Searched, Memory>
    requires given { IsSearchGiven given }
    requires vertex { IsVertexPlaced given vertex }
    ensures { IfOk result (IsFoundVertex given.entry vertex) }
{
    match subject_of(given, vertex) {
        Some(subject) => search_states(crew, subject),
        None => Ok(Searched::Spent),
    }
}

// What the search of a vertex is over. None where a number is past the limits of a set, which none is.
fn subject_of<'a>(given: Given<'a>, vertex: PlacedVertex) -> Option<Subject<'a>>
    requires given { IsSearchGiven given }
    requires vertex { IsVertexPlaced given vertex }
    ensures subject { IfSome result IsStateSubject }
    ensures graphs { IfSome result (λ s. graphs_at s.graphs.now s.order.now ≡ graphs_at (graphs_given given.entry) (take vertex.place given.entry.order.now)) }
{
    let PlacedVertex { place, at, wcet } = vertex;
    if place > given.tails.len() || place > given.crests.len() || place > MOST_HIGHER {
        return None;
    }
    if wcet > MOST_TIME || at.deadline == 0 || at.deadline > MOST_TIME {
        return None;
    }
    let graphs = given.set.graphs();
    Some(Subject {
        graphs,
        order: &given.order[..place],
        tails: &given.tails[..place],
        crests: &given.crests[..place],
        wcet,
        deadline: at.deadline,
    })
}
