//! The set of a number.
ghost use Rattle.std.specs.Prelude.{◌≡◌, ◌≤◌, ◌<◌, ◌+◌, ◌*◌, ◌∷◌, ◌++◌, IfOk, OnOk, decimal};
ghost use Rattle.drt_gen.specs.Draws.{state_after};
ghost use Rattle.drt_gen.specs.Generated.{all_drawn_edges, drawn_edges, drawn_period, drawn_sep, drawn_task, drawn_vertex, drawn_vertices, generated};

use crate::draws::Draws;
use drt_model::{Edge, Memory, Name, Row, Task, TaskSet, Vertex};
use itoa::Buffer;
use std::alloc::Global;

// How many tasks a set has, and how many vertices each of them.
const COUNT: u32 = 12;

// The periods among which each task draws its own, in ticks.
const PERIODS: [u32; 8] = [100, 120, 150, 200, 240, 300, 400, 600];

/// The set of a number, which has version 1: 12 tasks `t0` to `t11` of 12 vertices `v0` to `v11` each. A
/// task's separations are its period P or twice that, its deadlines are above P/2 and at most P, and its execution times are at
/// most P/15.
pub fn generate(alloc: Global, number: u64) -> Result<TaskSet, Memory>
    ensures { IfOk result (λ set. set ≡ generated number) }
{
    let tasks = draw_tasks(alloc, number)?;
    Ok(TaskSet { version: 1, tasks })
}

// The tasks of the set of a number.
fn draw_tasks(alloc: Global, number: u64) -> Result<Row<Task>, Memory>
    ensures { IfOk result (λ tasks. tasks ≡ (generated number).tasks) }
{
    let mut draws = Draws::new(number);
    let mut tasks = Vec::new(alloc);
    'tasks: for i in 0..COUNT {
        tasks.push(draw_task(alloc, &mut draws, i)?)?;
    }
    Ok(Row::from_vec(tasks))
}

// The task of this number: its period, then its vertices, then its edges.
fn draw_task(alloc: Global, draws: &mut Draws, number: u32) -> Result<Task, Memory>
    requires { number < 12 }
    ensures task { IfOk result (λ t. t ≡ drawn_task draws.old 0 number) }
    ensures state { OnOk result (draws.new ≡ state_after draws.old 61) }
{
    let period = PERIODS[draws.draw(8) as usize];
    let vertices = draw_vertices(alloc, draws, period)?;
    let edges = draw_edges(alloc, draws, period)?;
    Ok(Task {
        name: numbered(alloc, b't', number)?,
        priority: number + 1,
        vertices,
        edges,
    })
}

// The vertices of a task with this period.
fn draw_vertices(alloc: Global, draws: &mut Draws, period: u32) -> Result<Row<Vertex>, Memory>
    requires { 15 ≤ period }
    ensures vertices { IfOk result (λ vs. vs ≡ drawn_vertices period draws.old 0) }
    ensures state { OnOk result (draws.new ≡ state_after draws.old 24) }
{
    let mut vertices = Vec::new(alloc);
    'vertices: for j in 0..COUNT {
        vertices.push(draw_vertex(alloc, draws, period, j)?)?;
    }
    Ok(Row::from_vec(vertices))
}

// The vertex of this number of a task with this period: its execution time, then its deadline.
fn draw_vertex(alloc: Global, draws: &mut Draws, period: u32, number: u32) -> Result<Vertex, Memory>
    requires { 15 ≤ period }
    ensures vertex { IfOk result (λ v. v ≡ drawn_vertex period draws.old 0 number) }
    ensures state { OnOk result (draws.new ≡ state_after draws.old 2) }
{
    let wcet = 1 + draws.draw(period / 15);
    let deadline = period - draws.draw(period / 2);
    Ok(Vertex {
        name: numbered(alloc, b'v', number)?,
        wcet,
        deadline,
    })
}

// The edges of a task with this period.
fn draw_edges(alloc: Global, draws: &mut Draws, period: u32) -> Result<Row<Edge>, Memory>
    requires { period ≤ 600 }
    ensures edges { IfOk result (λ es. es ≡ all_drawn_edges period draws.old 0) }
    ensures state { OnOk result (draws.new ≡ state_after draws.old 36) }
{
    let mut edges = Vec::new(alloc);
    'edges: for j in 0..COUNT {
        push_edges(&mut edges, draws, period, j)?;
    }
    Ok(Row::from_vec(edges))
}

// Adds the edges out of a vertex: the one on the ring through all vertices, and the one to a drawn vertex, where that isn't the next on
// the ring.
fn push_edges(
    edges: &mut Vec<Edge>,
    draws: &mut Draws,
    period: u32,
    from: u32,
) -> Result<(), Memory>
    requires few { period ≤ 600 }
    requires within { from < 12 }
    ensures edges { OnOk result (edges.new.items ≡ edges.old.items ++ drawn_edges period draws.old 0 from) }
    ensures state { OnOk result (draws.new ≡ state_after draws.old 3) }
{
    let next = (from + 1) % COUNT;
    let sep = draw_sep(draws, period);
    edges.push(Edge {
        from,
        to: next,
        sep,
    })?;
    let to = draws.draw(COUNT);
    let sep = draw_sep(draws, period);
    if to != next {
        edges.push(Edge { from, to, sep })?;
    }
    Ok(())
}

// A separation: the period or twice the period.
fn draw_sep(draws: &mut Draws, period: u32) -> u32
    requires { period ≤ 600 }
    ensures value { result ≡ drawn_sep period draws.old 0 }
    ensures state { draws.new ≡ state_after draws.old 1 }
{
    period * (1 + draws.draw(2))
}

// The name of a letter and a number.
fn numbered(alloc: Global, letter: u8, number: u32) -> Result<Name, Memory>
    ensures { IfOk result (λ name. name ≡ letter ∷ decimal number) }
{
    let mut buffer = Buffer::new();
    let mut name = Vec::from_slice(alloc, &[letter])?;
    name.extend_from_slice(buffer.format(number).as_bytes())?;
    Ok(Name::from_vec(name))
}
