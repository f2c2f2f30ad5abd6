//! The digraphs of a classic set.
ghost use Rattle.std.specs.Prelude.{◌≡◌, ◌+◌, ◌<◌, ◌≤◌, ◌++◌, ◌∷◌, [], length, map, IfOk, OnOk};
ghost use Rattle.drt_model.specs.Constrained.{AreConstrained};
ghost use Rattle.drt_classic.specs.ClassicLimits.{IsClassicSet};
ghost use Rattle.drt_classic.specs.ClassicLegal.{next_frame};
ghost use Rattle.drt_classic.specs.Classics.{frames_of, frames_of_period, name_of};
ghost use Rattle.std.specs.List.{range_with_len};
ghost use Rattle.drt_classic.specs.Digraphs.{digraph_of_classic, digraphs_of, frame_edges, frames_after, tasks_from, frame_name, vertices_from};

use crate::classic::{Classic, ClassicSet, Frame, name_of};
use drt_model::{Edge, Memory, Name, Row, Task, TaskSet, Vertex};
use itoa::Buffer;
use std::alloc::Global;

/// The digraphs of a classic set, one a task, as a set of version 1: the vertices `f0`, `f1`, .. of a task
/// are its frames in order, and an edge leads from each frame to each that may come after it.
pub fn to_digraphs(alloc: Global, set: &ClassicSet) -> Result<TaskSet, Memory>
    ensures digraphs { IfOk result (λ digraphs. digraphs ≡ digraphs_of set.now) }
    ensures constrained { IfOk result (λ digraphs. AreConstrained digraphs.tasks) }
{
    let tasks = tasks_of(alloc, set.tasks())?;
    Ok(TaskSet { version: 1, tasks })
}

// The digraphs of tasks, with the priorities 1, 2, .. in order.
fn tasks_of(alloc: Global, tasks: &[Classic]) -> Result<Row<Task>, Memory>
    requires { IsClassicSet tasks.now }
    ensures { IfOk result (λ digraphs. digraphs ≡ tasks_from 1 tasks.now) }
{
    let mut digraphs = Vec::new(alloc);
    for (i, task) in tasks.iter().enumerate() {
        digraphs.push(digraph_of(alloc, i as u32 + 1, task)?)?;
    }
    Ok(Row::from_vec(digraphs))
}

// The digraph of a task, with this priority.
fn digraph_of(alloc: Global, priority: u32, task: &Classic) -> Result<Task, Memory>
    requires { length (frames_of task.now) ≤ 48 }
    ensures { IfOk result (λ digraph. digraph ≡ digraph_of_classic priority task.now) }
{
    let frames = frames_of(alloc, task)?;
    digraph_from(alloc, priority, task, frames.as_slice())
}

// The digraph of a task of these frames, with this priority.
fn digraph_from(
    alloc: Global,
    priority: u32,
    task: &Classic,
    frames: &[Frame],
) -> Result<Task, Memory>
    requires few { length frames.now ≤ 48 }
    requires own { frames.now ≡ frames_of task.now }
    ensures { IfOk result (λ digraph. digraph ≡ digraph_of_classic priority task.now) }
{
    let name = copy_name(alloc, task)?;
    let (vertices, edges) = graph_of(alloc, task, frames)?;
    Ok(Task {
        name,
        priority,
        vertices,
        edges,
    })
}

// The vertices and the edges of a task of these frames.
fn graph_of(
    alloc: Global,
    task: &Classic,
    frames: &[Frame],
) -> Result<(Row<Vertex>, Row<Edge>), Memory>
    requires few { length frames.now ≤ 48 }
    requires own { frames.now ≡ frames_of task.now }
    ensures vertices { IfOk result (λ both. both.0 ≡ vertices_from 0 frames.now) }
    ensures edges { IfOk result (λ both. both.1 ≡ frame_edges (frames_after task.now) 0 frames.now) }
{
    let vertices = vertices_of(alloc, frames)?;
    Ok((vertices, edges_of(alloc, task, frames)?))
}

// A copy of the name of a task.
fn copy_name(alloc: Global, task: &Classic) -> Result<Name, Memory>
    ensures { IfOk result (λ name. name ≡ name_of task.now) }
{
    Ok(Name::from_vec(Vec::from_slice(alloc, name_of(task))?))
}

// The frames of a task.
fn frames_of(alloc: Global, task: &Classic) -> Result<Vec<Frame>, Memory>
    ensures { IfOk result (λ frames. frames.items ≡ frames_of task.now) }
{
    match task {
        Classic::Sporadic { frame, .. } => Ok(Vec::from_slice(alloc, &[*frame])?),
        Classic::Multiframe {
            deadline,
            period,
            wcets,
            ..
        } => frames_of_period(alloc, *deadline, *period, wcets.as_slice()),
        Classic::Cyclic { frames, .. } | Classic::Free { frames, .. } => {
            Ok(Vec::from_slice(alloc, frames.as_slice())?)
        }
    }
}

// The frames of a multiframe task.
fn frames_of_period(
    alloc: Global,
    deadline: u32,
    period: u32,
    wcets: &[u32],
) -> Result<Vec<Frame>, Memory>
    ensures { IfOk result (λ frames. frames.items ≡ frames_of_period deadline period wcets.now) }
{
    let mut frames = Vec::new(alloc);
    for wcet in wcets {
        frames.push(Frame {
            wcet: *wcet,
            deadline,
            sep: period,
        })?;
    }
    Ok(frames)
}

// The name of the vertex of a frame.
fn vertex_name(alloc: Global, number: u32) -> Result<Name, Memory>
    ensures { IfOk result (λ name. name ≡ frame_name number) }
{
    let mut digits = Buffer::new();
    let mut name = Vec::from_slice(alloc, b"f")?;
    name.extend_from_slice(digits.format(number).as_bytes())?;
    Ok(Name::from_vec(name))
}

// A vertex for each frame.
fn vertices_of(alloc: Global, frames: &[Frame]) -> Result<Row<Vertex>, Memory>
    requires { length frames.now ≤ 48 }
    ensures { IfOk result (λ vertices. vertices ≡ vertices_from 0 frames.now) }
{
    let mut vertices = Vec::new(alloc);
    for (i, frame) in frames.iter().enumerate() {
        vertices.push(Vertex {
            name: vertex_name(alloc, i as u32)?,
            wcet: frame.wcet,
            deadline: frame.deadline,
        })?;
    }
    Ok(Row::from_vec(vertices))
}

// The edges of a task of these frames.
fn edges_of(alloc: Global, task: &Classic, frames: &[Frame]) -> Result<Row<Edge>, Memory>
    requires few { length frames.now ≤ 48 }
    requires own { frames.now ≡ frames_of task.now }
    ensures { IfOk result (λ edges. edges ≡ frame_edges (frames_after task.now) 0 frames.now) }
{
    let mut edges = Vec::new(alloc);
    for (i, frame) in frames.iter().enumerate() {
        let after = frames_after(alloc, task, i as u32)?;
        push_edges(&mut edges, i as u32, after.as_slice(), frame.sep)?;
    }
    Ok(Row::from_vec(edges))
}

// Adds an edge from a frame to each of these.
fn push_edges(edges: &mut Vec<Edge>, from: u32, after: &[u32], sep: u32) -> Result<(), Memory>
    ensures { OnOk result (edges.new.items ≡ edges.old.items ++ map (λ j. record { from = from; to = j; sep = sep }) after.now) }
{
    for to in after {
        edges.push(Edge { from, to: *to, sep })?;
    }
    Ok(())
}

// The frames that may come after a frame.
fn frames_after(alloc: Global, task: &Classic, i: u32) -> Result<Vec<u32>, Memory>
    requires few { length (frames_of task.now) ≤ 48 }
    requires within { i < length (frames_of task.now) }
    ensures { IfOk result (λ after. after.items ≡ frames_after task.now i) }
{
    match task {
        Classic::Sporadic { .. } => Ok(Vec::from_slice(alloc, &[0])?),
        Classic::Multiframe { wcets, .. } => only_next(alloc, wcets.as_slice().len(), i),
        Classic::Cyclic { frames, .. } => only_next(alloc, frames.as_slice().len(), i),
        Classic::Free { frames, .. } => first_numbers(alloc, frames.as_slice().len()),
    }
}

// The one frame that comes after frame i where frames go round.
fn only_next(alloc: Global, count: usize, i: u32) -> Result<Vec<u32>, Memory>
    requires few { count ≤ 48 }
    requires within { i < count }
    ensures { IfOk result (λ after. after.items ≡ next_frame count i ∷ []) }
{
    let next = if i as usize + 1 == count { 0 } else { i + 1 };
    Ok(Vec::from_slice(alloc, &[next])?)
}

// The numbers below `count`.
fn first_numbers(alloc: Global, count: usize) -> Result<Vec<u32>, Memory>
    requires { count ≤ 48 }
    ensures { IfOk result (λ numbers. numbers.items ≡ range_with_len 0 count) }
{
    let mut numbers = Vec::new(alloc);
    for i in 0..count {
        numbers.push(i as u32)?;
    }
    Ok(numbers)
}
