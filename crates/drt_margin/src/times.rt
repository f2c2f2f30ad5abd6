//! Sets with another execution time of one vertex.
ghost use Rattle.std.specs.Prelude.{◌≡◌, ◌+◌, ◌-◌, ◌<◌, ◌≤◌, length, slice_index_or, slice_set};
ghost use Rattle.drt_model.specs.Contents.{Contents};
ghost use Rattle.drt_model.specs.Digraph.{no_vertex};
ghost use Rattle.drt_model.specs.Limits.{IsTaskSet, IsTime};
ghost use Rattle.drt_margin.specs.Margin.{IsVertexOf, deadline_at, plus_set, timed, timed_set, timed_task, timed_tasks, wcet_at};
ghost use Rattle.drt_model.specs.Numbers.{most_time};

use drt_model::{Row, Task, TaskSet, Vertex};
use std::alloc::Global;
use std::mem;

/// The execution time of this vertex of this task, in ticks.
pub fn wcet_of(set: &TaskSet, task: u32, vertex: u32) -> u32
    requires { IsVertexOf set.now.tasks task vertex }
    ensures value { result ≡ wcet_at set.now.tasks task vertex }
    ensures time { IsTime result }
{
    let tasks = set.tasks();
    let vertices = tasks[task as usize].vertices.as_slice();
    vertices[vertex as usize].wcet
}

/// The relative deadline of this vertex of this task, in ticks.
pub(crate) fn deadline_of(set: &TaskSet, task: u32, vertex: u32) -> u32
    requires { IsVertexOf set.now.tasks task vertex }
    ensures value { result ≡ deadline_at set.now.tasks task vertex }
    ensures time { IsTime result }
{
    let tasks = set.tasks();
    let vertices = tasks[task as usize].vertices.as_slice();
    vertices[vertex as usize].deadline
}

/// The set with this execution time of the vertex. It takes no memory.
pub fn with_wcet(alloc: Global, set: TaskSet, task: u32, vertex: u32, wcet: u32) -> TaskSet
    requires vertex { IsVertexOf set.tasks task vertex }
    requires time { IsTime wcet }
    ensures { result ≡ timed_set set task vertex wcet }
{
    let (version, old) = set.into_parts();
    let tasks = time_row(alloc, old, task, vertex, wcet);
    TaskSet { version, tasks }
}

/// The set with so many ticks more of the vertex. It takes no memory.
pub fn with_more(alloc: Global, set: TaskSet, task: u32, vertex: u32, add: u32) -> TaskSet
    requires vertex { IsVertexOf set.tasks task vertex }
    requires limit { wcet_at set.tasks task vertex + add ≤ most_time }
    ensures { result ≡ plus_set set task vertex add }
{
    let wcet = wcet_of(&set, task, vertex);
    with_wcet(alloc, set, task, vertex, wcet + add)
}

/// The set that this one is with so many ticks more. It takes no memory.
pub fn with_less(alloc: Global, set: TaskSet, task: u32, vertex: u32, less: u32) -> TaskSet
    requires vertex { IsVertexOf set.tasks task vertex }
    requires some { less < wcet_at set.tasks task vertex }
    ensures { (before : Contents) → set ≡ plus_set before task vertex less → result ≡ before }
{
    let wcet = wcet_of(&set, task, vertex);
    with_wcet(alloc, set, task, vertex, wcet - less)
}

// The tasks with this execution time of the vertex.
fn time_row(alloc: Global, tasks: Row<Task>, task: u32, vertex: u32, wcet: u32) -> Row<Task>
    requires { IsVertexOf tasks task vertex }
    ensures { result ≡ timed_tasks tasks task vertex wcet }
{
    let mut items = tasks.into_vec();
    time_tasks(alloc, items.as_mut_slice(), task, vertex, wcet);
    Row::from_vec(items)
}

// Gives the vertex this execution time.
fn time_tasks(alloc: Global, tasks: &mut [Task], task: u32, vertex: u32, wcet: u32)
    requires { IsVertexOf tasks.old task vertex }
    ensures { tasks.new ≡ timed_tasks tasks.old task vertex wcet }
{
    time_task(alloc, &mut tasks[task as usize], vertex, wcet);
}

// Gives the vertex of a task this execution time.
fn time_task(alloc: Global, task: &mut Task, vertex: u32, wcet: u32)
    requires { vertex < length task.old.vertices }
    ensures { task.new ≡ timed_task task.old vertex wcet }
{
    let vertices = mem::replace(&mut task.vertices, Row::from_vec(Vec::new(alloc)));
    let mut items = vertices.into_vec();
    time_vertex(items.as_mut_slice(), vertex, wcet);
    task.vertices = Row::from_vec(items);
}

// Gives one of some vertices this execution time.
fn time_vertex(vertices: &mut [Vertex], vertex: u32, wcet: u32)
    requires { vertex < length vertices.old }
    ensures { vertices.new ≡ slice_set vertices.old vertex (timed (slice_index_or vertices.old vertex no_vertex) wcet) }
{
    vertices[vertex as usize].wcet = wcet;
}
