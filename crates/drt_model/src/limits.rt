//! The limits of a task set, as a test.
ghost use Rattle.std.specs.Prelude.{◌≡◌, ◌≢◌, ◌≤◌, ◌<◌, ◌⊎◌, ◌↔◌, All, AllPairs, IsTrue, IsSome, IfSome, length};
ghost use Rattle.drt_model.specs.Limits.{IsNameByte, IsName, IsTime, IsPriority, IsVertex, IsEdgeAmong, IsTask, IsVersion, IsTaskSet, AreInPriorityOrder, most_tasks, most_vertices};

use crate::row::Row;
use crate::tasks::{Edge, Task, TaskSet, Vertex};

/// The greatest time of a file, in ticks.
pub const MOST_TIME: u32 = 1_000_000;

/// The most vertices of a task.
pub const MOST_VERTICES: usize = 96;

/// The set of this version and these tasks; `None` exactly where they break a limit of that version.
pub fn task_set(version: u8, tasks: Row<Task>) -> Option<TaskSet>
    ensures kept { IfSome result (λ set. (set.version ≡ version) × (set.tasks ≡ tasks)) }
    ensures limits { IsSome result ↔ IsTaskSet version tasks }
{
    if is_task_set(version, tasks.as_slice()) {
        Some(TaskSet { version, tasks })
    } else {
        None
    }
}

fn is_task_set(version: u8, tasks: &[Task]) -> bool
    ensures { IsTrue result ↔ IsTaskSet version tasks.now }
{
    if !has_count(version, tasks) || !all_tasks(version, tasks) {
        return false;
    }
    are_distinct(tasks) && are_in_order(version, tasks)
}

// Whether no two tasks share a name or a priority.
fn are_distinct(tasks: &[Task]) -> bool
    ensures { IsTrue result ↔ AllPairs (λ s t. s.name ≢ t.name) tasks.now × AllPairs (λ s t. s.priority ≢ t.priority) tasks.now }
{
    distinct_tasks(tasks) && distinct_priorities(tasks)
}

// Whether there is such a version, and it may have so many tasks.
fn has_count(version: u8, tasks: &[Task]) -> bool
    ensures { IsTrue result ↔ (IsVersion version × (1 ≤ length tasks.now) × (length tasks.now ≤ most_tasks version)) }
{
    is_version(version) && !tasks.is_empty() && tasks.len() <= most_tasks(version)
}

fn is_version(version: u8) -> bool
    ensures { IsTrue result ↔ IsVersion version }
{
    version == 1 || version == 2
}

/// The most tasks that a set of this version has.
pub fn most_tasks(version: u8) -> usize
    ensures { result ≡ most_tasks version }
{
    if version == 1 { 16 } else { 32 }
}

/// The most vertices that a task of a set of this version has.
pub fn most_vertices(version: u8) -> usize
    ensures { result ≡ most_vertices version }
{
    if version == 1 { 48 } else { 96 }
}

// Whether the tasks have the priorities 1, 2, .. in order, as version 1 demands.
fn are_in_order(version: u8, tasks: &[Task]) -> bool
    ensures { IsTrue result ↔ AreInPriorityOrder version tasks.now }
{
    if version != 1 {
        return true;
    }
    for (i, task) in tasks.iter().enumerate() {
        if task.priority as usize != i + 1 {
            return false;
        }
    }
    true
}

fn all_tasks(version: u8, tasks: &[Task]) -> bool
    ensures { IsTrue result ↔ All (IsTask version) tasks.now }
{
    tasks.iter().all(|task| is_task(version, task))
}

fn is_task(version: u8, task: &Task) -> bool
    ensures { IsTrue result ↔ IsTask version task.now }
{
    let vertices = task.vertices.as_slice();
    let edges = task.edges.as_slice();
    is_name(task.name.as_slice())
        && is_priority(task.priority)
        && !vertices.is_empty()
        && vertices.len() <= most_vertices(version)
        && all_vertices(vertices)
        && distinct_vertices(vertices)
        && edges.len() <= 256
        && all_edges(vertices.len(), edges)
        && distinct_edges(edges)
}

fn is_name(name: &[u8]) -> bool
    ensures { IsTrue result ↔ IsName name.now }
{
    !name.is_empty() && name.len() <= 32 && all_name_bytes(name)
}

fn all_name_bytes(name: &[u8]) -> bool
    ensures { IsTrue result ↔ All IsNameByte name.now }
{
    name.iter()
        .all(|b| b.is_ascii_alphanumeric() || *b == b'_' || *b == b'-')
}

fn is_time(t: u32) -> bool
    ensures { IsTrue result ↔ IsTime t }
{
    t >= 1 && t <= 1_000_000
}

fn is_priority(n: u32) -> bool
    ensures { IsTrue result ↔ IsPriority n }
{
    n >= 1 && n <= 1_000_000
}

fn all_vertices(vertices: &[Vertex]) -> bool
    ensures { IsTrue result ↔ All IsVertex vertices.now }
{
    vertices.iter().all(is_vertex)
}

fn is_vertex(vertex: &Vertex) -> bool
    ensures { IsTrue result ↔ IsVertex vertex.now }
{
    is_name(vertex.name.as_slice()) && is_time(vertex.wcet) && is_time(vertex.deadline)
}

fn all_edges(n: usize, edges: &[Edge]) -> bool
    ensures { IsTrue result ↔ All (IsEdgeAmong n) edges.now }
{
    edges.iter().all(|e| is_edge_among(n, *e))
}

fn is_edge_among(n: usize, e: Edge) -> bool
    ensures { IsTrue result ↔ IsEdgeAmong n e }
{
    (e.from as usize) < n && (e.to as usize) < n && is_time(e.sep)
}

fn distinct_edges(edges: &[Edge]) -> bool
    ensures { IsTrue result ↔ AllPairs (λ e f. e.from ≡ f.from → e.to ≢ f.to) edges.now }
{
    for j in 0..edges.len() {
        for i in 0..j {
            if edges[i].from == edges[j].from && edges[i].to == edges[j].to {
                return false;
            }
        }
    }
    true
}

fn distinct_vertices(vertices: &[Vertex]) -> bool
    ensures { IsTrue result ↔ AllPairs (λ u v. u.name ≢ v.name) vertices.now }
{
    for j in 0..vertices.len() {
        for i in 0..j {
            if vertices[i].name.as_slice() == vertices[j].name.as_slice() {
                return false;
            }
        }
    }
    true
}

fn distinct_tasks(tasks: &[Task]) -> bool
    ensures { IsTrue result ↔ AllPairs (λ s t. s.name ≢ t.name) tasks.now }
{
    for j in 0..tasks.len() {
        for i in 0..j {
            if tasks[i].name.as_slice() == tasks[j].name.as_slice() {
                return false;
            }
        }
    }
    true
}

fn distinct_priorities(tasks: &[Task]) -> bool
    ensures { IsTrue result ↔ AllPairs (λ s t. s.priority ≢ t.priority) tasks.now }
{
    for j in 0..tasks.len() {
        for i in 0..j {
            if tasks[i].priority == tasks[j].priority {
                return false;
            }
        }
    }
    true
}
