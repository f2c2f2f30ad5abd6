//! Printing a task set as its canonical text.
ghost use Rattle.std.specs.Prelude.{◌≡◌, ◌++◌, map, IfOk, OnErr, OnOk, length, take};
ghost use Rattle.std.specs.List.{flat_map, join_with_byte};
ghost use Rattle.drt_file.specs.trusted.Canonical.{
  canonical,
  written,
  written_line,
  name_at,
  priority_lines,
  lines_of_body,
  task_lines,
  vertex_line,
  edge_line,
};

use drt_model::{Edge, Row, Task, TaskSet, Vertex};
use itoa::Buffer;
use std::alloc::{AllocError as Memory, Global};

/// The canonical text of a set of either version: `drt VERSION`, each task with its name, in version
/// 2 its priority, its vertices and its edges, and `end`.
pub fn print(alloc: Global, set: &TaskSet) -> Result<Row<u8>, Memory>
    ensures { IfOk result (λ text. text ≡ canonical set.now) }
{
    let mut text = Vec::new(alloc);
    push_set(&mut text, set)?;
    Ok(Row::from_vec(text))
}

/// Adds the canonical text of a set to bytes.
pub fn push_set(text: &mut Vec<u8>, set: &TaskSet) -> Result<(), Memory>
    ensures { OnOk result (text.new.items ≡ text.old.items ++ canonical set.now) }
{
    let version = set.version();
    let mut number = Buffer::new();
    push_line(
        text,
        &[b"drt".as_slice(), number.format(version).as_bytes()],
    )?;
    push_tasks(text, version, set.tasks())?;
    push_line(text, &[b"end".as_slice()])
}

// Adds the lines of tasks.
fn push_tasks(text: &mut Vec<u8>, version: u8, tasks: &[Task]) -> Result<(), Memory>
    ensures { OnOk result (text.new.items ≡ text.old.items ++ written (flat_map (task_lines version) tasks.now)) }
{
    for task in tasks {
        push_task(text, version, task)?;
    }
    Ok(())
}

// Adds the lines of a task.
fn push_task(text: &mut Vec<u8>, version: u8, task: &Task) -> Result<(), Memory>
    ensures { OnOk result (text.new.items ≡ text.old.items ++ written (task_lines version task.now)) }
{
    push_line(text, &[b"task".as_slice(), task.name.as_slice()])?;
    push_priority(text, version, task)?;
    push_vertices(text, task.vertices.as_slice())?;
    push_edges(text, task.vertices.as_slice(), task.edges.as_slice())
}

// Adds the line of a task's priority, in version 2.
fn push_priority(text: &mut Vec<u8>, version: u8, task: &Task) -> Result<(), Memory>
    ensures { OnOk result (text.new.items ≡ text.old.items ++ written (priority_lines version task.now)) }
{
    if version != 2 {
        return Ok(());
    }
    let mut number = Buffer::new();
    push_line(
        text,
        &[
            b"priority".as_slice(),
            number.format(task.priority).as_bytes(),
        ],
    )
}

// Adds the lines of vertices.
fn push_vertices(text: &mut Vec<u8>, vertices: &[Vertex]) -> Result<(), Memory>
    ensures { OnOk result (text.new.items ≡ text.old.items ++ written (map vertex_line vertices.now)) }
{
    for vertex in vertices {
        push_vertex(text, vertex)?;
    }
    Ok(())
}

fn push_vertex(text: &mut Vec<u8>, vertex: &Vertex) -> Result<(), Memory>
    ensures { OnOk result (text.new.items ≡ text.old.items ++ written_line (vertex_line vertex.now)) }
{
    let mut wcet = Buffer::new();
    let mut deadline = Buffer::new();
    push_line(
        text,
        &[
            b"vertex".as_slice(),
            vertex.name.as_slice(),
            wcet.format(vertex.wcet).as_bytes(),
            deadline.format(vertex.deadline).as_bytes(),
        ],
    )
}

// Adds the lines of edges between these vertices.
fn push_edges(text: &mut Vec<u8>, vertices: &[Vertex], edges: &[Edge]) -> Result<(), Memory>
    ensures { OnOk result (text.new.items ≡ text.old.items ++ written (map (edge_line vertices.now) edges.now)) }
{
    for edge in edges {
        push_edge(text, vertices, *edge)?;
    }
    Ok(())
}

fn push_edge(text: &mut Vec<u8>, vertices: &[Vertex], edge: Edge) -> Result<(), Memory>
    ensures { OnOk result (text.new.items ≡ text.old.items ++ written_line (edge_line vertices.now edge)) }
{
    let mut sep = Buffer::new();
    push_line(
        text,
        &[
            b"edge".as_slice(),
            name_of(vertices, edge.from),
            name_of(vertices, edge.to),
            sep.format(edge.sep).as_bytes(),
        ],
    )
}

// The name of the vertex at a place, and no byte where none is there.
#[tactic(auto, unfolding(crate::specs::trusted::Canonical::name_at))]
fn name_of(vertices: &[Vertex], place: u32) -> &[u8]
    ensures { result.now ≡ name_at vertices.now place }
{
    match vertices.get(place as usize) {
        Some(vertex) => vertex.name.as_slice(),
        None => &[],
    }
}

// Adds fields, parted by one space; where memory is refused, some of these bytes.
fn add_words(text: &mut Vec<u8>, words: &[&[u8]]) -> Result<(), Memory>
    ensures words { OnOk result (text.new.items ≡ text.old.items ++ join_with_byte 32 (map (λ w. w.now) words.now)) }
    ensures kept { take (length text.old.items) text.new.items ≡ text.old.items }
{
    for (i, word) in words.iter().enumerate() {
        if i > 0 {
            text.push(b' ')?;
        }
        text.extend_from_slice(word)?;
    }
    Ok(())
}

// Adds a line of fields; where memory is refused, some of its bytes.
fn add_line(text: &mut Vec<u8>, words: &[&[u8]]) -> Result<(), Memory>
    ensures line { OnOk result (text.new.items ≡ text.old.items ++ written_line (map (λ w. w.now) words.now)) }
    ensures kept { take (length text.old.items) text.new.items ≡ text.old.items }
{
    add_words(text, words)?;
    text.push(b'\n')?;
    Ok(())
}

/// Adds fields, parted by one space. Where memory is refused the text stays as it was.
pub fn push_words(text: &mut Vec<u8>, words: &[&[u8]]) -> Result<(), Memory>
    ensures words { OnOk result (text.new.items ≡ text.old.items ++ join_with_byte 32 (map (λ w. w.now) words.now)) }
    ensures unchanged { OnErr result (text.new.items ≡ text.old.items) }
{
    let before = text.len();
    let added = add_words(text, words);
    if added.is_err() {
        text.truncate(before);
    }
    added
}

/// Adds a line of fields: the bytes of each, one space (32) between two, and a LF (10) behind the last.
///
/// No field is looked at, so that one with a space or a LF in it reads as several. The error says that
/// memory was refused; the text then stays as it was.
pub fn push_line(text: &mut Vec<u8>, words: &[&[u8]]) -> Result<(), Memory>
    ensures line { OnOk result (text.new.items ≡ text.old.items ++ written_line (map (λ w. w.now) words.now)) }
    ensures unchanged { OnErr result (text.new.items ≡ text.old.items) }
{
    let before = text.len();
    let added = add_line(text, words);
    if added.is_err() {
        text.truncate(before);
    }
    added
}
