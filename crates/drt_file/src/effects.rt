//! What a line without a fault adds to what the lines above leave.
ghost use Rattle.std.specs.Prelude.{◌≡◌, ◌++◌, ◌∷◌, [], None, Some, false, map, bytes_eq, IfOk, option_map};
ghost use Rattle.std.specs.List.{list_any};
ghost use Rattle.drt_file.specs.internal.StateFaults.{place_of_name, has_vertex, in_some_task, is_outside, kind_fault};
ghost use Rattle.drt_file.specs.internal.Parsed.{IsNew, after_line};
ghost use Rattle.drt_file.specs.internal.Reader.{own_vertices, joined_draft};
ghost use Rattle.drt_file.specs.internal.Steps.{
  after_task,
  after_end,
  on_current,
  with_vertex,
  with_edge,
  with_priority,
  after_kind,
  with_last,
  narrow,
  opening_priority,
  head,
};

use crate::name_table::NameTable;
use crate::parsing::count_tasks;
use crate::reader::Reader;
use crate::state::{Draft, Line, State, pushed};
use drt_model::{Edge, Memory, Name, Row, Vertex};
use std::alloc::Global;

/// The tasks so far, with the open one closed behind them.
#[tactic(auto, unfolding(crate::specs::internal::Steps::with_last))]
pub fn close(closed: Row<Draft>, current: Option<Draft>) -> Result<Row<Draft>, Memory>
    ensures { IfOk result (λ ds. ds ≡ with_last closed current) }
{
    match current {
        Some(d) => pushed(closed, d),
        None => Ok(closed),
    }
}

// The priority of a task that opens: in version 1 its number, counted from 1.
#[tactic(auto, unfolding(crate::specs::internal::Steps::opening_priority))]
fn opening_priority(s: &State) -> Option<u32>
    ensures { result ≡ opening_priority s.now }
{
    if s.version == 1 {
        Some(count_tasks(s).min(4_294_967_294) as u32 + 1)
    } else {
        None
    }
}

#[tactic(auto, unfolding(crate::specs::internal::Steps::after_task))]
fn task_opened(alloc: Global, n: u32, s: State, name: Name) -> Result<State, Memory>
    ensures { IfOk result (λ t. t ≡ after_task n s name) }
{
    let priority = opening_priority(&s);
    let State {
        version,
        closed,
        current,
        ended,
    } = s;
    let closed = close(closed, current)?;
    let draft = Draft {
        name,
        line: n,
        priority,
        vertices: Row::from_vec(Vec::new(alloc)),
        edges: Row::from_vec(Vec::new(alloc)),
    };
    Ok(State {
        version,
        closed,
        current: Some(draft),
        ended,
    })
}

// The task opened, and its name among these.
fn task_entered(
    alloc: Global,
    n: u32,
    s: State,
    mut names: NameTable,
    name: Name,
) -> Result<(State, NameTable), Memory>
    requires { list_any (λ k. bytes_eq k name) names ≡ false }
    ensures state { IfOk result (λ both. both.0 ≡ after_task n s name) }
    ensures names { IfOk result (λ both. both.1 ≡ names ++ name ∷ []) }
{
    match names.add_copy(alloc, name.as_slice()) {
        Ok(()) => Ok((task_opened(alloc, n, s, name)?, names)),
        Err(e) => {
            // One call, where the end of the scope would take the state apart here.
            drop(s);
            Err(e)
        }
    }
}

fn after_task(alloc: Global, n: u32, r: Reader, name: Name) -> Result<Reader, Memory>
    requires { in_some_task (λ d. bytes_eq d.name name) r ≡ false }
    ensures { IfOk result (λ t. t ≡ after_task n r name) }
{
    let Reader {
        state,
        tasks,
        mut vertices,
    } = r;
    let (state, tasks) = task_entered(alloc, n, state, tasks, name)?;
    vertices.clear();
    Ok(Reader {
        state,
        tasks,
        vertices,
    })
}

#[tactic(auto, unfolding(crate::specs::internal::Steps::with_vertex))]
fn vertex_added(current: Option<Draft>, v: Vertex) -> Result<Option<Draft>, Memory>
    ensures { IfOk result (λ d. d ≡ option_map (with_vertex v) current) }
{
    match current {
        Some(d) => {
            let Draft {
                name,
                line,
                priority,
                vertices,
                edges,
            } = d;
            let vertices = pushed(vertices, v)?;
            Ok(Some(Draft {
                name,
                line,
                priority,
                vertices,
                edges,
            }))
        }
        None => Ok(None),
    }
}

#[tactic(auto, unfolding(crate::specs::internal::Reader::joined_draft))]
fn edge_added(current: Option<Draft>, edge: Edge) -> Result<Option<Draft>, Memory>
    ensures { IfOk result (λ d. d ≡ option_map (joined_draft edge) current) }
{
    match current {
        Some(d) => {
            let Draft {
                name,
                line,
                priority,
                vertices,
                edges,
            } = d;
            let edges = pushed(edges, edge)?;
            Ok(Some(Draft {
                name,
                line,
                priority,
                vertices,
                edges,
            }))
        }
        None => Ok(None),
    }
}

#[tactic(auto, unfolding(crate::specs::internal::Steps::with_priority))]
fn priority_set(current: Option<Draft>, n: u32) -> Option<Draft>
    ensures { result ≡ option_map (with_priority n) current }
{
    match current {
        Some(mut d) => {
            d.priority = Some(n);
            Some(d)
        }
        None => None,
    }
}

#[tactic(auto, unfolding(crate::specs::internal::Steps::on_current))]
fn vertex_put(s: State, v: Vertex) -> Result<State, Memory>
    ensures { IfOk result (λ t. t ≡ on_current (with_vertex v) s) }
{
    let State {
        version,
        closed,
        current,
        ended,
    } = s;
    let current = vertex_added(current, v)?;
    Ok(State {
        version,
        closed,
        current,
        ended,
    })
}

// The vertex in the open task, and its name among these.
fn vertex_entered(
    alloc: Global,
    s: State,
    mut names: NameTable,
    v: Vertex,
) -> Result<(State, NameTable), Memory>
    requires { list_any (λ n. bytes_eq n v.name) names ≡ false }
    ensures state { IfOk result (λ both. both.0 ≡ on_current (with_vertex v) s) }
    ensures names { IfOk result (λ both. both.1 ≡ names ++ v.name ∷ []) }
{
    match names.add_copy(alloc, v.name.as_slice()) {
        Ok(()) => Ok((vertex_put(s, v)?, names)),
        Err(e) => {
            drop(s);
            Err(e)
        }
    }
}

fn after_vertex(alloc: Global, r: Reader, v: Vertex) -> Result<Reader, Memory>
    requires inside { is_outside r ≡ false }
    requires new { has_vertex v.name (own_vertices r) ≡ false }
    ensures { IfOk result (λ t. t ≡ on_current (with_vertex v) r) }
{
    let Reader {
        state,
        tasks,
        vertices,
    } = r;
    let (state, vertices) = vertex_entered(alloc, state, vertices, v)?;
    Ok(Reader {
        state,
        tasks,
        vertices,
    })
}

#[tactic(auto, unfolding(crate::specs::internal::Steps::on_current))]
fn edge_put(s: State, edge: Edge) -> Result<State, Memory>
    ensures { IfOk result (λ t. t ≡ on_current (joined_draft edge) s) }
{
    let State {
        version,
        closed,
        current,
        ended,
    } = s;
    let current = edge_added(current, edge)?;
    Ok(State {
        version,
        closed,
        current,
        ended,
    })
}

fn after_edge(r: Reader, edge: Edge) -> Result<Reader, Memory>
    ensures { IfOk result (λ t. t ≡ on_current (joined_draft edge) r) }
{
    let Reader {
        state,
        tasks,
        vertices,
    } = r;
    Ok(Reader {
        state: edge_put(state, edge)?,
        tasks,
        vertices,
    })
}

#[tactic(auto, unfolding(crate::specs::internal::Steps::on_current))]
fn priority_put(s: State, n: u32) -> State
    ensures { result ≡ on_current (with_priority n) s }
{
    let State {
        version,
        closed,
        current,
        ended,
    } = s;
    let current = priority_set(current, n);
    State {
        version,
        closed,
        current,
        ended,
    }
}

fn after_priority(r: Reader, n: u32) -> Reader
    ensures { result ≡ on_current (with_priority n) r }
{
    let Reader {
        state,
        tasks,
        vertices,
    } = r;
    Reader {
        state: priority_put(state, n),
        tasks,
        vertices,
    }
}

#[tactic(auto, unfolding(crate::specs::internal::Steps::after_end))]
fn end_put(s: State) -> State
    ensures { result ≡ after_end s }
{
    let State {
        version,
        closed,
        current,
        ..
    } = s;
    State {
        version,
        closed,
        current,
        ended: true,
    }
}

fn after_end(r: Reader) -> Reader
    ensures { result ≡ after_end r }
{
    let Reader {
        state,
        tasks,
        vertices,
    } = r;
    Reader {
        state: end_put(state),
        tasks,
        vertices,
    }
}

/// The state below a line that says this.
#[tactic(auto, unfolding(crate::specs::internal::Parsed::after_line, crate::specs::internal::Parsed::IsNew))]
pub fn after(alloc: Global, n: u32, r: Reader, line: Line) -> Result<Reader, Memory>
    requires { IsNew r line }
    ensures { IfOk result (λ t. t ≡ after_line n r line) }
{
    match line {
        Line::Task(name) => after_task(alloc, n, r, name),
        Line::Vertex(v) => after_vertex(alloc, r, v),
        Line::Edge(edge) => after_edge(r, edge),
        Line::Priority(number) => Ok(after_priority(r, number)),
        Line::End => Ok(after_end(r)),
    }
}

/// The state below the first line, where it is `drt 1` or `drt 2`.
#[tactic(auto, unfolding(crate::specs::internal::Steps::head))]
pub fn head(alloc: Global, words: &[&[u8]]) -> Option<Reader>
    ensures { result ≡ head (map (λ w. w.now) words.now) }
{
    match words {
        [word, version] => {
            if *word != b"drt".as_slice() {
                return None;
            }
            if *version == b"1".as_slice() {
                return Some(Reader::open(alloc, 1));
            }
            if *version == b"2".as_slice() {
                return Some(Reader::open(alloc, 2));
            }
            None
        }
        _ => None,
    }
}
