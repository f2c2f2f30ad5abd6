//! Tasks and vertices by their names.
ghost use Rattle.std.specs.Prelude.{ℕ, MatchOption};
ghost use Rattle.drt_model.specs.declared.tasks.Task.{Task};
ghost use Rattle.drt_model.specs.declared.tasks.Vertex.{Vertex};
ghost use Rattle.drt_command_files.specs.Spots.{IsFirstNamed, IsSpot, NamesNone};

use drt_model::{Task, TaskSet, Vertex};

/// The places of the task and the vertex with these names.
pub fn spot_of(set: &TaskSet, task: &[u8], vertex: &[u8]) -> Option<(usize, usize)>
    ensures { MatchOption result (NamesNone task.now vertex.now set.now.tasks) (λ p. IsSpot set.now.tasks task.now vertex.now p.0 p.1) }
{
    let (k, of) = task_named(set.tasks(), task)?;
    let v = vertex_named(of.vertices.as_slice(), vertex)?;
    Some((k, v))
}

// The task with this name, and its place.
fn task_named<'a>(tasks: &'a [Task], name: &[u8]) -> Option<(usize, &'a Task)>
    ensures { MatchOption result ((k : ℕ) (t : Task) → ¬ IsFirstNamed (λ u. u.name) tasks.now name.now k t) (λ p. IsFirstNamed (λ u. u.name) tasks.now name.now p.0 p.1.now) }
{
    for (k, task) in tasks.iter().enumerate() {
        if task.name.as_slice() == name {
            return Some((k, task));
        }
    }
    None
}

// The place of the vertex with this name.
fn vertex_named(vertices: &[Vertex], name: &[u8]) -> Option<usize>
    ensures { MatchOption result
        ((v : ℕ) (w : Vertex) → ¬ IsFirstNamed (λ u. u.name) vertices.now name.now v w)
        (λ v. (w : Vertex) × IsFirstNamed (λ u. u.name) vertices.now name.now v w) }
{
    for (v, vertex) in vertices.iter().enumerate() {
        if vertex.name.as_slice() == name {
            return Some(v);
        }
    }
    None
}
