//! The numbers of vertices.
ghost use Rattle.std.specs.Prelude.{◌≡◌};
ghost use Rattle.drt_model.specs.Digraph.{digraph_of};
ghost use Rattle.drt_model.specs.Walk.{deadline, wcet};

use drt_model::Task;

/// The execution time and the deadline of a vertex, in ticks, and 0 past the last one.
pub(crate) fn numbers(task: &Task, vertex: u32) -> (u32, u32)
    ensures wcet { result.0 ≡ wcet (digraph_of task.now) vertex }
    ensures deadline { result.1 ≡ deadline (digraph_of task.now) vertex }
{
    let vertices = task.vertices.as_slice();
    if (vertex as usize) < vertices.len() {
        let at = &vertices[vertex as usize];
        (at.wcet, at.deadline)
    } else {
        (0, 0)
    }
}
