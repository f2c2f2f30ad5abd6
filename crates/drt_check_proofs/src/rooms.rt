//! What the times of proofs leave beside the execution times of their vertices.
ghost use Rattle.std.specs.Prelude.{◌≡◌, ◌↔◌, ◌++◌, [], ◌∷◌, IfOk, IsTrue, map};
ghost use Rattle.std.specs.List.{AllByRecursion};
ghost use Rattle.drt_model.specs.Digraph.{digraph_of};
ghost use Rattle.drt_model.specs.Walk.{deadline, wcet};
ghost use Rattle.drt_check_proofs.specs.Passing.{passing_times};
ghost use Rattle.drt_check_proofs.specs.Points.{IsTimely, make_mark, marks, marks_of, room};

use drt_claims::{Item, ProofClaim};
use drt_model::{Memory, Task};

/// Adds what the times of the proofs leave, if each is 1 or later, not past its vertex's deadline, and leaves something.
pub(crate) fn add_rooms(
    tasks: &[Task],
    proofs: &[ProofClaim],
    rooms: &mut Vec<u32>,
) -> Result<bool, Memory>
    ensures timely { IfOk result (λ are. IsTrue are ↔ AllByRecursion IsTimely (marks tasks.now proofs.now)) }
    ensures rooms { IfOk result (λ are. IsTrue are → rooms.new.items ≡ rooms.old.items ++ map room (marks tasks.now proofs.now)) }
{
    'proofs: for proof in proofs {
        if !add_proof(tasks, proof, rooms)? {
            return Ok(false);
        }
    }
    Ok(true)
}

fn add_proof(tasks: &[Task], proof: &ProofClaim, rooms: &mut Vec<u32>) -> Result<bool, Memory>
    ensures timely { IfOk result (λ are. IsTrue are ↔ AllByRecursion IsTimely (marks_of tasks.now proof.now)) }
    ensures rooms { IfOk result (λ are. IsTrue are → rooms.new.items ≡ rooms.old.items ++ map room (marks_of tasks.now proof.now)) }
{
    if proof.task as usize >= tasks.len() {
        return Ok(true);
    }
    let (wcet, deadline) = numbers(&tasks[proof.task as usize], proof.vertex);
    add_times(wcet, deadline, proof.items.as_slice(), rooms)
}

// The execution time and the deadline of a vertex, 0 past the last one.
fn numbers(task: &Task, vertex: u32) -> (u32, u32)
    ensures wcet { result.0 ≡ wcet (digraph_of task.now) vertex }
    ensures deadline { result.1 ≡ deadline (digraph_of task.now) vertex }
{
    let vertices = task.vertices.as_slice();
    if (vertex as usize) < vertices.len() {
        let at = &vertices[vertex as usize];
        (at.wcet, at.deadline)
    } else {
        (0, 0)
    }
}

fn add_times(wcet: u32, deadline: u32, items: &[Item], rooms: &mut Vec<u32>) -> Result<bool, Memory>
    ensures timely { IfOk result (λ are. IsTrue are ↔ AllByRecursion IsTimely (map (make_mark wcet deadline) (passing_times items.now))) }
    ensures rooms { IfOk result (λ are. IsTrue are → rooms.new.items ≡ rooms.old.items ++ map room (map (make_mark wcet deadline) (passing_times items.now))) }
{
    'items: for item in items {
        if !add_time(wcet, deadline, *item, rooms)? {
            return Ok(false);
        }
    }
    Ok(true)
}

#[tactic(auto, unfolding(crate::specs::Passing::passing_times))]
fn add_time(wcet: u32, deadline: u32, item: Item, rooms: &mut Vec<u32>) -> Result<bool, Memory>
    ensures timely { IfOk result (λ are. IsTrue are ↔ AllByRecursion IsTimely (map (make_mark wcet deadline) (passing_times (item ∷ [])))) }
    ensures rooms { IfOk result (λ are. IsTrue are → rooms.new.items ≡ rooms.old.items ++ map room (map (make_mark wcet deadline) (passing_times (item ∷ [])))) }
{
    match item {
        Item::Pass(time) => {
            if !is_timely(wcet, deadline, time) {
                return Ok(false);
            }
            rooms.push(time as u32 - wcet)?;
            Ok(true)
        }
        Item::Split(_) => Ok(true),
    }
}

fn is_timely(wcet: u32, deadline: u32, time: u64) -> bool
    ensures { IsTrue result ↔ IsTimely (make_mark wcet deadline time) }
{
    1 <= time && time <= deadline as u64 && wcet as u64 <= time
}
