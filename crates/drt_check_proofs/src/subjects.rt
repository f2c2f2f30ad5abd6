//! Whether there is a proof for each vertex of each task.
ghost use Rattle.std.specs.Prelude.{◌≡◌, ◌+◌, ◌≤◌, ◌↔◌, IsTrue, drop, length, map, take};
ghost use Rattle.std.specs.List.{range_with_len};
ghost use Rattle.drt_claims.specs.Proofs.{IsProofPerVertex};
ghost use Rattle.drt_check_proofs.specs.Subjects.{subject_of_proof};

use drt_claims::ProofClaim;
use drt_model::TaskSet;

/// Whether there is one proof per vertex of each task, in order of tasks and then of vertices. It takes no memory.
pub fn is_proof_per_vertex(set: &TaskSet, proofs: &[ProofClaim]) -> bool
    ensures { IsTrue result ↔ IsProofPerVertex set.now.tasks proofs.now }
{
    let tasks = set.tasks();
    let mut first = 0;
    'tasks: for k in 0..tasks.len() {
        let count = tasks[k].vertices.as_slice().len();
        if proofs.len() - first < count || !are_of_task(k, first, count, proofs) {
            return false;
        }
        first += count;
    }
    first == proofs.len()
}

// Whether so many of the proofs, from the first on, are those of the vertices 0, 1, .. of the task.
fn are_of_task(task: usize, first: usize, count: usize, proofs: &[ProofClaim]) -> bool
    requires { first + count ≤ length proofs.now }
    ensures { IsTrue result ↔ map subject_of_proof (take count (drop first proofs.now)) ≡ map (λ v. (task, v)) (range_with_len 0 count) }
{
    for v in 0..count {
        let proof = &proofs[first + v];
        if proof.task as usize != task || proof.vertex as usize != v {
            return false;
        }
    }
    true
}
