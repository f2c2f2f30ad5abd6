//! The vertices of one task.
ghost use Rattle.std.specs.Prelude.{◌≡◌, ℕ, ◌≤◌, ◌<◌, length, IfOk, IfSome};
ghost use Rattle.drt_model.specs.Digraph.{vertex_count};
ghost use Rattle.drt_model.specs.Walk.{deadline};
ghost use Rattle.drt_steps.specs.Time.{AreChosen};
ghost use Rattle.drt_sp.specs.Attempts.{AreGiven};
ghost use Rattle.drt_sp.specs.Items.{IsVertexProof};
ghost use Rattle.drt_sp.specs.Parts.{IsPosedVertex};
ghost use Rattle.drt_sp.specs.Vertices.{IsOutcome};

use crate::joints::take_at;
use crate::parts::{Ahead, prove_by_parts};
use crate::proving::{PosedVertex, VertexProof, prove_vertex};
use drt_claims::ProofClaim;
use drt_crew::Crew;
use drt_effort::Effort;
use drt_graph::Graph;
use drt_model::{Memory, Row};
use drt_pool::Gate;
use drt_refine::FrontierEntry;
use drt_tree::Forest;
use std::alloc::Global;
use std::sync::Wait;
use std::thread::Threads;

/// The vertices of a task, by its graph, and the trees that they are proved against, by their roots.
#[derive(Clone, Copy)]
pub(crate) struct Posed<'a> {
    pub(crate) forest: &'a Forest,
    pub(crate) roots: &'a [u32],
    pub(crate) graph: &'a Graph,
}

/// What came of a task's vertices.
#[derive(Drop)]
pub enum TaskProofs {
    /// Each passes, with these proofs, in file order.
    Passed(Row<ProofClaim>),
    /// Those before this vertex pass, and it fails for this tuple of leaves.
    Failed {
        vertex: u32,
        tuple: Row<u32>,
    },
    /// Those before this vertex pass, and its refinement spent the budget by these steps.
    Spent {
        vertex: u32,
        log: Row<FrontierEntry>,
    },
}

/// Proves the vertices of a task, by its graph, in file order, against the trees with these roots, each with the crew's budget of steps.
/// Its workers end the combinations of all vertices side by side, and the answer is that of one worker.
pub fn prove_vertices<G: Gate, R: Threads + Wait + Sync>(
    crew: &Crew<'_, G, R>,
    forest: &Forest,
    roots: &[u32],
    task: u32,
    graph: &Graph,
) -> Result<TaskProofs, Memory>
    requires few { length roots.now ≤ 31 }
    requires roots { (v : ℕ) → v < vertex_count graph.now → AreChosen (deadline graph.now v) forest.now.pool roots.now }
    ensures { IfOk result (λ proofs. IsOutcome forest.now roots.now graph.now task crew.now.effort.budget proofs) }
{
    let posed = Posed {
        forest,
        roots,
        graph,
    };
    let mut ahead = Ahead::nothing(crew.alloc);
    let mut proofs = Vec::new(crew.alloc);
    'vertices: for vertex in 0..graph.vertex_count() {
        if vertex as usize == ahead.found.len() {
            ahead = prove_ahead(crew, &posed, vertex, ahead)?;
        }
        let subject = graph.vertex(vertex);
        match take_or_prove(
            crew.alloc,
            &PosedVertex {
                forest,
                roots,
                wcet: subject.wcet,
                deadline: subject.deadline,
            },
            take_at(vertex, &mut ahead.found),
            crew.effort,
        )? {
            VertexProof::Passes(items) => proofs.push(ProofClaim {
                task,
                vertex,
                items,
            })?,
            VertexProof::Fails(tuple) => return Ok(TaskProofs::Failed { vertex, tuple }),
            VertexProof::Spent(log) => return Ok(TaskProofs::Spent { vertex, log }),
        }
    }
    Ok(TaskProofs::Passed(Row::from_vec(proofs)))
}

// What becomes of some more vertices, from this one on, where several workers find it side by side; of no more otherwise.
fn prove_ahead<G: Gate, R: Threads + Wait + Sync>(
    crew: &Crew<'_, G, R>,
    posed: &Posed<'_>,
    from: u32,
    ahead: Ahead,
) -> Result<Ahead, Memory>
    requires few { length posed.now.roots.now ≤ 31 }
    requires roots { (v : ℕ) → v < vertex_count posed.now.graph.now → AreChosen (deadline posed.now.graph.now v) posed.now.forest.now.pool posed.now.roots.now }
    requires from { length ahead.found.items ≡ from }
    requires given { AreGiven posed.now.forest.now posed.now.roots.now posed.now.graph.now ahead.found.items }
    ensures { IfOk result (λ more. AreGiven posed.now.forest.now posed.now.roots.now posed.now.graph.now more.found.items) }
{
    let few = crew.gate.alone();
    if crew.effort.workers() == 1 || few == 0 || few >= crew.effort.budget() {
        return Ok(ahead);
    }
    prove_by_parts(crew, posed, from, ahead, crew.effort.at_most(few))
}

// What becomes of a vertex: what was found ahead, or else what one frontier gives.
fn take_or_prove(
    alloc: Global,
    vertex: &PosedVertex<'_>,
    found: Option<VertexProof>,
    effort: Effort,
) -> Result<VertexProof, Memory>
    requires vertex { IsPosedVertex vertex.now }
    requires found { IfSome found (IsVertexProof vertex.now.forest.now vertex.now.wcet vertex.now.deadline vertex.now.roots.now effort.budget) }
    ensures { IfOk result (IsVertexProof vertex.now.forest.now vertex.now.wcet vertex.now.deadline vertex.now.roots.now effort.budget) }
{
    match found {
        Some(proof) => Ok(proof),
        None => prove_vertex(alloc, vertex, effort),
    }
}
