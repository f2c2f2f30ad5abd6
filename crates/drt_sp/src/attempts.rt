//! The caller's attempts at the vertices of a task, before other workers are begun.
ghost use Rattle.std.specs.Prelude.{◌≡◌, ℕ, ◌≤◌, ◌<◌, All, IfOk, OnOk, length};
ghost use Rattle.drt_model.specs.Digraph.{vertex_count};
ghost use Rattle.drt_model.specs.Walk.{deadline};
ghost use Rattle.drt_sp.specs.Attempts.{AreGiven, IsAttempt};
ghost use Rattle.drt_steps.specs.Time.{AreChosen};

use crate::proving::{PosedVertex, Refined, VertexProof, refine_vertex};
use crate::vertices::Posed;
use drt_effort::Effort;
use drt_model::Memory;
use drt_refine::Frontier;
use std::alloc::Global;

// How many times fewer steps the attempts have behind one that spent its steps.
const FEWER: u64 = 4;

/// An attempt at a vertex that spent its steps: the vertex, its wcet and deadline (in ticks), and the frontier that the steps made.
#[derive(Drop)]
pub(crate) struct Attempt {
    pub(crate) vertex: u32,
    pub(crate) wcet: u32,
    pub(crate) deadline: u32,
    pub(crate) frontier: Frontier,
}

/// What came of the attempts at the first vertices of a task: for each what becomes of it, or none where its steps were spent; and those
/// of these attempts whose steps were spent, in file order.
#[derive(Drop)]
pub(crate) struct Attempts {
    pub(crate) proofs: Vec<Option<VertexProof>>,
    pub(crate) spent: Vec<Attempt>,
}

/// Refines the vertices of a task in file order from this one on, with so few steps each, and with fewer behind one that spent them: what
/// becomes of those before it is given. The first one that fails is the last. From the first one on whose steps are spent, which may yet
/// fail, there are at most `most`: those behind it may be attempted for nothing.
pub(crate) fn attempt_vertices(
    alloc: Global,
    posed: &Posed<'_>,
    from: u32,
    given: Vec<Option<VertexProof>>,
    most: usize,
    few: Effort,
) -> Result<Attempts, Memory>
    requires few { length posed.now.roots.now ≤ 31 }
    requires roots { (v : ℕ) → v < vertex_count posed.now.graph.now → AreChosen (deadline posed.now.graph.now v) posed.now.forest.now.pool posed.now.roots.now }
    requires from { length given.items ≡ from }
    requires given { AreGiven posed.now.forest.now posed.now.roots.now posed.now.graph.now given.items }
    ensures proofs { IfOk result (λ attempts. AreGiven posed.now.forest.now posed.now.roots.now posed.now.graph.now attempts.proofs.items) }
    ensures spent { IfOk result (λ attempts. All (IsAttempt posed.now.forest.now posed.now.roots.now posed.now.graph.now) attempts.spent.items) }
{
    let mut proofs = given;
    let mut spent = Vec::new(alloc);
    let mut left = most;
    for vertex in from..posed.graph.vertex_count() {
        if left == 0 {
            return Ok(Attempts { proofs, spent });
        }
        let subject = posed.graph.vertex(vertex);
        let (wcet, deadline) = (subject.wcet, subject.deadline);
        let effort = few.at_most(steps_of(few.budget(), spent.as_slice()));
        let posed_vertex = PosedVertex {
            forest: posed.forest,
            roots: posed.roots,
            wcet,
            deadline,
        };
        match refine_vertex(alloc, &posed_vertex, effort)? {
            Refined::Passes(items) => proofs.push(Some(VertexProof::Passes(items)))?,
            Refined::Fails(tuple) => {
                proofs.push(Some(VertexProof::Fails(tuple)))?;
                return Ok(Attempts { proofs, spent });
            }
            Refined::Spent(frontier) => {
                proofs.push(None)?;
                spent.push(Attempt {
                    vertex,
                    wcet,
                    deadline,
                    frontier,
                })?;
            }
        }
        left = left_after(left, spent.as_slice());
    }
    Ok(Attempts { proofs, spent })
}

// How many steps the next attempt has: workers are begun for one that spent its steps, so the attempts behind it need only open
// combinations for them.
fn steps_of(few: u64, spent: &[Attempt]) -> u64
    requires { 1 ≤ few }
    ensures { (1 ≤ result) × (result ≤ few) }
{
    if spent.is_empty() {
        few
    } else {
        (few / FEWER).max(1)
    }
}

// How many vertices are left after one more: it counts where it, or one before it, spent its steps.
fn left_after(left: usize, spent: &[Attempt]) -> usize {
    if spent.is_empty() {
        left
    } else {
        left.saturating_sub(1)
    }
}
