//! The nodes and times at which proofs ask for the values of one tree.
ghost use Rattle.std.specs.Prelude.{◌≡◌, ◌++◌, [], ◌∷◌, IfOk, Some, map, reverse};
ghost use Rattle.drt_claims.specs.Trees.{root};
ghost use Rattle.drt_check_proofs.specs.Passing.{all_queries, asks_at, blank, passes_at, queries_of, passing_times};

use crate::places::{begin, take};
use crate::shapes::higher_count;
use drt_check_values::Query;
use drt_claims::{Item, ProofClaim, TreeClaim};
use drt_model::{Memory, Task};

/// Leaves in `queries` what the proofs ask for at the place, one for each item that passes, in order. An item that has no node there
/// asks for a value that is 0.
pub(crate) fn place_queries(
    tasks: &[Task],
    tree: &TreeClaim,
    i: usize,
    proofs: &[ProofClaim],
    nodes: &mut Vec<u32>,
    queries: &mut Vec<Query>,
) -> Result<(), Memory>
    ensures { IfOk result (λ u. queries.new.items ≡ all_queries tasks.now tree.now i proofs.now) }
{
    queries.clear();
    'proofs: for proof in proofs {
        add_queries(tasks, tree, i, proof, nodes, queries)?;
    }
    Ok(())
}

// What one proof asks for, after what was asked so far.
fn add_queries(
    tasks: &[Task],
    tree: &TreeClaim,
    i: usize,
    proof: &ProofClaim,
    nodes: &mut Vec<u32>,
    queries: &mut Vec<Query>,
) -> Result<(), Memory>
    ensures { IfOk result (λ u. queries.new.items ≡ queries.old.items ++ queries_of tasks.now tree.now i proof.now) }
{
    if proof.task as usize >= tasks.len() {
        return Ok(());
    }
    let task = &tasks[proof.task as usize];
    if i < higher_count(tasks, task.priority) {
        add_passes(tree, i, proof.items.as_slice(), nodes, queries)
    } else {
        add_blanks(proof.items.as_slice(), queries)
    }
}

fn add_passes(
    tree: &TreeClaim,
    i: usize,
    items: &[Item],
    nodes: &mut Vec<u32>,
    queries: &mut Vec<Query>,
) -> Result<(), Memory>
    ensures { IfOk result (λ u. queries.new.items ≡ queries.old.items ++ passes_at tree.now i items.now (Some (root tree.now ∷ []))) }
{
    begin(tree, nodes)?;
    'items: for item in items {
        add_pass(*item, nodes.as_slice(), queries)?;
        if !take(tree, i, *item, nodes)? {
            return Ok(());
        }
    }
    Ok(())
}

// An item that passes asks for the topmost node.
fn add_pass(item: Item, nodes: &[u32], queries: &mut Vec<Query>) -> Result<(), Memory>
    ensures { IfOk result (λ u. queries.new.items ≡ queries.old.items ++ asks_at item (reverse nodes.now)) }
{
    let Item::Pass(time) = item else {
        return Ok(());
    };
    if nodes.is_empty() {
        return Ok(());
    }
    let node = nodes[nodes.len() - 1];
    queries.push(Query {
        node,
        time: time.min(u32::MAX as u64) as u32,
    })?;
    Ok(())
}

fn add_blanks(items: &[Item], queries: &mut Vec<Query>) -> Result<(), Memory>
    ensures { IfOk result (λ u. queries.new.items ≡ queries.old.items ++ map blank (passing_times items.now)) }
{
    'items: for item in items {
        add_blank(*item, queries)?;
    }
    Ok(())
}

#[tactic(auto, unfolding(crate::specs::Passing::passing_times))]
fn add_blank(item: Item, queries: &mut Vec<Query>) -> Result<(), Memory>
    ensures { IfOk result (λ u. queries.new.items ≡ queries.old.items ++ map blank (passing_times (item ∷ []))) }
{
    match item {
        Item::Pass(_) => queries.push(Query { node: 0, time: 0 })?,
        Item::Split(_) => (),
    }
    Ok(())
}
