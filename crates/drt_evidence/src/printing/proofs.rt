//! The block of proofs.
ghost use Rattle.std.specs.Prelude.{◌≡◌, ◌++◌, ◌∷◌, [], codes, decimal, length, map, OnOk};
ghost use Rattle.drt_file.specs.trusted.Canonical.{written, written_line};
ghost use Rattle.drt_evidence.specs.Fields.{behind};
ghost use Rattle.drt_evidence.specs.Text.{item_field, proof_block, proof_line};

use crate::lines::{push_count, push_field};
use drt_claims::{Item, ProofClaim};
use drt_model::Memory;
use itoa::Buffer;

// Adds how many proofs there are, and the line of each.
pub(crate) fn push_proofs(text: &mut Vec<u8>, proofs: &[ProofClaim]) -> Result<(), Memory>
    ensures { OnOk result (text.new.items ≡ text.old.items ++ written (proof_block proofs.now)) }
{
    push_count(text, b"proofs", proofs.len())?;
    for proof in proofs {
        push_proof(text, proof)?;
    }
    Ok(())
}

// Adds the line of a proof.
fn push_proof(text: &mut Vec<u8>, proof: &ProofClaim) -> Result<(), Memory>
    ensures { OnOk result (text.new.items ≡ text.old.items ++ written_line (proof_line proof.now)) }
{
    let items = proof.items.as_slice();
    push_opening(text, proof.task, proof.vertex, items.len())?;
    push_items(text, items)?;
    text.push(b'\n')?;
    Ok(())
}

// Adds the fields of a proof before its items: the keyword, the task, the vertex, and how many items there are.
fn push_opening(text: &mut Vec<u8>, task: u32, vertex: u32, count: usize) -> Result<(), Memory>
    ensures { OnOk result (text.new.items ≡ text.old.items ++ (codes "proof" ++ behind (decimal task ∷ decimal vertex ∷ decimal count ∷ []))) }
{
    let mut buffer = Buffer::new();
    text.extend_from_slice(b"proof")?;
    push_field(text, buffer.format(task).as_bytes())?;
    push_field(text, buffer.format(vertex).as_bytes())?;
    push_field(text, buffer.format(count).as_bytes())
}

// Adds items, each with a space before it.
fn push_items(text: &mut Vec<u8>, items: &[Item]) -> Result<(), Memory>
    ensures { OnOk result (text.new.items ≡ text.old.items ++ behind (map item_field items.now)) }
{
    for item in items {
        push_item(text, *item)?;
    }
    Ok(())
}

// Adds a space and an item.
fn push_item(text: &mut Vec<u8>, item: Item) -> Result<(), Memory>
    ensures { OnOk result (text.new.items ≡ text.old.items ++ 32 ∷ item_field item) }
{
    let mut buffer = Buffer::new();
    match item {
        Item::Pass(time) => {
            text.extend_from_slice(b" p")?;
            text.extend_from_slice(buffer.format(time).as_bytes())
        }
        Item::Split(place) => {
            text.extend_from_slice(b" s")?;
            text.extend_from_slice(buffer.format(place).as_bytes())
        }
    }
}
