//! The text of a margin.
ghost use Rattle.std.specs.Prelude.{◌≡◌, ◌+◌, ◌++◌, ◌≤◌, IfOk, OnOk};
ghost use Rattle.drt_model.specs.Numbers.{most_time};
ghost use Rattle.drt_file.specs.trusted.Canonical.{written_line};
ghost use Rattle.drt_claims.specs.Ranges.{IsEvidenceInRange};
ghost use Rattle.drt_evidence.specs.Text.{text};
ghost use Rattle.drt_margin.specs.Answers.{IsFoundMargin, IsNextShown};
ghost use Rattle.drt_margin.specs.Margin.{IsVertexOf, wcet_at};
ghost use Rattle.drt_command_margin.specs.Text.{add_line, margin_text, next_text, with_evidence};

use drt_claims::{Dossier, Evidence};
use drt_file::push_line;
use drt_margin::{Next, Question, wcet_of, with_more, with_wcet};
use drt_model::{Memory, Row, TaskSet};
use itoa::Buffer;
use std::alloc::Global;

/// The text of a margin, in bytes: the number, the dossier of the set with it, and what is shown of the set with one tick more.
pub(crate) fn print_margin(
    alloc: Global,
    set: TaskSet,
    spot: Question,
    add: u32,
    within: Evidence,
    next: Next,
) -> Result<Row<u8>, Memory>
    requires vertex { IsVertexOf set.tasks spot.task spot.vertex }
    requires found { IsFoundMargin set spot.policy spot.task spot.vertex add within next }
    ensures { IfOk result (λ bytes. bytes ≡ margin_text spot.policy set spot.task spot.vertex add within next) }
{
    let mut bytes = Vec::new(alloc);
    push_line(&mut bytes, &[b"drt-margin".as_slice(), b"1"])?;
    push_add(&mut bytes, add)?;
    push_line(&mut bytes, &[b"within".as_slice()])?;
    let set = push_dossier(alloc, &mut bytes, set, spot, add, within)?;
    push_line(&mut bytes, &[b"next".as_slice()])?;
    push_next(alloc, &mut bytes, set, spot, add + 1, next)?;
    push_line(&mut bytes, &[b"close".as_slice()])?;
    Ok(Row::from_vec(bytes))
}

// Adds the line of the number.
fn push_add(bytes: &mut Vec<u8>, add: u32) -> Result<(), Memory>
    ensures { OnOk result (bytes.new.items ≡ bytes.old.items ++ written_line (add_line add)) }
{
    let mut buffer = Buffer::new();
    push_line(bytes, &[b"add".as_slice(), buffer.format(add).as_bytes()])
}

// Adds what is shown of the set with so many ticks more: a dossier, or that the limits forbid it.
fn push_next(
    alloc: Global,
    bytes: &mut Vec<u8>,
    set: TaskSet,
    spot: Question,
    add: u32,
    next: Next,
) -> Result<(), Memory>
    requires vertex { IsVertexOf set.tasks spot.task spot.vertex }
    requires next { IsNextShown set spot.policy spot.task spot.vertex add next }
    ensures { OnOk result (bytes.new.items ≡ bytes.old.items ++ next_text spot.policy set spot.task spot.vertex add next) }
{
    match next {
        Next::Shown(evidence) => {
            let _set = push_dossier(alloc, bytes, set, spot, add, evidence)?;
            Ok(())
        }
        Next::Limit => push_line(bytes, &[b"limit".as_slice()]),
    }
}

// Adds the dossier of the set with so many ticks more, with this evidence. It answers with the set as it was.
fn push_dossier(
    alloc: Global,
    bytes: &mut Vec<u8>,
    set: TaskSet,
    spot: Question,
    add: u32,
    evidence: Evidence,
) -> Result<TaskSet, Memory>
    requires vertex { IsVertexOf set.tasks spot.task spot.vertex }
    requires limit { wcet_at set.tasks spot.task spot.vertex + add ≤ most_time }
    requires in_range { IsEvidenceInRange evidence }
    ensures same { IfOk result (λ same. same ≡ set) }
    ensures bytes { OnOk result (bytes.new.items ≡ bytes.old.items ++ text (with_evidence spot.policy set spot.task spot.vertex add evidence)) }
{
    let wcet = wcet_of(&set, spot.task, spot.vertex);
    let dossier = Dossier {
        policy: spot.policy,
        set: with_more(alloc, set, spot.task, spot.vertex, add),
        evidence,
    };
    let text = drt_evidence::print(alloc, &dossier)?;
    bytes.extend_from_slice(text.as_slice())?;
    let Dossier { set, .. } = dossier;
    Ok(with_wcet(alloc, set, spot.task, spot.vertex, wcet))
}
