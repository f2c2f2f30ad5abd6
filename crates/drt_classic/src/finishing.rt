//! The end of a classic file: the tasks that its lines say, or the fault of the text as a whole.
ghost use Rattle.std.specs.Prelude.{◌≡◌, map, IfOk};
ghost use Rattle.drt_classic.specs.declared.fault.ClassicError.TheVariants.{Fault};
ghost use Rattle.drt_classic.specs.ClassicFaults.{classic_closing, classic_finish, first_without_frame, has_no_frame, task_of_draft};
ghost use Rattle.drt_classic.specs.Gives.{GivesClassic};

use crate::classic::Classic;
use crate::codes::*;
use crate::effects::close;
use crate::fault::{ClassicError, ClassicFault};
use crate::state::{Draft, State};
use drt_model::{Memory, Row};
use std::alloc::Global;

#[tactic(auto, unfolding(crate::specs::ClassicFaults::has_no_frame))]
fn no_frame(draft: &Draft) -> bool
    ensures { result ≡ has_no_frame draft.now }
{
    match &draft.task {
        Classic::Sporadic { .. } => false,
        Classic::Multiframe { wcets, .. } => wcets.as_slice().is_empty(),
        Classic::Cyclic { frames, .. } | Classic::Free { frames, .. } => {
            frames.as_slice().is_empty()
        }
    }
}

fn first_without_frame(drafts: &[Draft]) -> Option<u32>
    ensures { result ≡ first_without_frame drafts.now }
{
    for draft in drafts {
        if no_frame(draft) {
            return Some(draft.line);
        }
    }
    None
}

fn fault_at(line: u32, code: u8) -> ClassicError
    ensures { result ≡ Fault (record { line = line; code = code }) }
{
    ClassicError::Fault(ClassicFault { line, code })
}

fn tasks_of(alloc: Global, drafts: Row<Draft>) -> Result<Row<Classic>, Memory>
    ensures { IfOk result (λ tasks. tasks ≡ map task_of_draft drafts) }
{
    let mut tasks = Vec::new(alloc);
    for draft in drafts.into_vec() {
        let Draft { task, .. } = draft;
        tasks.push(task)?;
    }
    Ok(Row::from_vec(tasks))
}

// The tasks, where the text as a whole has no fault; n is the number behind its last line.
#[tactic(auto, unfolding(crate::specs::ClassicFaults::classic_closing))]
fn closing(
    alloc: Global,
    n: u32,
    drafts: Row<Draft>,
    ended: bool,
) -> Result<Row<Classic>, ClassicError>
    ensures { GivesClassic result (classic_closing n drafts ended) }
{
    if drafts.as_slice().is_empty() {
        return Err(fault_at(n, NO_TASK));
    }
    match first_without_frame(drafts.as_slice()) {
        Some(line) => Err(fault_at(line, NO_FRAME)),
        None => {
            if !ended {
                return Err(fault_at(n, NO_END));
            }
            Ok(tasks_of(alloc, drafts)?)
        }
    }
}

/// The tasks that a text says, from what its lines leave; n is the number behind its last line.
#[tactic(auto, unfolding(crate::specs::ClassicFaults::classic_finish))]
pub fn finish(alloc: Global, n: u32, above: Option<State>) -> Result<Row<Classic>, ClassicError>
    ensures { GivesClassic result (classic_finish n above) }
{
    match above {
        None => Err(fault_at(n, NO_HEAD)),
        Some(
            State {
                closed,
                last,
                ended,
            },
        ) => closing(alloc, n, close(closed, last)?, ended),
    }
}
