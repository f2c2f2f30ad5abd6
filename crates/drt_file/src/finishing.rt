//! The end of a task file: the set that its lines say, or the fault of the text as a whole.
ghost use Rattle.std.specs.Prelude.{◌≡◌, map, IfOk};
ghost use Rattle.drt_file.specs.declared.fault.FileError.TheVariants.{Fault};
ghost use Rattle.drt_file.specs.internal.Steps.{
  Gives,
  GivesSet,
  first_line,
  has_no_vertex,
  has_no_priority,
  closing,
  finish,
  task_of,
};

use crate::codes::*;
use crate::effects::close;
use crate::fault::{FileError, FileFault};
use crate::reader::Reader;
use crate::state::{Draft, State};
use drt_model::{Memory, Row, Task};
use std::alloc::Global;

fn first_without_vertex(drafts: &[Draft]) -> Option<u32>
    ensures { result ≡ first_line has_no_vertex drafts.now }
{
    for d in drafts {
        if no_vertex(d) {
            return Some(d.line);
        }
    }
    None
}

#[tactic(auto, unfolding(crate::specs::internal::Steps::has_no_vertex))]
fn no_vertex(d: &Draft) -> bool
    ensures { result ≡ has_no_vertex d.now }
{
    d.vertices.as_slice().is_empty()
}

#[tactic(auto, unfolding(crate::specs::internal::Steps::has_no_priority))]
fn no_priority(d: &Draft) -> bool
    ensures { result ≡ has_no_priority d.now }
{
    d.priority.is_none()
}

fn first_without_priority(drafts: &[Draft]) -> Option<u32>
    ensures { result ≡ first_line has_no_priority drafts.now }
{
    for d in drafts {
        if no_priority(d) {
            return Some(d.line);
        }
    }
    None
}

fn fault_at(line: u32, code: u8) -> FileError
    ensures { result ≡ Fault (record { line = line; code = code }) }
{
    FileError::Fault(FileFault { line, code })
}

// The tasks, where the text as a whole has no fault; n is the number behind its last line.
#[tactic(auto, unfolding(crate::specs::internal::Steps::closing, crate::specs::internal::Steps::unless_at))]
fn closing(n: u32, drafts: Row<Draft>, ended: bool) -> Result<Row<Draft>, FileError>
    ensures { Gives result (closing n drafts ended) }
{
    if drafts.as_slice().is_empty() {
        return Err(fault_at(n, NO_TASK));
    }
    if let Some(line) = first_without_vertex(drafts.as_slice()) {
        return Err(fault_at(line, NO_VERTEX));
    }
    if !ended {
        return Err(fault_at(n, NO_END));
    }
    match first_without_priority(drafts.as_slice()) {
        Some(line) => Err(fault_at(line, NO_PRIORITY)),
        None => Ok(drafts),
    }
}

#[tactic(auto, unfolding(crate::specs::internal::Steps::task_of))]
fn task_of(d: Draft) -> Task
    ensures { result ≡ task_of d }
{
    let Draft {
        name,
        priority,
        vertices,
        edges,
        ..
    } = d;
    let priority = match priority {
        Some(n) => n,
        None => 0,
    };
    Task {
        name,
        priority,
        vertices,
        edges,
    }
}

fn tasks_of(alloc: Global, drafts: Row<Draft>) -> Result<Row<Task>, Memory>
    ensures { IfOk result (λ tasks. tasks ≡ map task_of drafts) }
{
    let mut tasks = Vec::new(alloc);
    for d in drafts.into_vec() {
        tasks.push(task_of(d))?;
    }
    Ok(Row::from_vec(tasks))
}

/// The version and the tasks of the set that a text says.
#[tactic(auto, unfolding(crate::specs::internal::Steps::finish))]
pub fn finish(alloc: Global, n: u32, above: Option<Reader>) -> Result<(u8, Row<Task>), FileError>
    ensures { GivesSet result (finish n above) }
{
    match above {
        None => Err(fault_at(n, NO_HEAD)),
        Some(r) => {
            let State {
                version,
                closed,
                current,
                ended,
            } = r.into_state();
            let drafts = closing(n, close(closed, current)?, ended)?;
            Ok((version, tasks_of(alloc, drafts)?))
        }
    }
}
