//! Task files as an input, and the set that one says.
ghost use Rattle.std.specs.Prelude.{◌≡◌, ◌≤◌, IfErr, IfOk, length, map};
ghost use Rattle.drt_file.specs.trusted.Reading.{Reads};
ghost use Rattle.drt_model.specs.Digraph.{digraph_of};
ghost use Rattle.drt_command.specs.Rules.{IsUnmadeCause};
ghost use Rattle.drt_graph.specs.Past.{IsFirstPast};
ghost use Rattle.drt_command_files.specs.Edges.{Describes};
ghost use Rattle.drt_command_files.specs.TaskFiles.{IsAccepted, IsFileFault, file_input, most_bytes};

use drt_command::{Input, Unmade};
use drt_file::{FileError, FileFault};
use drt_graph::{GraphError, Graphs};
use drt_model::{Memory, TaskSet};
use drt_outcome::fault::{Fault, PastEdge, TOO_LONG};
use std::alloc::Global;

// The most bytes that a task file has.
const MOST_BYTES: u64 = 1_048_576;

/// What a command reads that reads a task file.
pub fn file_input() -> Input
    ensures { result ≡ file_input }
{
    Input::AtMost {
        bytes: MOST_BYTES,
        longer: Fault::File {
            line: 0,
            code: TOO_LONG,
        },
    }
}

/// The set that a file is accepted as, and its graphs.
pub fn read_set(alloc: Global, bytes: &[u8]) -> Result<(TaskSet, Graphs), Unmade>
    requires { length bytes.now ≤ most_bytes }
    ensures accepted { IfOk result (λ a. IsAccepted bytes.now a.0) }
    ensures graphs { IfOk result (λ a. a.1 ≡ map digraph_of a.0.tasks) }
    ensures unmade { IfErr result (IsUnmadeCause IsFileFault bytes.now) }
{
    match drt_file::read(alloc, bytes) {
        Ok(set) => check_deadlines(alloc, bytes, set),
        Err(FileError::Fault(FileFault { line, code })) => {
            Err(Unmade::Refused(Fault::File { line, code }))
        }
        Err(FileError::Memory) => Err(Unmade::Memory),
    }
}

// The set again with its graphs, where its deadlines are constrained.
fn check_deadlines(alloc: Global, bytes: &[u8], set: TaskSet) -> Result<(TaskSet, Graphs), Unmade>
    requires small { length bytes.now ≤ most_bytes }
    requires reads { Reads bytes.now set }
    ensures accepted { IfOk result (λ a. IsAccepted bytes.now a.0) }
    ensures graphs { IfOk result (λ a. a.1 ≡ map digraph_of a.0.tasks) }
    ensures unmade { IfErr result (IsUnmadeCause IsFileFault bytes.now) }
{
    match drt_graph::check(alloc, &set) {
        Ok(graphs) => Ok((set, graphs)),
        Err(GraphError::DeadlinePastSeparation { task, edge }) => {
            let past = describe(alloc, &set, task, edge)?;
            Err(Unmade::Refused(Fault::Edge { task, edge, past }))
        }
        Err(GraphError::Memory) => Err(Unmade::Memory),
    }
}

// The names and the numbers of an edge whose separation is below the deadline of its source.
fn describe(alloc: Global, set: &TaskSet, task: u32, edge: u32) -> Result<PastEdge, Memory>
    requires { IsFirstPast set.now.tasks task edge }
    ensures { IfOk result (λ past. Describes set.now.tasks task edge past) }
{
    let of = &set.tasks()[task as usize];
    let at = of.edges.as_slice()[edge as usize];
    let source = &of.vertices.as_slice()[at.from as usize];
    let target = &of.vertices.as_slice()[at.to as usize];
    let task = of.name.copy(alloc)?;
    let from = source.name.copy(alloc)?;
    let to = target.name.copy(alloc)?;
    Ok(PastEdge {
        task,
        from,
        to,
        separation: at.sep,
        deadline: source.deadline,
    })
}
