//! The scan of the times at which demand rises.
ghost use Rattle.std.specs.Prelude.{◌≡◌, IfOk};
ghost use Rattle.drt_sweep.specs.DueWorks.{AreRises, works_from, works_of};
ghost use Rattle.drt_graph.specs.FrontEntry.{due};
ghost use Rattle.drt_rates.specs.Demands.{AreFronts, IsFront, IsLeastExcess};

use drt_graph::{FrontEntry, Graph, Graphs};
use drt_model::{Memory, Row};
use drt_sweep::{DueWork, first_excess, rises};
use std::alloc::Global;

// The works of one front.
fn front_works(
    alloc: Global,
    graph: &Graph,
    task: u32,
    front: &[FrontEntry],
    bound: u64,
) -> Result<Vec<DueWork>, Memory>
    requires { IsFront graph.now bound front.now }
    ensures { IfOk result (λ out. out.items ≡ works_from (due graph.now) (λ x. x.work) task front.now) }
{
    graph.keep_limits();
    let mut out = Vec::with_capacity(alloc, front.len())?;
    'entries: for i in 0..front.len() {
        let entry = front[i];
        out.push(DueWork {
            due: entry.offset + graph.vertex(entry.vertex).deadline as u64,
            task,
            work: entry.work,
        })?;
    }
    Ok(out)
}

// The works at which the demands over the fronts rise. The fronts of a task's vertices are merged one task after another, so
// that one task's works are in memory beside these.
fn works(
    alloc: Global,
    graphs: &Graphs,
    fronts: &[Row<FrontEntry>],
    bound: u64,
) -> Result<Vec<DueWork>, Memory>
    requires { AreFronts bound graphs.now fronts.now }
    ensures { IfOk result (λ out. AreRises (works_of due (λ x. x.work) 0 graphs.now fronts.now) out.items) }
{
    let mut out = Vec::new(alloc);
    'tasks: for i in 0..graphs.count() {
        let front = fronts[i as usize].as_slice();
        let all = front_works(alloc, graphs.graph(i), i, front, bound)?;
        out.extend_from_slice(rises(alloc, all)?.as_slice())?;
    }
    Ok(out)
}

/// The least time of at most `bound` ticks at which the tasks' demands over their fronts are together more than the time,
/// or None where there is none. It looks only at the times at which some demand rises, in order.
pub fn scan(
    alloc: Global,
    graphs: &Graphs,
    fronts: &[Row<FrontEntry>],
    bound: u64,
) -> Result<Option<u64>, Memory>
    requires fronts { AreFronts bound graphs.now fronts.now }
    ensures { IfOk result (λ found. IsLeastExcess graphs.now fronts.now bound found) }
{
    graphs.keep_limits();
    let works = works(alloc, graphs, fronts, bound)?;
    Ok(first_excess(works))
}
