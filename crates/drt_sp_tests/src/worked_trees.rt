//! Trees of walks that were worked by hand, and what their nodes are.
ghost use Rattle.std.specs.Prelude.{◌≡◌, ℕ, ◌≤◌, List, length, true, []};
ghost use Rattle.std.specs.List.{All};
ghost use Rattle.drt_tree.specs.Leaf.{leaves_of};
ghost use Rattle.drt_tree.specs.Tree.{HaveOneBound};

use drt_label::Label;
use drt_model::Row;
use drt_request::RequestLabel;
use drt_steps::Steps;
use drt_tree::Forest;
use std::alloc::{AllocError as Memory, Global};
use std::process::Abort;
use std::sync::Arc;

// Whether the functions of all labels go to the bound.
fn go_to(bound: u64, labels: &[Arc<RequestLabel>]) -> bool
    ensures { result ≡ true → (walks : List (List ℕ)) → HaveOneBound [] (leaves_of labels.now walks) }
{
    for i in 0..labels.len() {
        let label = &labels[i];
        if label.steps().bound() != bound {
            return false;
        }
    }
    true
}

/// The jobs of a walk: one of a vertex with some work, or two of vertex 1 with 2 ticks each, of which the second comes after 4 ticks.
#[derive(Clone, Copy)]
pub(crate) enum Jobs {
    One(u32, u16),
    Two,
}

// The label of a walk of one job, up to 5 ticks. A job has a tick at least.
fn one_job(alloc: Global, vertex: u32, wcet: u16) -> Result<RequestLabel, Memory> {
    if wcet == 0 {
        RequestLabel::opening(alloc, vertex, 1, 5)
    } else {
        RequestLabel::opening(alloc, vertex, wcet as u32, 5)
    }
}

// The label of a walk up to 5 ticks.
fn label(alloc: Global, jobs: Jobs) -> Result<RequestLabel, Memory> {
    match jobs {
        Jobs::One(vertex, wcet) => one_job(alloc, vertex, wcet),
        Jobs::Two => RequestLabel::opening(alloc, 1, 2, 5)?.extend(alloc, 4, 1, 2),
    }
}

// That label, as a forest takes it.
pub(crate) fn shared_label(alloc: Global, jobs: Jobs) -> Result<Arc<RequestLabel>, Memory> {
    Ok(Arc::new(alloc, label(alloc, jobs)?)?)
}

// The row of these vertices.
pub(crate) fn walk(alloc: Global, vertices: &[u32]) -> Result<Row<u32>, Memory> {
    Ok(Row::from_vec(Vec::from_slice(alloc, vertices)?))
}

// The forest of one tree over these labels and walks, and its root. All labels go to 5 ticks.
pub(crate) fn tree(
    rt: &impl Abort,
    alloc: Global,
    labels: &[Arc<RequestLabel>],
    walks: &[Row<u32>],
) -> Result<(Forest, u32), Memory> {
    let go_to = go_to(5, labels);
    assert!(rt; go_to);
    assert!(rt; labels.len() >= 1);
    assert!(rt; labels.len() == walks.len());
    assert!(rt; labels.len() <= 1000);
    let mut forest = Forest::empty(alloc);
    let root = forest.add(alloc, labels, walks)?;
    Ok((forest, root))
}

/// The jobs and the vertices of a walk.
pub(crate) type Worked<'a> = (Jobs, &'a [u32]);

fn labels_of(alloc: Global, worked: &[Worked<'_>]) -> Result<Vec<Arc<RequestLabel>>, Memory> {
    let mut labels = Vec::new(alloc);
    for (jobs, _) in worked {
        labels.push(shared_label(alloc, *jobs)?)?;
    }
    Ok(labels)
}

fn walks_of(alloc: Global, worked: &[Worked<'_>]) -> Result<Vec<Row<u32>>, Memory> {
    let mut walks = Vec::new(alloc);
    for (_, vertices) in worked {
        walks.push(walk(alloc, vertices)?)?;
    }
    Ok(walks)
}

/// The forest of one tree over these walks, and its root.
pub(crate) fn worked_tree(
    rt: &impl Abort,
    alloc: Global,
    worked: &[Worked<'_>],
) -> Result<(Forest, u32), Memory> {
    let labels = labels_of(alloc, worked)?;
    let walks = walks_of(alloc, worked)?;
    tree(rt, alloc, labels.as_slice(), walks.as_slice())
}

/// Whether a function has these values, and no more.
pub(crate) fn has_values(function: &Steps, values: &[u64]) -> bool {
    if function.bound() != values.len() as u64 {
        return false;
    }
    for t in 1..=function.bound() {
        if function.at(t) != values[t as usize - 1] {
            return false;
        }
    }
    true
}
