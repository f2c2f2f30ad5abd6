//! The demand of a time.

ghost use Rattle.std.specs.Prelude.{◌≡◌, ℕ, ◌<◌, ◌≤◌, ◌↔◌, All, IsTrue};
ghost use Rattle.drt_model.specs.Digraph.{vertex_count};
ghost use Rattle.drt_graph.specs.FrontEntry.{due};
ghost use Rattle.drt_demand.specs.Dbf.{dbf_at};

use drt_graph::{FrontEntry, Graph};

/// Whether the last job of a label's walk is due at `t` or before, in ticks.
pub fn is_due(graph: &Graph, label: FrontEntry, t: u64) -> bool
    requires { label.vertex < vertex_count graph.now }
    ensures { IsTrue result ↔ (due graph.now label ≤ t) }
{
    let deadline = graph.vertex(label.vertex).deadline as u64;
    label.offset <= t && deadline <= t - label.offset
}

/// The demand bound function over some labels: the greatest work, in ticks, among those labels whose last job is due
/// at `t` or before, and 0 where there is none. Where the labels are the front of a task, this is the greatest work
/// that jobs of the task can have both released and due within `t` ticks.
///
/// Source: Stigge, Ekberg, Guan and Yi, "The Digraph Real-Time Task Model" (RTAS 2011).
pub fn dbf(graph: &Graph, labels: &[FrontEntry], t: u64) -> u64
    requires { All (λ x. x.vertex < vertex_count graph.now) labels.now }
    ensures { result ≡ dbf_at graph.now labels.now t }
{
    let mut greatest = 0u64;
    for label in labels {
        if is_due(graph, *label, t) {
            greatest = greatest.max(label.work);
        }
    }
    greatest
}
