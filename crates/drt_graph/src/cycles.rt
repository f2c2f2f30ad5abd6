//! Cycles of a graph, what they sum to, and whether one has a ratio.
ghost use Rattle.std.specs.Prelude.{◌≡◌, ◌*◌, ◌<◌, ◌≤◌, ◌↔◌, IsTrue, length};
ghost use Rattle.drt_model.specs.Numbers.{most_time, most_term};
ghost use Rattle.drt_model.specs.Digraph.{vertex_count};
ghost use Rattle.drt_model.specs.Walk.{wcet, sep, gap, IsEdge, IsCycle, work, cycle_span};
ghost use Rattle.drt_graph.specs.RatioRules.{IsClosedCycle, IsTight};

use crate::graph::Graph;

// The execution time of a vertex, and 0 past the last one.
fn wcet_of(graph: &Graph, v: u32) -> u32
    ensures value { result ≡ wcet graph.now v }
    ensures most { result ≤ most_time }
{
    if v < graph.vertex_count() {
        graph.vertex(v).wcet
    } else {
        0
    }
}

// The separation of the edge from `u` to `v`, if there is one.
fn separation(graph: &Graph, u: u32, v: u32) -> Option<u32>
    ensures { result ≡ sep graph.now u v }
{
    if u < graph.vertex_count() {
        graph.separation(u, v)
    } else {
        None
    }
}

// Whether an edge leads from `u` to `v`.
fn is_edge(graph: &Graph, u: u32, v: u32) -> bool
    ensures { IsTrue result ↔ IsEdge graph.now u v }
{
    match separation(graph, u, v) {
        Some(_) => true,
        None => false,
    }
}

// The separation of the edge from `u` to `v`, and 0 where there is none.
fn gap_of(graph: &Graph, u: u32, v: u32) -> u32
    ensures value { result ≡ gap graph.now u v }
    ensures most { result ≤ most_time }
{
    graph.keep_limits();
    match separation(graph, u, v) {
        Some(gap) => gap,
        None => 0,
    }
}

/// Whether the list is a cycle of the graph: an edge leads from each vertex to the next and from the last to the first. It takes
/// no memory.
pub fn is_cycle(graph: &Graph, cycle: &[u32]) -> bool
    requires { 0 < length cycle.now }
    ensures { IsTrue result ↔ IsCycle graph.now cycle.now }
{
    let mut at = cycle[cycle.len() - 1];
    'steps: for v in cycle {
        if !is_edge(graph, at, *v) {
            return false;
        }
        at = *v;
    }
    true
}

/// The sum of the execution times along a cycle and the sum of its separations, the closing one included, in ticks. Of a list
/// that is no cycle, a step that is no edge counts 0 and so does a vertex past the last one. It takes no memory.
pub fn cycle_sums(graph: &Graph, cycle: &[u32]) -> (u128, u128)
    requires { 0 < length cycle.now }
    ensures work { result.0 ≡ work graph.now cycle.now }
    ensures span { result.1 ≡ cycle_span graph.now cycle.now }
    ensures work_most { result.0 ≤ length cycle.now * most_time }
    ensures span_most { result.1 ≤ length cycle.now * most_time }
{
    let mut work: u128 = 0;
    let mut span: u128 = 0;
    let mut at = cycle[cycle.len() - 1];
    'sums: for v in cycle {
        work += wcet_of(graph, *v) as u128;
        span += gap_of(graph, at, *v) as u128;
        at = *v;
    }
    (work, span)
}

/// Whether the list is empty exactly where the numerator of a ratio is 0, and else a cycle of the graph. It takes no memory.
pub fn is_closed(graph: &Graph, num: u64, cycle: &[u32]) -> bool
    ensures { IsTrue result ↔ IsClosedCycle graph.now num cycle.now }
{
    let count = cycle.len();
    if count == 0 {
        return num == 0;
    }
    num != 0 && is_cycle(graph, cycle)
}

/// Whether the list, where it isn't empty, has the ratio `num / den`: `den` times its work is `num` times its span. It takes no memory.
pub fn is_tight(graph: &Graph, num: u64, den: u64, cycle: &[u32]) -> bool
    requires num { num ≤ most_term }
    requires den { den ≤ most_term }
    ensures { IsTrue result ↔ IsTight graph.now num den cycle.now }
{
    let count = cycle.len();
    if count == 0 {
        return true;
    }
    let (work, span) = cycle_sums(graph, cycle);
    den as u128 * work == num as u128 * span
}
