//! Whether potentials fit a graph.
ghost use Rattle.std.specs.Prelude.{◌≡◌, ℤ, pos, ◌*◌, ◌<◌, ◌≤◌, ◌≤ℤ◌, ◌-ℤ◌, ◌↔◌, IsTrue};
ghost use Rattle.drt_model.specs.Digraph.{vertex_count, out_degree};
ghost use Rattle.drt_graph.specs.Potential.{potential_of};
ghost use Rattle.drt_graph.specs.RatioRules.{FitPotentials};
ghost use Rattle.drt_graph.specs.Fits.{Allows, AllowAll};
ghost use Rattle.drt_model.specs.Numbers.{most_term};

use crate::graph::Graph;

/// Whether the potentials fit each edge at the ratio `num / den`: on an edge from `u` to `v`, `den` times the execution time of `v`
/// less `num` times the separation is at most what the potential rises. A potential past the last one counts 0. It takes no
/// memory.
pub fn potentials_fit(graph: &Graph, num: u64, den: u64, potentials: &[i64]) -> bool
    requires num { num ≤ most_term }
    requires den { den ≤ most_term }
    ensures { IsTrue result ↔ FitPotentials graph.now num den potentials.now }
{
    graph.keep_limits();
    allow_all(graph, num, den, potentials)
}

// Whether the potentials allow each edge.
fn allow_all(graph: &Graph, num: u64, den: u64, potentials: &[i64]) -> bool
    requires num { num ≤ most_term }
    requires den { den ≤ most_term }
    ensures { IsTrue result ↔ AllowAll graph.now num den potentials.now }
{
    'sources: for u in 0..graph.vertex_count() {
        'edges: for k in 0..graph.out_degree(u) {
            if !allows(graph, num, den, potentials, u, k) {
                return false;
            }
        }
    }
    true
}

// Whether the potentials allow the k-th edge out of `u`.
fn allows(graph: &Graph, num: u64, den: u64, potentials: &[i64], u: u32, k: u32) -> bool
    requires num { num ≤ most_term }
    requires den { den ≤ most_term }
    requires vertex { u < vertex_count graph.now }
    requires edge { k < out_degree graph.now u }
    ensures { IsTrue result ↔ Allows graph.now num den potentials.now u k }
{
    graph.keep_limits();
    let edge = *graph.out_edge(u, k);
    let gain = den * graph.vertex(edge.to).wcet as u64;
    let loss = num * edge.sep as u64;
    is_step(
        gain,
        loss,
        potential_at(potentials, u),
        potential_at(potentials, edge.to),
    )
}

// The potential of vertex `v`, and 0 past the last one.
pub(crate) fn potential_at(potentials: &[i64], v: u32) -> i64
    ensures { result ≡ potential_of potentials.now v }
{
    let at = v as usize;
    if at < potentials.len() {
        potentials[at]
    } else {
        0
    }
}

// Whether the step from one height to another is at least the gain less the loss.
fn is_step(gain: u64, loss: u64, low: i64, high: i64) -> bool
    ensures { IsTrue result ↔ ((pos gain -ℤ pos loss) ≤ℤ (high -ℤ low)) }
{
    gain as i128 - loss as i128 <= high as i128 - low as i128
}
