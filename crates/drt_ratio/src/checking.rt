//! Whether a claimed ratio keeps the rules.
ghost use Rattle.std.specs.Prelude.{◌≤◌, ◌↔◌, IsTrue};
ghost use Rattle.drt_graph.specs.RatioRules.{ProvesRatio};
ghost use Rattle.drt_model.specs.Numbers.{most_term};

use drt_graph::{Graph, is_closed, is_tight, potentials_fit};
use drt_rates::RatioClaim;

/// Whether the claim keeps the rules: there are as many potentials as vertices, they fit each edge, the cycle is empty
/// exactly where the ratio is 0 and else a cycle of the graph, and it has the ratio. It takes no memory.
pub fn check_ratio(graph: &Graph, proof: &RatioClaim) -> bool
    requires num { proof.now.num ≤ most_term }
    requires den { proof.now.den ≤ most_term }
    ensures { IsTrue result ↔ ProvesRatio graph.now proof.now.num proof.now.den proof.now.cycle proof.now.potentials }
{
    let num = proof.num;
    let den = proof.den;
    let cycle = proof.cycle.as_slice();
    let potentials = proof.potentials.as_slice();
    potentials.len() == graph.vertex_count() as usize
        && potentials_fit(graph, num, den, potentials)
        && is_closed(graph, num, cycle)
        && is_tight(graph, num, den, cycle)
}
