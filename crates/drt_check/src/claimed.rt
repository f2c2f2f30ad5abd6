//! The rules of claimed ratios that need no common scale.
ghost use Rattle.std.specs.Prelude.{◌≡◌, ◌↔◌, All, IsTrue, length};
ghost use Rattle.std.specs.Int.{IsGcd};
ghost use Rattle.drt_claims.specs.Claims.{AreLowest};
ghost use Rattle.drt_claims.specs.Ranges.{IsInRangeRatio};
ghost use Rattle.drt_check.specs.Claimed.{KeepsRatioRule};
ghost use Rattle.drt_model.specs.Each.{Each};

use drt_claims::RatioClaim;
use drt_graph::{Graph, Graphs, is_closed, is_tight, potentials_fit};
use drt_num::gcd;

/// A rule of one claimed ratio.
#[derive(Drop, Clone, Copy)]
pub enum ClaimRule {
    /// There are as many potentials as vertices.
    Counted,
    /// The potentials rise by the gain of each edge.
    Fits,
    /// The cycle is empty exactly where the numerator is 0, and else a cycle of the graph.
    Closed,
    /// The cycle, where it isn't empty, has the ratio.
    Tight,
}

/// Whether each ratio is in lowest terms.
pub fn are_lowest(ratios: &[RatioClaim]) -> bool
    ensures { IsTrue result ↔ AreLowest ratios.now }
{
    'ratios: for claim in ratios {
        if !is_lowest(claim) {
            return false;
        }
    }
    true
}

fn is_lowest(claim: &RatioClaim) -> bool
    ensures { IsTrue result ↔ IsGcd claim.now.num claim.now.den 1 }
{
    gcd(claim.num as u128, claim.den as u128) == 1
}

/// Whether each claim keeps the rule, of the graph at its place.
pub fn all_keep(rule: ClaimRule, graphs: &Graphs, ratios: &[RatioClaim]) -> bool
    requires counted { length ratios.now ≡ length graphs.now }
    requires in_range { All IsInRangeRatio ratios.now }
    ensures { IsTrue result ↔ Each (KeepsRatioRule rule) graphs.now ratios.now }
{
    'tasks: for i in 0..graphs.count() {
        if !keeps(rule, graphs.graph(i), &ratios[i as usize]) {
            return false;
        }
    }
    true
}

// Whether the claim keeps the rule.
fn keeps(rule: ClaimRule, graph: &Graph, claim: &RatioClaim) -> bool
    requires { IsInRangeRatio claim.now }
    ensures { IsTrue result ↔ KeepsRatioRule rule graph.now claim.now }
{
    let count = graph.vertex_count();
    match rule {
        ClaimRule::Counted => claim.potentials.as_slice().len() == count as usize,
        ClaimRule::Fits => {
            potentials_fit(graph, claim.num, claim.den, claim.potentials.as_slice())
        }
        ClaimRule::Closed => is_closed(graph, claim.num, claim.cycle.as_slice()),
        ClaimRule::Tight => is_tight(graph, claim.num, claim.den, claim.cycle.as_slice()),
    }
}
