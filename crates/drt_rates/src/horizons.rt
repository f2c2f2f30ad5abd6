//! The horizon of a set.
ghost use Rattle.std.specs.Prelude.{◌≡◌, ◌*◌, ◌/◌, ◌^◌, ◌<◌, ◌≤◌};
ghost use Rattle.drt_model.specs.Utilisation.{rate as rate_of};
ghost use Rattle.drt_graph.specs.Horizon.{extra, constant_of, above_zero};
ghost use Rattle.drt_graph.specs.Horizon.{horizon as horizon_of};
ghost use Rattle.drt_graph.specs.Fits.{AreNear};
ghost use Rattle.drt_rates.specs.RatioClaims.{fraction_of, fractions, potentials};
ghost use Rattle.drt_rates.specs.Rates.{AreRated, IsSmallRatio};
ghost use Rattle.drt_model.specs.Numbers.{most_scale};

use crate::ratio_claim::RatioClaim;
use drt_graph::{Graph, Graphs, constant};

// The constant of a task where it is above 0, at the scale.
fn extra_at(graph: &Graph, ratio: &RatioClaim, scale: u64) -> u128
    requires small { IsSmallRatio (fraction_of ratio.now) }
    requires near { AreNear graph.now ratio.now.potentials }
    requires scale { scale ≤ most_scale }
    ensures value { result ≡ above_zero (constant_of graph.now ratio.now.num ratio.now.den ratio.now.potentials) * (scale / ratio.now.den) }
    ensures most { result ≤ 25364273101350633472000000000000000 }
{
    let above = constant(graph, ratio.num, ratio.den, ratio.potentials.as_slice());
    above as u128 * (scale as u128 / ratio.den as u128)
}

// The sum of the constants at the scale.
fn extra_of(graphs: &Graphs, ratios: &[RatioClaim], scale: u64) -> u128
    requires rated { AreRated graphs.now ratios.now }
    requires scale { scale ≤ most_scale }
    ensures { result ≡ extra scale graphs.now (fractions ratios.now) (potentials ratios.now) }
{
    let mut total: u128 = 0;
    'tasks: for i in 0..graphs.count() {
        total += extra_at(graphs.graph(i), &ratios[i as usize], scale);
    }
    total
}

/// The horizon of a set whose rate is below its scale: no time past it has too much demand. It takes no memory.
///
/// Source: Stigge, Ekberg, Guan and Yi, "The Digraph Real-Time Task Model" (RTAS 2011), with potentials for the constants.
pub fn horizon(graphs: &Graphs, ratios: &[RatioClaim], scale: u64, rate: u128) -> u128
    requires rated { AreRated graphs.now ratios.now }
    requires scale { scale ≤ most_scale }
    requires rate { rate ≡ rate_of scale (fractions ratios.now) }
    requires below { rate < scale }
    ensures { result ≡ horizon_of scale graphs.now (fractions ratios.now) (potentials ratios.now) }
{
    let extra = extra_of(graphs, ratios, scale);
    extra.saturating_sub(scale as u128) / (scale as u128 - rate)
}
