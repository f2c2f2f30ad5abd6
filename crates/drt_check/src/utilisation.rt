//! What claimed ratios come to: whether their utilisation is the claimed one, and the horizon that they give.
ghost use Rattle.std.specs.Prelude.{◌≡◌, ◌≤◌, ◌^◌, ◌↔◌, All, IfSome, IsTrue, Some, length};
ghost use Rattle.drt_model.specs.Utilisation.{IsScale};
ghost use Rattle.drt_claims.specs.Claims.{HaveUtilisationBelowOne, HaveUtilisationOne, IsFine, IsHorizon};
ghost use Rattle.drt_rates.specs.RatioClaims.{fractions};
ghost use Rattle.drt_claims.specs.Ranges.{IsInRangeRatio};
ghost use Rattle.drt_check.specs.Deciding.{HaveHorizon, HaveNearHorizon};
ghost use Rattle.drt_model.specs.Numbers.{most_scale};

use drt_claims::RatioClaim;
use drt_graph::Graphs;
use drt_rates::{horizon, rate, scale};

const GREATEST_HORIZON: u128 = 1 << 40;

/// Whether the scale of the ratios is at most 2^60.
pub fn is_fine(ratios: &[RatioClaim]) -> bool
    requires { All IsInRangeRatio ratios.now }
    ensures { IsTrue result ↔ IsFine ratios.now }
{
    match scale(ratios) {
        Some(_) => true,
        None => false,
    }
}

// That scale, where it is known to be at most 2^60.
fn fine_scale(ratios: &[RatioClaim]) -> u64
    requires in_range { All IsInRangeRatio ratios.now }
    requires fine { IsFine ratios.now }
    ensures scale { IsScale (fractions ratios.now) result }
    ensures most { result ≤ most_scale }
{
    match scale(ratios) {
        Some(common) => common,
        None => unreachable!(),
    }
}

/// Whether the utilisation of the ratios is below one.
pub fn is_below_one(ratios: &[RatioClaim]) -> bool
    requires in_range { All IsInRangeRatio ratios.now }
    requires few { length ratios.now ≤ 32 }
    requires fine { IsFine ratios.now }
    ensures { IsTrue result ↔ HaveUtilisationBelowOne ratios.now }
{
    let common = fine_scale(ratios);
    rate(ratios, common) < common as u128
}

/// Whether the utilisation of the ratios is one.
pub fn is_one(ratios: &[RatioClaim]) -> bool
    requires in_range { All IsInRangeRatio ratios.now }
    requires few { length ratios.now ≤ 32 }
    requires fine { IsFine ratios.now }
    ensures { IsTrue result ↔ HaveUtilisationOne ratios.now }
{
    let common = fine_scale(ratios);
    rate(ratios, common) == common as u128
}

/// Whether the horizon that the ratios and potentials give is at most 2^40 ticks. It is kept as the known one where it is.
pub fn is_horizon_near(graphs: &Graphs, ratios: &[RatioClaim], known: &mut Option<u64>) -> bool
    requires in_range { All IsInRangeRatio ratios.now }
    requires given { HaveHorizon graphs.now ratios.now }
    requires known { IfSome known.old (IsHorizon graphs.now ratios.now) }
    ensures near { IsTrue result ↔ HaveNearHorizon graphs.now ratios.now }
    ensures known { IfSome known.new (IsHorizon graphs.now ratios.now) }
{
    let bound = horizon_of(graphs, ratios);
    if bound > GREATEST_HORIZON {
        return false;
    }
    *known = Some(bound as u64);
    true
}

/// That horizon, where it is known to be at most 2^40 ticks. It is found only where it isn't known yet, and then kept.
pub fn near_horizon(graphs: &Graphs, ratios: &[RatioClaim], known: &mut Option<u64>) -> u64
    requires in_range { All IsInRangeRatio ratios.now }
    requires given { HaveHorizon graphs.now ratios.now }
    requires near { HaveNearHorizon graphs.now ratios.now }
    requires known { IfSome known.old (IsHorizon graphs.now ratios.now) }
    ensures value { IsHorizon graphs.now ratios.now result }
    ensures known { known.new ≡ Some result }
{
    match *known {
        Some(bound) => bound,
        None => {
            let bound = horizon_of(graphs, ratios) as u64;
            *known = Some(bound);
            bound
        }
    }
}

// The horizon.
fn horizon_of(graphs: &Graphs, ratios: &[RatioClaim]) -> u128
    requires in_range { All IsInRangeRatio ratios.now }
    requires given { HaveHorizon graphs.now ratios.now }
    ensures { IsHorizon graphs.now ratios.now result }
{
    graphs.count();
    let common = fine_scale(ratios);
    horizon(graphs, ratios, common, rate(ratios, common))
}
