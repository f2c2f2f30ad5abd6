//! The plan of a set.
ghost use Rattle.drt_horizon.specs.Given.{AreGiven};
ghost use Rattle.drt_horizon.specs.Plans.{IsHorizonPlan};

use crate::answers::{Beyond, Horizon};
use drt_graph::Graphs;
use drt_rates::{RatioClaim, horizon, rate, scale};

const GREATEST_BOUND: u128 = 1 << 40;

/// How the utilisation stands to one, and the horizon where it is below: no time past it has too much demand. TooFine where
/// the ratios have no common scale of at most 2^60, TooFar where the horizon exceeds 2^40 ticks. It takes no memory.
///
/// Source: Stigge, Ekberg, Guan and Yi, "The Digraph Real-Time Task Model" (RTAS 2011), with potentials for the constants.
pub fn plan(graphs: &Graphs, proofs: &[RatioClaim]) -> Result<Horizon, Beyond>
    requires { AreGiven graphs.now proofs.now }
    ensures { IsHorizonPlan graphs.now proofs.now result }
{
    graphs.keep_limits();
    let Some(common) = scale(proofs) else {
        return Err(Beyond::TooFine);
    };
    let sum = rate(proofs, common);
    if sum == common as u128 {
        return Ok(Horizon::One);
    }
    if sum > common as u128 {
        return Ok(Horizon::Over);
    }
    let bound = horizon(graphs, proofs, common, sum);
    if bound > GREATEST_BOUND {
        return Err(Beyond::TooFar);
    }
    Ok(Horizon::Under {
        bound: bound as u64,
    })
}
