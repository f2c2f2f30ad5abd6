//! The utilisation of a set of tasks, by their ratios.
ghost use Rattle.std.specs.Prelude.{◌≤◌, MatchOption, length};
ghost use Rattle.drt_rates.specs.Rates.{IsTooFine};
ghost use Rattle.drt_ratio.specs.SetRatios.{AreSmall, IsRatioSum, ProofsGiveRatios};
ghost use Rattle.drt_rates.specs.RatioClaims.{fractions};

use drt_num::Ratio;
use drt_rates::{RatioClaim, rate, scale};

/// The utilisation of a set: the sum of its ratios, in lowest terms. None where the scale exceeds 2^60. It takes no memory.
pub fn utilisation(proofs: &[RatioClaim]) -> Option<Ratio>
    requires small { AreSmall proofs.now }
    requires few { length proofs.now ≤ 32 }
    ensures { MatchOption result (IsTooFine (fractions proofs.now)) (λ sum. IsRatioSum (fractions proofs.now) sum.num sum.den) }
{
    let Some(common) = scale(proofs) else {
        return None;
    };
    Some(Ratio::new(rate(proofs, common), common as u128))
}

/// What `greatest` gives for each graph of a set are the ratios of the set.
pub fn proofs_give_ratios()
    ensures { ProofsGiveRatios }
{}
