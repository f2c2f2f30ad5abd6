//! The scale and the rate of a set.
ghost use Rattle.std.specs.Prelude.{◌≡◌, ◌^◌, ◌≤◌, All, MatchOption, length};
ghost use Rattle.drt_model.specs.Utilisation.{IsScale};
ghost use Rattle.drt_model.specs.Utilisation.{rate as rate_of};
ghost use Rattle.drt_rates.specs.RatioClaims.{fraction_of, fractions};
ghost use Rattle.drt_rates.specs.Rates.{IsSmallRatio, IsTooFine};
ghost use Rattle.drt_model.specs.Numbers.{most_scale};

use crate::ratio_claim::RatioClaim;
use drt_num::lcm_within;

const GREATEST_SCALE: u64 = 1 << 60;

/// The scale of a set: the least common multiple of the denominators of its ratios. None where it exceeds 2^60. It takes
/// no memory.
pub fn scale(ratios: &[RatioClaim]) -> Option<u64>
    requires { All (λ c. IsSmallRatio (fraction_of c)) ratios.now }
    ensures { MatchOption result (IsTooFine (fractions ratios.now)) (λ scale. IsScale (fractions ratios.now) scale × (scale ≤ most_scale)) }
{
    let mut common: u64 = 1;
    'ratios: for i in 0..ratios.len() {
        let ratio = &ratios[i];
        let Some(next) = lcm_within(common as u128, ratio.den as u128, GREATEST_SCALE as u128)
        else {
            return None;
        };
        common = next as u64;
    }
    Some(common)
}

/// The rate of a set: the sum of its ratios, times the scale. It takes no memory.
pub fn rate(ratios: &[RatioClaim], scale: u64) -> u128
    requires small { All (λ c. IsSmallRatio (fraction_of c)) ratios.now }
    requires few { length ratios.now ≤ 32 }
    ensures { result ≡ rate_of scale (fractions ratios.now) }
{
    let mut total: u128 = 0;
    'ratios: for i in 0..ratios.len() {
        let ratio = &ratios[i];
        total += ratio.num as u128 * (scale as u128 / ratio.den as u128);
    }
    total
}
