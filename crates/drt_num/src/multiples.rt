//! Greatest common divisors and least common multiples.
ghost use Rattle.std.specs.Prelude.{ℕ, ◌^◌, ◌<◌, ◌≤◌, MatchOption};
ghost use Rattle.std.specs.Int.{IsGcd};
ghost use Rattle.drt_num.specs.Multiple.{IsLcm};

/// The greatest common divisor of `a` and `b`, by Euclid's algorithm. That of 0 and `b` is `b`.
pub fn gcd(a: u128, b: u128) -> u128
    ensures { IsGcd a b result }
{
    let mut x = a;
    let mut y = b;
    'steps: while y != 0 {
        let rest = x % y;
        x = y;
        y = rest;
    }
    x
}

/// The least common multiple of `a` and `b`, or None where it exceeds `limit`.
pub fn lcm_within(a: u128, b: u128, limit: u128) -> Option<u128>
    requires a_positive { 1 ≤ a }
    requires b_positive { 1 ≤ b }
    requires a_small { a < 2 ^ 63 }
    requires b_small { b < 2 ^ 63 }
    requires limit_small { limit ≤ 2 ^ 63 }
    ensures { MatchOption result ((m : ℕ) × IsLcm a b m × (limit < m)) (λ m. IsLcm a b m × (m ≤ limit)) }
{
    let multiple = a / gcd(a, b) * b;
    if multiple <= limit {
        Some(multiple)
    } else {
        None
    }
}
