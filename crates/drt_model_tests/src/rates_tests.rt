ghost use Rattle.std.specs.Prelude.{◌≡◌, ◌≤◌};

use drt_model::Row;
use drt_rates::{RatioClaim, rate, scale};
use std::alloc::Global;

// A ratio alone.
fn fraction(alloc: Global, num: u64, den: u64) -> RatioClaim
    ensures num { result.num ≡ num }
    ensures den { result.den ≡ den }
{
    RatioClaim {
        num,
        den,
        cycle: Row::from_vec(Vec::new(alloc)),
        potentials: Row::from_vec(Vec::new(alloc)),
    }
}

// Whether 2/5 and 4/7 make 14 + 20 of 35.
fn are_primes_rated(alloc: Global) -> bool {
    let two = [fraction(alloc, 2, 5), fraction(alloc, 4, 7)];
    scale(&two) == Some(35) && rate(&two, 35) == 34
}

// Whether 1/2 and 3/10 make 5 + 3 of 10.
fn are_tenths_rated(alloc: Global) -> bool {
    let two = [fraction(alloc, 1, 2), fraction(alloc, 3, 10)];
    scale(&two) == Some(10) && rate(&two, 10) == 8
}

// Whether the scale of 1/4 and 1/6 is 12, the least common multiple of 4 and 6.
fn is_shared_least(alloc: Global) -> bool {
    let two = [fraction(alloc, 1, 4), fraction(alloc, 1, 6)];
    scale(&two) == Some(12)
}

// Whether there is no scale where the least common multiple is 499997000005499997000000, above 2^60.
fn is_fine_refused(alloc: Global) -> bool {
    let fine = [
        fraction(alloc, 1, 1000000),
        fraction(alloc, 1, 999999),
        fraction(alloc, 1, 999998),
        fraction(alloc, 1, 999997),
    ];
    scale(&fine) == None
}

#[test]
fn scales_and_rates_by_hand(rt: HostRuntime) {
    assert!(rt; are_primes_rated(rt.alloc()) && are_tenths_rated(rt.alloc()));
    assert!(rt; is_shared_least(rt.alloc()) && is_fine_refused(rt.alloc()));
}
