use drt_num::{Ratio, gcd, lcm_within};
use std::cmp::Ordering;

#[test]
fn divisors_by_hand(rt: HostRuntime) {
    for (a, b, divisor) in [
        (12, 18, 6),
        (0, 7, 7),
        (7, 0, 7),
        (0, 0, 0),
        (35, 64, 1),
        (1 << 100, 1 << 60, 1 << 60),
    ] {
        assert!(rt; gcd(a, b) == divisor, "of {a}");
    }
}

#[test]
fn a_multiple_at_the_limit_is_given_and_one_beyond_it_is_not(rt: HostRuntime) {
    for (a, b, limit, multiple) in [
        (4, 6, 12, Some(12)),
        (4, 6, 11, None),
        (1, 1, 0, None),
        ((1 << 63) - 1, (1 << 63) - 2, 1 << 63, None),
    ] {
        assert!(rt; lcm_within(a, b, limit) == multiple, "up to {limit}");
    }
}

// Whether 4/12 is a third, and 0/9 is nothing of one.
fn are_lowest() -> bool {
    let third = Ratio::new(4, 12);
    third.num() == 1 && third.den() == 3 && Ratio::new(0, 9).den() == 1
}

// Whether a third is less than 34/100 and as much as 2/6.
fn are_ordered() -> bool {
    let third = Ratio::new(4, 12);
    let more = Ratio::new(34, 100);
    third.compare(&more) == Ordering::Less
        && more.compare(&third) == Ordering::Greater
        && third.compare(&Ratio::new(2, 6)) == Ordering::Equal
}

#[test]
fn fractions_are_in_lowest_terms_and_in_order(rt: HostRuntime) {
    assert!(rt; are_lowest() && are_ordered());
}
