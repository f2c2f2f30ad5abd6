//! Fractions.
ghost use Rattle.std.specs.Prelude.{◌≡◌, ◌*◌, ◌^◌, ◌≤◌};
ghost use Rattle.std.specs.Ordering.{nat_cmp};
ghost use Rattle.std.specs.Int.{IsGcd};

use std::cmp::Ordering;

/// A fraction in lowest terms. Its denominator is at least 1, so 0 is 0/1.
#[derive(Drop, Clone, Copy, Debug)]
pub struct Ratio {
    num: u128,
    den: u128,
    ghost positive: { 1 ≤ den },
    ghost lowest: { IsGcd num den 1 },
}

impl Ratio {
    /// The fraction `num / den`, brought to lowest terms.
    pub fn new(num: u128, den: u128) -> Ratio
        requires { 1 ≤ den }
        ensures value { result.num * den ≡ num * result.den }
        ensures num_most { result.num ≤ num }
        ensures den_most { result.den ≤ den }
    {
        let common = crate::gcd(num, den);
        Ratio {
            num: num / common,
            den: den / common,
        }
    }

    /// The numerator in lowest terms.
    pub fn num(&self) -> u128
        ensures { result ≡ self.now.num }
    {
        self.num
    }

    /// The denominator in lowest terms.
    pub fn den(&self) -> u128
        ensures value { result ≡ self.now.den }
        ensures positive { 1 ≤ result }
        ensures lowest { IsGcd self.now.num result 1 }
    {
        self.den
    }

    /// How the two fractions stand to each other, by cross multiplication.
    pub fn compare(&self, other: &Ratio) -> Ordering
        requires num { self.now.num ≤ 2 ^ 63 }
        requires den { self.now.den ≤ 2 ^ 63 }
        requires other_num { other.now.num ≤ 2 ^ 63 }
        requires other_den { other.now.den ≤ 2 ^ 63 }
        ensures { result ≡ nat_cmp (self.now.num * other.now.den) (other.now.num * self.now.den) }
    {
        (self.num * other.den).cmp(&(other.num * self.den))
    }
}
