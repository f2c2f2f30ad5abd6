//! Exact whole numbers and fractions.
//!
//! The layers above compare ratios of work to time and bring them to one scale, so they need greatest common divisors,
//! least common multiples within a limit, and fractions in lowest terms. `Ratio` keeps that its denominator is
//! positive and that it is in lowest terms. No call here takes memory.
#![tactic(auto)]

mod multiples;
mod ratio;

pub use multiples::{gcd, lcm_within};
pub use ratio::Ratio;
