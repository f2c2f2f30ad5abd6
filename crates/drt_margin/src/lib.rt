//! The margin of one vertex: how many ticks its execution time may grow by.
//!
//! A number is within where the set with so many ticks more keeps the limits, is schedulable under the policy and, under EDF, has a
//! utilisation below one. If a number is within, so is every smaller one, which `smaller_is_within` says as a law. So `margin` halves the
//! room up to the deadline and asks the analyses: it gives the greatest number that is within, with the evidence of the set with it and of
//! the set with one tick more. `with_more` and `with_less` make these sets from one another.
#![tactic(auto)]

mod ahead;
mod answer;
mod asking;
mod halving;
mod laws;
mod margins;
mod middles;
mod question;
mod size;
mod times;

pub use answer::{MarginAnswer, MarginTrail, Next};
pub use laws::smaller_is_within;
pub use margins::margin;
pub use question::Question;
pub use times::{wcet_of, with_less, with_more, with_wcet};
