//! The rules of the independent checker on claimed fronts.
//!
//! A yes under EDF comes with a front for each task: entries in order within a bound, one of which covers each walk that is due within
//! it. `are_in_order`, `have_openings`, `are_closed` and `have_room` decide what the rules of `drt_claims/specs/Rules.antt` ask of
//! them, in this order: each once those before it are kept. The bound is any; the checker above gives them the horizon.
//!
//! Once a front is known to be in order, the entry that covers a label is found near that of the label before it, which the same edge
//! gives, or else by a binary search. So all rules together take a time of about the number of the entries, times the edges out of a
//! vertex, and at most times the logarithm of that number. The crate stands on none of the search.
#![tactic(auto)]

mod closing;
mod covering;
mod opening;
mod order;
mod room;

pub use closing::are_closed;
pub use opening::have_openings;
pub use order::are_in_order;
pub use room::have_room;
