//! Claimed tails and states: what a yes under fixed priorities shows in place of trees of walks.
//!
//! A tail bounds, for each vertex of a task, what walks that start there ask for. A state stands for combinations of walks of the
//! tasks of higher priority of which only the ends matter: at some places the vertex at which the walk stands and since when, and
//! the work before these. Either a time passes for all that a state stands for, or its walk at one place moves on, and each of the
//! states after that is dominated by a state of the same search.
//!
//! `specs/` says what a checker asks of them (Tails.antt, States.antt), over lists, numbers and graphs alone.
#![tactic(auto)]

mod claims;

pub use claims::{Jump, SearchClaim, StateClaim, StateEnd, StateEntry, TailClaim};
