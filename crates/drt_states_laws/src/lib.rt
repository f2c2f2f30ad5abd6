//! What claimed tails and states say of the walks of the tasks.
//!
//! Each function does nothing. Its contract is a law of the definitions of `drt_states`, for the layers above to cite: call the
//! function, and its `ensures` is at hand.
#![tactic(auto)]

pub mod laws;

pub use laws::{states_pass, tails_bound};
