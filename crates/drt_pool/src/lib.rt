//! Workers that take turns on their passes.
//!
//! What a search shares between workers is stepped through passes, one for each worker. `run_all` turns each pass until it
//! answers Stop. The layer above says by `Work` what a turn is and what it keeps of a pass, and by a `Gate` it sees each turn
//! before it begins. Threads are begun only for a search that is long enough to gain by them.
#![tactic(auto)]

mod gate;
mod run;
mod work;

pub use gate::{EagerGate, Gate, OpenGate};
pub use run::run_all;
pub use work::{Turn, Work};
