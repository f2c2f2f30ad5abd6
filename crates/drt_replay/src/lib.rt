//! The replay of one list of releases on the tick machine.
//!
//! A `Board` shows the machine after so many ticks. It goes from event to event: to the next release, the
//! next finish of the running job, or the tick that is asked for, whichever comes first, so its cost goes
//! with the number of releases and not with their times. The layers above use `Board::start`, `run_until`, `run_to_change`, `first_miss`,
//! `finish_time` and `finish_at`, each exact by the trace of `drt_model`.
#![tactic(auto)]

mod board;
mod events;
mod jobs;
mod late;
mod made;
mod queue;
mod stretch;

pub use board::Board;
