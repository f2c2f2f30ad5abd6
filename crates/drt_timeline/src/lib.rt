//! What runs when: the replay of a list of releases as spans, in each of which one job runs, and events.
//!
//! The command `timeline` stands on it. `timeline_of` gives the spans and the events up to a tick, each exact by the trace of `drt_model`
//! (`specs/Spans.antt`, `specs/Events.antt`), `lateness_of` how late a job that misses finishes, and `print` the text of spans and events
//! (`specs/Text.antt`). The ticks are run by the board of `drt_replay`.
#![tactic(auto)]

pub mod event;
mod gathering;
mod lateness;
mod names;
mod running;
pub mod span;
mod text;
pub mod timeline;

pub use event::{Event, Mark};
pub use lateness::lateness_of;
pub use span::Span;
pub use text::print;
pub use timeline::{Timeline, timeline_of};
