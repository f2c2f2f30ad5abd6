//! The spans and the events of a replay.
ghost use Rattle.std.specs.Prelude.{◌^◌, ◌<◌, ◌≤◌, All, IfOk, length};
ghost use Rattle.drt_model.specs.Legal.{IsLegal};
ghost use Rattle.drt_model.specs.Schedulable.{jobs_of};
ghost use Rattle.drt_timeline.specs.Timeline.{IsTimeline};

use crate::event::Event;
use crate::gathering::events_of;
use crate::running::spans_of;
use crate::span::Span;
use drt_model::{Memory, Policy, Release, Row, TaskSet};
use drt_replay::Board;
use std::alloc::Global;

/// The spans and the events of a replay.
#[derive(Debug, Drop)]
pub struct Timeline {
    pub spans: Row<Span>,
    pub events: Row<Event>,
}

/// The replay of releases on the tick machine: the spans of the ticks before `until`, and the events not after it. The releases are
/// legal, at times of at most 10^18 ticks. Its cost goes with the number of releases and not with their times.
pub fn timeline_of(
    alloc: Global,
    set: &TaskSet,
    policy: Policy,
    releases: &[Release],
    until: u64,
) -> Result<Timeline, Memory>
    requires legal { IsLegal set.now.tasks releases.now }
    requires times { All (λ r. r.time ≤ 10 ^ 18) releases.now }
    requires few { length releases.now < 2 ^ 32 }
    ensures timeline { IfOk result (IsTimeline policy (jobs_of set.now.tasks releases.now) until) }
    ensures spans_here { IfOk result (λ timeline. All (λ s. s.job < length releases.now) timeline.spans) }
    ensures events_here { IfOk result (λ timeline. All (λ e. e.job < length releases.now) timeline.events) }
{
    let mut board = Board::start(alloc, set, policy, releases)?;
    let spans = spans_of(alloc, &mut board, until)?;
    let events = events_of(alloc, &board)?;
    Ok(Timeline {
        spans: Row::from_vec(spans),
        events: Row::from_vec(events),
    })
}
