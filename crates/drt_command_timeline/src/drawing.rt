//! Drawing the replay of releases.
ghost use Rattle.std.specs.Prelude.{◌≢◌, ◌^◌, ◌<◌, ◌≤◌, ℕ, All, IfOk, MatchOption, length};
ghost use Rattle.drt_model.specs.Legal.{IsLegal};
ghost use Rattle.drt_command_timeline.specs.Drawn.{IsDrawn, IsFirstMissEvent, event_at};

use drt_model::{Memory, Policy, Release, Row, TaskSet};
use drt_picture::lay_out;
use drt_timeline::{Event, Mark, lateness_of, timeline_of};
use std::alloc::Global;

// The replay of releases up to a tick, as text, or as a picture.
pub(crate) fn draw(
    alloc: Global,
    svg: bool,
    set: &TaskSet,
    policy: Policy,
    releases: &[Release],
    until: u64,
) -> Result<Row<u8>, Memory>
    requires legal { IsLegal set.now.tasks releases.now }
    requires times { All (λ r. r.time ≤ 10 ^ 18) releases.now }
    requires few { length releases.now < 2 ^ 32 }
    requires within { until ≤ 2 ^ 62 }
    ensures { IfOk result (IsDrawn svg set.now.tasks policy releases.now until) }
{
    let timeline = timeline_of(alloc, set, policy, releases, until)?;
    if !svg {
        return drt_timeline::print(alloc, set, policy, releases, &timeline);
    }
    let spans = timeline.spans.as_slice();
    let events = timeline.events.as_slice();
    let layout = lay_out(alloc, set, releases, spans, events, until)?;
    let late = match first_miss(events) {
        Some(job) => Some(lateness_of(alloc, set, policy, releases, job)?),
        None => None,
    };
    drt_picture::print(alloc, set, policy, releases, late, &layout)
}

// The job of the first miss among events.
fn first_miss(events: &[Event]) -> Option<usize>
    ensures { MatchOption result ((i : ℕ) → i < length events.now → (event_at events.now i).mark ≢ Mark.Miss) (IsFirstMissEvent events.now) }
{
    for i in 0..events.len() {
        match events[i].mark {
            Mark::Miss => return Some(events[i].job),
            _ => {}
        }
    }
    None
}
