//! The text of a timeline.
ghost use Rattle.std.specs.Prelude.{◌≡◌, ◌++◌, ◌∷◌, ◌<◌, ◌≤◌, All, IfOk, OnOk, drop, length};
ghost use Rattle.drt_file.specs.trusted.Canonical.{written, written_line};
ghost use Rattle.drt_model.specs.Legal.{IsLegal};
ghost use Rattle.drt_timeline.specs.Text.{event_line, event_lines, timeline_head_lines, job_fields, mark_word, span_line, timeline_lines, timeline_text};
ghost use Rattle.drt_file.specs.trusted.Words.{policy_word};
ghost use Rattle.drt_timeline.specs.Printing.{IsPrintedUntil};

use crate::event::{Event, Mark};
use crate::names::Names;
use crate::span::Span;
use crate::timeline::Timeline;
use drt_file::push_line;
use drt_model::{Memory, Policy, Release, Row, TaskSet};
use itoa::Buffer;
use std::alloc::Global;

/// The text of a timeline of releases, in bytes: its policy, and a line for each span and each event in order of time, between the first
/// line and the last. Fields are parted by one space, lines ended by LF, and jobs named by task, vertex and index.
pub fn print(
    alloc: Global,
    set: &TaskSet,
    policy: Policy,
    releases: &[Release],
    timeline: &Timeline,
) -> Result<Row<u8>, Memory>
    requires legal { IsLegal set.now.tasks releases.now }
    requires spans { All (λ s. s.job < length releases.now) timeline.now.spans }
    requires events { All (λ e. e.job < length releases.now) timeline.now.events }
    ensures { IfOk result (λ text. text ≡ timeline_text set.now.tasks policy releases.now timeline.now) }
{
    let names = Names::of(alloc, set.tasks(), releases)?;
    let mut text = Vec::new(alloc);
    push_head(&mut text, policy)?;
    push_lines(
        &mut text,
        &names,
        timeline.spans.as_slice(),
        timeline.events.as_slice(),
    )?;
    push_line(&mut text, &[b"close".as_slice()])?;
    Ok(Row::from_vec(text))
}

// Adds the lines above the spans and events.
fn push_head(text: &mut Vec<u8>, policy: Policy) -> Result<(), Memory>
    ensures { OnOk result (text.new.items ≡ text.old.items ++ written (timeline_head_lines policy)) }
{
    push_line(text, &[b"drt-timeline".as_slice(), b"1"])?;
    push_line(text, &[b"policy".as_slice(), policy_word(policy)])?;
    Ok(())
}

// The keyword of a policy.
fn policy_word(policy: Policy) -> &'static [u8]
    ensures { result.now ≡ policy_word policy }
{
    match policy {
        Policy::Edf => b"edf",
        Policy::Fixed => b"fixed",
    }
}

// Adds the lines of spans and events.
fn push_lines(
    text: &mut Vec<u8>,
    names: &Names,
    spans: &[Span],
    events: &[Event],
) -> Result<(), Memory>
    requires spans { All (λ s. s.job < length names.now.releases) spans.now }
    requires events { All (λ e. e.job < length names.now.releases) events.now }
    ensures { OnOk result (text.new.items ≡ text.old.items ++ written (timeline_lines names.now.tasks names.now.releases spans.now events.now)) }
{
    let mut next = 0;
    for span in spans {
        next = push_events_until(text, names, events, next, span.start)?;
        push_span(text, names, *span)?;
    }
    push_events_from(text, names, events, next)
}

// Adds the lines of the events from a place on up to a time, and says where those behind them begin.
fn push_events_until(
    text: &mut Vec<u8>,
    names: &Names,
    events: &[Event],
    start: usize,
    time: u64,
) -> Result<usize, Memory>
    requires start { start ≤ length events.now }
    requires events { All (λ e. e.job < length names.now.releases) events.now }
    ensures within { IfOk result (λ next. next ≤ length events.now) }
    ensures printed { IfOk result (IsPrintedUntil names.now events.now start time text.old.items text.new.items) }
{
    let mut next = start;
    while next < events.len() && events[next].time <= time {
        push_event(text, names, events[next])?;
        next += 1;
    }
    Ok(next)
}

// Adds the lines of the events from a place on.
fn push_events_from(
    text: &mut Vec<u8>,
    names: &Names,
    events: &[Event],
    start: usize,
) -> Result<(), Memory>
    requires start { start ≤ length events.now }
    requires events { All (λ e. e.job < length names.now.releases) events.now }
    ensures { OnOk result (text.new.items ≡ text.old.items ++ written (event_lines names.now.tasks names.now.releases (drop start events.now))) }
{
    for next in start..events.len() {
        push_event(text, names, events[next])?;
    }
    Ok(())
}

// Adds the line of an event.
fn push_event(text: &mut Vec<u8>, names: &Names, event: Event) -> Result<(), Memory>
    requires { event.job < length names.now.releases }
    ensures { OnOk result (text.new.items ≡ text.old.items ++ written_line (event_line names.now.tasks names.now.releases event)) }
{
    let mut time = Buffer::new();
    push_job(
        text,
        mark_word(event.mark),
        time.format(event.time).as_bytes(),
        names,
        event.job,
    )
}

// The keyword of a mark.
fn mark_word(mark: Mark) -> &'static [u8]
    ensures { result.now ≡ mark_word mark }
{
    match mark {
        Mark::Finish => b"finish",
        Mark::Deadline => b"deadline",
        Mark::Miss => b"miss",
        Mark::Release => b"release",
    }
}

// Adds the line of a span.
fn push_span(text: &mut Vec<u8>, names: &Names, span: Span) -> Result<(), Memory>
    requires { span.job < length names.now.releases }
    ensures { OnOk result (text.new.items ≡ text.old.items ++ written_line (span_line names.now.tasks names.now.releases span)) }
{
    let mut start = Buffer::new();
    let mut end = Buffer::new();
    push_job(
        text,
        start.format(span.start).as_bytes(),
        end.format(span.end).as_bytes(),
        names,
        span.job,
    )
}

// Adds a line of two fields and of those that name a job.
fn push_job<'b>(
    text: &mut Vec<u8>,
    first: &'b [u8],
    second: &'b [u8],
    names: &'b Names,
    job: usize,
) -> Result<(), Memory>
    requires { job < length names.now.releases }
    ensures { OnOk result (text.new.items ≡ text.old.items ++ written_line (first.now ∷ second.now ∷ job_fields names.now.tasks names.now.releases job)) }
{
    let mut index = Buffer::new();
    push_line(
        text,
        &[
            first,
            second,
            names.task(job),
            names.vertex(job),
            index.format(names.index(job)).as_bytes(),
        ],
    )
}
