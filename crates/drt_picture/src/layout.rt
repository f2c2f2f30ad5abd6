//! The layout of a page.
ghost use Rattle.std.specs.Prelude.{◌≡◌, ◌+◌, ◌*◌, ◌^◌, ◌<◌, ◌≤◌, All, IfOk, length, take, drop};
ghost use Rattle.drt_model.specs.Legal.{AllNeighbours, IsLegal};
ghost use Rattle.drt_timeline.specs.Spans.{IsNextSpan};
ghost use Rattle.drt_picture.specs.Layout.{IsEventOf, IsLayout, IsSpanOf, from_of, start_of};
ghost use Rattle.drt_picture.specs.Reach.{Reach};
ghost use Rattle.drt_picture.specs.Moments.{IsGap, IsPart, IsMomentWithin, moments_of};
ghost use Rattle.drt_picture.specs.Scale.{IsPageScale};

use crate::axis::{Cut, Tick, cuts_of, ticks_of};
use crate::bars::{Arrow, Bar, arrows_of, bars_of};
use crate::moments::{moments_of, parts_of};
use crate::scale::{PAGE_WIDTH, Scale};
use crate::widths::{names_width, number_width};
use drt_model::{Memory, Release, Row, TaskSet};
use drt_timeline::{Event, Span};
use std::alloc::Global;

/// A page: what stands where, in tenths of a pixel. The picture begins at tick `from`, and leaves out the first `hidden` spans and the
/// first `early` events.
#[derive(Debug, Drop)]
pub struct Layout {
    pub from: u64,
    pub hidden: usize,
    pub early: usize,
    pub height: u32,
    pub scale: Scale,
    pub bars: Row<Bar>,
    pub arrows: Row<Arrow>,
    pub ticks: Row<Tick>,
    pub cuts: Row<Cut>,
}

/// A picture has at most so many bars: the last ones.
pub const MOST_BARS: usize = 10_000;

/// The size of the axis's numbers, in pixels.
pub const SMALL_FONT: u32 = 11;

/// The size of names and texts, in pixels.
pub const FONT: u32 = 13;

// The blank between two numbers of the axis, at the right of the drawing area, and at both sides of the names.
const BLANK: u32 = 240;

// The names of tasks have at least and at most this width.
const LEAST_LEFT: u32 = 800;

const MOST_LEFT: u32 = 3_000;

/// Where the first row begins.
pub const HEAD: u32 = 720;

/// The height of a row.
pub const ROW_HEIGHT: u32 = 480;

/// The height of the axis with its numbers.
pub const AXIS_HEIGHT: u32 = 480;

/// The height of a line of text.
pub const LINE_HEIGHT: u32 = 180;

/// So many cuts are told in a line.
pub const CUTS_A_LINE: usize = 2;

/// The page of a schedule: the last spans, and what happens from the start of the first of them on, up to tick `until`.
pub fn lay_out(
    alloc: Global,
    set: &TaskSet,
    releases: &[Release],
    spans: &[Span],
    events: &[Event],
    until: u64,
) -> Result<Layout, Memory>
    requires legal { IsLegal set.now.tasks releases.now }
    requires each_span { All (IsSpanOf (length releases.now) until) spans.now }
    requires spans_in_order { AllNeighbours IsNextSpan spans.now }
    requires each_event { All (IsEventOf (length releases.now) until) events.now }
    requires events_in_order { AllNeighbours (λ e f. e.time ≤ f.time) events.now }
    requires in_time { until ≤ 2 ^ 62 }
    ensures { IfOk result (λ layout. IsLayout set.now.tasks releases.now spans.now events.now until layout) }
{
    let hidden = spans.len().saturating_sub(MOST_BARS);
    let drawn = &spans[hidden..];
    let from = from_of(hidden, drawn);
    let early = count_before(events, from);
    let later = &events[early..];
    let scale = scale_of(alloc, set, drawn, later, from, until)?;
    let bars = bars_of(alloc, &scale, releases, drawn)?;
    let arrows = arrows_of(alloc, &scale, releases, later)?;
    let ticks = ticks_of(alloc, &scale, number_space(until))?;
    let cuts = cuts_of(alloc, &scale)?;
    let height = height_of(set.tasks().len(), scale.parts.as_slice().len());
    Ok(Layout {
        from,
        hidden,
        early,
        height,
        scale,
        bars: Row::from_vec(bars),
        arrows: Row::from_vec(arrows),
        ticks: Row::from_vec(ticks),
        cuts: Row::from_vec(cuts),
    })
}

// Where the picture begins: at tick 0 where no span is hidden, else where the first span that is shown does.
fn from_of(hidden: usize, shown: &[Span]) -> u64
    ensures { result ≡ from_of hidden shown.now }
{
    if hidden == 0 { 0 } else { start_of(shown) }
}

// The start of the first span.
fn start_of(spans: &[Span]) -> u64
    ensures { result ≡ start_of spans.now }
{
    match spans.first() {
        Some(span) => span.start,
        None => 0,
    }
}

// How many of the events come before a time.
fn count_before(events: &[Event], time: u64) -> usize
    requires { AllNeighbours (λ e f. e.time ≤ f.time) events.now }
    ensures early { All (λ e. e.time < time) (take result events.now) }
    ensures later { All (λ e. time ≤ e.time) (drop result events.now) }
    ensures within { result ≤ length events.now }
{
    for (i, event) in events.iter().enumerate() {
        if event.time >= time {
            return i;
        }
    }
    events.len()
}

// The scale of spans and events.
fn scale_of(
    alloc: Global,
    set: &TaskSet,
    spans: &[Span],
    events: &[Event],
    from: u64,
    until: u64,
) -> Result<Scale, Memory>
    requires each { All (IsMomentWithin from until) (moments_of spans.now events.now until) }
    requires in_time { until ≤ 2 ^ 62 }
    requires ahead { from ≤ until }
    ensures scale { IfOk result (λ scale. IsPageScale scale) }
    ensures until_is { IfOk result (λ scale. scale.until ≡ until) }
    ensures reach { IfOk result (λ scale. Reach from until scale.parts) }
    ensures each { IfOk result (λ scale. All (IsPart until) scale.parts) }
    ensures cuts { IfOk result (λ scale. AllNeighbours (IsGap (moments_of spans.now events.now until)) scale.parts) }
{
    let moments = moments_of(alloc, spans, events, until)?;
    let parts = parts_of(alloc, moments.as_slice(), from, until)?;
    let left = left_of(set);
    Ok(Scale {
        until,
        left,
        width: PAGE_WIDTH - BLANK - left,
        parts: Row::from_vec(parts),
    })
}

// Where the drawing area begins: behind the names of the tasks.
fn left_of(set: &TaskSet) -> u32
    ensures { result ≤ 3000 }
{
    let width = names_width(set, FONT).min(u64::from(MOST_LEFT - BLANK)) as u32;
    (width + BLANK).max(LEAST_LEFT)
}

// The space of a number of the axis, with a blank.
fn number_space(until: u64) -> u32 {
    number_width(until, SMALL_FONT).min(u64::from(PAGE_WIDTH)) as u32 + BLANK
}

// The height of a page with rows for so many tasks and notes on the cuts between so many parts.
fn height_of(tasks: usize, parts: usize) -> u32
    requires few_tasks { tasks ≤ 32 }
    requires few_parts { parts ≤ 17 }
    ensures { 720 + 480 * tasks ≤ result }
{
    let lines = parts.saturating_sub(1).div_ceil(CUTS_A_LINE);
    HEAD + ROW_HEIGHT * tasks as u32 + AXIS_HEIGHT + LINE_HEIGHT * lines as u32
}
