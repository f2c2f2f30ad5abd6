//! Bars and arrows.
ghost use Rattle.std.specs.Prelude.{◌≡◌, ◌<◌, ◌≤◌, All, IfOk, length, map};
ghost use Rattle.drt_picture.specs.Layout.{IsEventOf, IsSpanOf, arrow_of, bar_of};
ghost use Rattle.drt_picture.specs.Scale.{IsPageScale};

use crate::scale::{Scale, x_of};
use drt_model::{Memory, Release};
use drt_timeline::{Event, Span};
use std::alloc::Global;

/// A span's bar: it stands in a row, and reaches from its left to its right, in tenths of a pixel from the page's left.
#[derive(Debug, Clone, Copy, PartialEq, Eq)]
pub struct Bar {
    pub span: Span,
    pub row: u32,
    pub left: u32,
    pub right: u32,
}

/// An event's arrow: it stands in a row, at a place in tenths of a pixel from the page's left. A finish has one too, which isn't drawn.
#[derive(Debug, Clone, Copy, PartialEq, Eq)]
pub struct Arrow {
    pub event: Event,
    pub row: u32,
    pub x: u32,
}

/// The bars of spans, each in the row of its task.
pub fn bars_of(
    alloc: Global,
    scale: &Scale,
    releases: &[Release],
    spans: &[Span],
) -> Result<Vec<Bar>, Memory>
    requires scale { IsPageScale scale.now }
    requires each { All (IsSpanOf (length releases.now) scale.now.until) spans.now }
    ensures { IfOk result (λ bars. bars.items ≡ map (bar_of scale.now releases.now) spans.now) }
{
    let mut bars = Vec::new(alloc);
    for span in spans {
        bars.push(bar_of(scale, releases, *span))?;
    }
    Ok(bars)
}

fn bar_of(scale: &Scale, releases: &[Release], span: Span) -> Bar
    requires scale { IsPageScale scale.now }
    requires span { IsSpanOf (length releases.now) scale.now.until span }
    ensures { result ≡ bar_of scale.now releases.now span }
{
    Bar {
        span,
        row: releases[span.job].task,
        left: x_of(scale, span.start),
        right: x_of(scale, span.end),
    }
}

/// The arrows of events, each in the row of its task.
pub fn arrows_of(
    alloc: Global,
    scale: &Scale,
    releases: &[Release],
    events: &[Event],
) -> Result<Vec<Arrow>, Memory>
    requires scale { IsPageScale scale.now }
    requires each { All (IsEventOf (length releases.now) scale.now.until) events.now }
    ensures { IfOk result (λ arrows. arrows.items ≡ map (arrow_of scale.now releases.now) events.now) }
{
    let mut arrows = Vec::new(alloc);
    for event in events {
        arrows.push(arrow_of(scale, releases, *event))?;
    }
    Ok(arrows)
}

fn arrow_of(scale: &Scale, releases: &[Release], event: Event) -> Arrow
    requires scale { IsPageScale scale.now }
    requires event { IsEventOf (length releases.now) scale.now.until event }
    ensures { result ≡ arrow_of scale.now releases.now event }
{
    Arrow {
        event,
        row: releases[event.job].task,
        x: x_of(scale, event.time),
    }
}
