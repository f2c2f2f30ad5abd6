//! What happens in a picture, in order of time, and the parts of time that it shows.
ghost use Rattle.std.specs.Prelude.{◌≡◌, ◌↔◌, ◌+◌, ◌^◌, ◌<◌, ◌≤◌, ◌++◌, All, IsTrue, IfOk, OnOk, IsPermutation, length, map};
ghost use Rattle.std.specs.List.Sorted.{IsNonDecreasingBy};
ghost use Rattle.drt_model.specs.Legal.{AllNeighbours};
ghost use Rattle.drt_picture.specs.Reach.{Reach};
ghost use Rattle.drt_picture.specs.Moments.{IsGap, IsPart, IsMomentWithin, moment_of_event, moment_of_span, moments_of};

use crate::scale::{MOST_CUTS, Part};
use drt_model::Memory;
use drt_timeline::{Event, Span};
use std::alloc::Global;

/// Ticks in which something happens, from tick `start` up to tick `end`: a span, or an event, which takes no tick.
#[derive(Debug, Clone, Copy, PartialEq, Eq)]
pub struct Moment {
    pub start: u64,
    pub end: u64,
}

/// A picture of at most so many ticks isn't cut.
const SHORT: u64 = 400;

/// An idle stretch is cut where it is longer than this part of what is left of the picture.
const SMALL_PART: u64 = 20;

/// What happens, in order of time: the spans, the events, and the end.
pub fn moments_of(
    alloc: Global,
    spans: &[Span],
    events: &[Event],
    until: u64,
) -> Result<Vec<Moment>, Memory>
    ensures { IfOk result (λ moments. IsPermutation (moments_of spans.now events.now until) moments.items × IsNonDecreasingBy (λ m. m.start) moments.items) }
{
    let mut moments = list_moments(alloc, spans, events, until)?;
    moments.sort_by_key(
        |moment: &Moment| -> u64
            ensures { result ≡ moment.now.start }
        { moment.start },
    )?;
    Ok(moments)
}

// What happens, in no order.
fn list_moments(
    alloc: Global,
    spans: &[Span],
    events: &[Event],
    until: u64,
) -> Result<Vec<Moment>, Memory>
    ensures { IfOk result (λ moments. moments.items ≡ moments_of spans.now events.now until) }
{
    let mut moments = span_moments(alloc, spans)?;
    push_events(&mut moments, events)?;
    moments.push(Moment {
        start: until,
        end: until,
    })?;
    Ok(moments)
}

// The moments of spans.
fn span_moments(alloc: Global, spans: &[Span]) -> Result<Vec<Moment>, Memory>
    ensures { IfOk result (λ moments. moments.items ≡ map moment_of_span spans.now) }
{
    spans
        .iter()
        .map(|span| Moment {
            start: span.start,
            end: span.end,
        })
        .collect(alloc)
}

// Puts the moments of events behind others.
fn push_events(moments: &mut Vec<Moment>, events: &[Event]) -> Result<(), Memory>
    ensures { OnOk result (moments.new.items ≡ moments.old.items ++ map moment_of_event events.now) }
{
    for event in events {
        moments.push(Moment {
            start: event.time,
            end: event.time,
        })?;
    }
    Ok(())
}

/// The parts of time that the picture shows, from `from` to `until`: all but the long stretches in which nothing happens.
#[tactic(auto, using(crate::proofs::ReachLemmas::reach_all))]
pub fn parts_of(
    alloc: Global,
    moments: &[Moment],
    from: u64,
    until: u64,
) -> Result<Vec<Part>, Memory>
    requires order { IsNonDecreasingBy (λ m. m.start) moments.now }
    requires each { All (IsMomentWithin from until) moments.now }
    requires in_time { until ≤ 2 ^ 62 }
    requires ahead { from ≤ until }
    ensures few { IfOk result (λ parts. length parts.items ≤ 17) }
    ensures reach { IfOk result (λ parts. Reach from until parts.items) }
    ensures each { IfOk result (λ parts. All (IsPart until) parts.items) }
    ensures cuts { IfOk result (λ parts. AllNeighbours (IsGap moments.now) parts.items) }
{
    let longest = longest_shown(alloc, moments, from, until)?;
    let margin = longest / 2;
    let mut parts = Vec::new(alloc);
    let mut start = from;
    let mut reached = from;
    for moment in moments {
        if is_long(parts.len(), reached, moment.start, longest) {
            parts.push(Part {
                start,
                end: reached + margin,
            })?;
            start = moment.start - margin;
        }
        reached = reached.max(moment.end);
    }
    parts.push(Part { start, end: until })?;
    Ok(parts)
}

// Whether a stretch in which nothing happens is longer than the longest that is shown, and there is one more part to be had.
fn is_long(parts: usize, reached: u64, start: u64, longest: u64) -> bool
    ensures { IsTrue result ↔ ((parts < 16) × (reached + longest < start)) }
{
    parts < MOST_CUTS && start.saturating_sub(reached) > longest
}

// The longest stretch in which nothing happens that is still shown.
fn longest_shown(alloc: Global, moments: &[Moment], from: u64, until: u64) -> Result<u64, Memory> {
    let all = until.saturating_sub(from);
    let mut stretches = idle_stretches(alloc, moments, from)?;
    stretches.sort()?;
    let kept = kept_of(all, stretches.as_slice());
    if all <= SHORT || kept > all / 2 {
        return Ok(u64::MAX);
    }
    Ok((kept / SMALL_PART).max(2))
}

// The lengths of the stretches in which nothing happens.
fn idle_stretches(alloc: Global, moments: &[Moment], from: u64) -> Result<Vec<u64>, Memory> {
    let mut stretches = Vec::new(alloc);
    let mut reached = from;
    for moment in moments {
        if moment.start > reached {
            stretches.push(moment.start - reached)?;
        }
        reached = reached.max(moment.end);
    }
    Ok(stretches)
}

// How many of `all` ticks are left when the longest of ascending stretches are cut, each while it is long beside what is left.
fn kept_of(all: u64, stretches: &[u64]) -> u64 {
    let mut kept = all;
    for stretch in stretches.iter().rev().take(MOST_CUTS) {
        if *stretch <= kept / SMALL_PART {
            return kept;
        }
        kept = kept.saturating_sub(*stretch);
    }
    kept
}
