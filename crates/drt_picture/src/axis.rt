//! The axis of time.
ghost use Rattle.std.specs.Prelude.{◌<◌, All, IfOk, IfSome, OnOk};
ghost use Rattle.drt_picture.specs.Layout.{IsCutMark, IsAxisTick};
ghost use Rattle.drt_picture.specs.Scale.{IsPageScale};

use crate::scale::{Part, Scale, room, shown_before, x_of};
use drt_model::Memory;
use std::alloc::Global;

/// A tick of the axis: its time, and its place in tenths of a pixel from the page's left.
#[derive(Debug, Clone, Copy, PartialEq, Eq)]
pub struct Tick {
    pub time: u64,
    pub x: u32,
}

/// The mark of a cut: between two parts the ticks from `start` to `end` aren't shown, and the mark reaches from its left to its right,
/// in tenths of a pixel from the page's left.
#[derive(Debug, Clone, Copy, PartialEq, Eq)]
pub struct Cut {
    pub start: u64,
    pub end: u64,
    pub left: u32,
    pub right: u32,
}

/// The marks of the cuts of a scale, in order.
pub fn cuts_of(alloc: Global, scale: &Scale) -> Result<Vec<Cut>, Memory>
    requires { IsPageScale scale.now }
    ensures { IfOk result (λ cuts. All (IsCutMark scale.now) cuts.items) }
{
    let parts = scale.parts.as_slice();
    let mut cuts = Vec::new(alloc);
    for i in 1..parts.len() {
        cuts.push(cut_between(scale, parts[i - 1], parts[i]))?;
    }
    Ok(cuts)
}

// The cut between two parts.
fn cut_between(scale: &Scale, first: Part, second: Part) -> Cut
    requires { IsPageScale scale.now }
    ensures { IsCutMark scale.now result }
{
    let end = second.start.min(scale.until);
    let start = first.end.min(end);
    Cut {
        start,
        end,
        left: x_of(scale, start),
        right: x_of(scale, end),
    }
}

/// The ticks of the axis of a scale: the multiples of a round number of ticks that the picture shows, at least `space` tenths of a
/// pixel apart.
pub fn ticks_of(alloc: Global, scale: &Scale, space: u32) -> Result<Vec<Tick>, Memory>
    requires { IsPageScale scale.now }
    ensures { IfOk result (λ ticks. All (IsAxisTick scale.now) ticks.items) }
{
    let step = step_of(scale, space);
    let mut ticks = Vec::new(alloc);
    for part in scale.parts.as_slice() {
        push_ticks(&mut ticks, scale, part, step)?;
    }
    Ok(ticks)
}

// Adds the multiples of a step in a part.
fn push_ticks(ticks: &mut Vec<Tick>, scale: &Scale, part: &Part, step: u64) -> Result<(), Memory>
    requires scale { IsPageScale scale.now }
    requires some { 0 < step }
    requires before { All (IsAxisTick scale.now) ticks.old.items }
    ensures { OnOk result (All (IsAxisTick scale.now) ticks.new.items) }
{
    let end = part.end.min(scale.until);
    let mut time = part.start.div_ceil(step).saturating_mul(step);
    while time <= end {
        ticks.push(Tick {
            time,
            x: x_of(scale, time),
        })?;
        time = time.saturating_add(step);
    }
    Ok(())
}

// The least of the numbers 1, 2, 5, 10, 20, 50 and so on whose multiples stand at least `space` apart.
fn step_of(scale: &Scale, space: u32) -> u64
    requires { IsPageScale scale.now }
    ensures { 0 < result }
{
    let parts = scale.parts.as_slice();
    let steps = room(scale.width, parts) / space.max(1);
    let least = shown_before(parts, scale.until) / u128::from(steps.max(1));
    let mut power: u64 = 1;
    for _digit in 0..19 {
        if let Some(step) = round_step(power, least) {
            return step;
        }
        power = power.saturating_mul(10);
    }
    power
}

// The least of 1, 2 and 5 times a power that is more than a number, if one is.
fn round_step(power: u64, least: u128) -> Option<u64>
    requires { 0 < power }
    ensures { IfSome result (λ step. 0 < step) }
{
    for factor in [1, 2, 5] {
        let step = power.saturating_mul(factor);
        if u128::from(step) > least {
            return Some(step);
        }
    }
    None
}
