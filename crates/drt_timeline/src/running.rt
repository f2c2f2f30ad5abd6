//! What a board runs, as spans.
ghost use Rattle.std.specs.Prelude.{◌≡◌, ◌≤◌, [], IfOk, OnOk};
ghost use Rattle.drt_timeline.specs.Spans.{AreSpans};

use crate::span::{Span, push_span};
use drt_model::Memory;
use drt_replay::Board;
use std::alloc::Global;

/// Runs a board on which no tick has run until `until` ticks have, and gives the spans of these ticks.
pub fn spans_of(alloc: Global, board: &mut Board, until: u64) -> Result<Vec<Span>, Memory>
    requires { board.old.ticks ≡ 0 }
    ensures run { OnOk result (board.new ≡ record board.old { ticks = until }) }
    ensures spans { IfOk result (λ spans. AreSpans board.old.policy board.old.jobs until spans.items) }
{
    let mut spans = Vec::new(alloc);
    while board.ticks() < until {
        let start = board.ticks();
        if let Some(job) = board.run_to_change(until) {
            let end = board.ticks();
            push_span(&mut spans, Span { start, end, job })?;
        }
    }
    Ok(spans)
}
