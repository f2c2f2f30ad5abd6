//! Spans of ticks.
ghost use Rattle.std.specs.Prelude.{◌↔◌, IsTrue, OnOk};
ghost use Rattle.drt_timeline.specs.Joining.{Adjoins, IsSpanGrown};

use drt_model::Memory;

/// A span of ticks in which one job runs: from tick `start` up to tick `end`, which isn't part of it. The job is named by its place in the
/// list of releases.
#[derive(Debug, Clone, Copy, PartialEq, Eq)]
pub struct Span {
    pub start: u64,
    pub end: u64,
    pub job: usize,
}

/// Adds a span, as one with the last where that is of the same job and ends where the new one starts.
pub(crate) fn push_span(spans: &mut Vec<Span>, span: Span) -> Result<(), Memory>
    ensures { OnOk result (IsSpanGrown spans.old.items span spans.new.items) }
{
    let count = spans.len();
    if count > 0 && adjoins(spans[count - 1], span) {
        spans[count - 1].end = span.end;
        return Ok(());
    }
    spans.push(span)?;
    Ok(())
}

// Whether the second span goes on where the first ends, with the same job.
fn adjoins(first: Span, second: Span) -> bool
    ensures { IsTrue result ↔ Adjoins first second }
{
    first.end == second.start && first.job == second.job
}
