//! The turns of the passes.
ghost use Rattle.std.specs.Prelude.{◌≡◌, ◌≢◌, ℕ, ◌≤◌, Some, slice_get};
ghost use Rattle.drt_pool.specs.Turns.{IsEndOfTurns};
ghost use Rattle.drt_worst.specs.Jobs.{IsPassOfJob, IsStopped};

use crate::pass::{Pass, Question, take};
use crate::subject::Subject;
use crate::word::Word;
use drt_model::Row;
use drt_pool::{Turn, Work};
use std::alloc::Global;
use std::snapshot::Snapshot;
use std::sync::Wait;

/// What all passes work on.
#[derive(Drop)]
pub(crate) struct SearchJob<'a, 'b> {
    pub(crate) alloc: Global,
    pub(crate) word: &'a Word<Question>,
    pub(crate) subject: Subject<'b>,
    pub(crate) budget: u64,
    /// What was dealt to the pass at each place.
    pub(crate) dealt: &'b [Row<u32>],
    /// Whether it's told what they take.
    pub(crate) told: Snapshot<bool>,
}

/// One turn of a pass: it stops where nothing is left, where it took as many as its budget, or where it found no memory.
pub(crate) fn turn_of(job: &SearchJob<'_, '_>, pass: &mut Pass) -> Turn
    requires { IsPassOfJob job.now pass.old }
    ensures kept { IsPassOfJob job.now pass.new }
    ensures start { pass.new.start ≡ pass.old.start }
    ensures stopped { IsEndOfTurns result → IsStopped job.now.budget pass.new }
{
    if pass.failed || pass.stack.is_empty() || pass.taken.count >= job.budget {
        return Turn::Stop;
    }
    match take(job.alloc, job.word, job.subject, pass) {
        Ok(()) => {}
        Err(_) => {
            pass.failed = true;
        }
    }
    Turn::More
}

impl Work for SearchJob<'_, '_> {
    type Pass = Pass;

    ghost fits = { λ job place p. IsPassOfJob job p × (slice_get job.dealt.now place ≡ Some p.start) };

    ghost ended = { λ job place p. IsStopped job.budget p };

    fn turn<R: Wait>(&self, _rt: &R, pass: &mut Pass) -> Turn {
        turn_of(self, pass)
    }
}
