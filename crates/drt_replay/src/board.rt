//! A board that shows the tick machine.
ghost use Rattle.std.specs.Prelude.{◌≡◌, ℕ, ◌+◌, ◌^◌, ◌<◌, ◌≤◌, All, IfOk, IfSome, MatchOption, length};
ghost use Rattle.drt_model.specs.Legal.{IsLegal};
ghost use Rattle.drt_model.specs.Misses.{IsJob, IsLeastMiss};
ghost use Rattle.drt_model.specs.Schedulable.{jobs_of};
ghost use Rattle.drt_model.specs.Trace.{job_at, pick};

use crate::events::{Progress, advance};
use crate::jobs::Jobs;
use crate::late::{earlier, index_of, is_late, place_of};
use crate::made::{all_waiting, no_finishes};
use crate::queue::Queue;
use drt_model::{Job, Memory, Miss, Policy, Release, TaskSet};
use std::alloc::Global;
use std::marker::Model;

/// The tick machine on one list of jobs. Contracts see the policy, the jobs and how many ticks have run.
///
/// It borrows the set and the releases, and makes each job where it needs it.
#[derive(Drop)]
pub struct Board<'a> {
    policy: Policy,
    jobs: Jobs<'a>,
    progress: Progress,
    ticks: u64,
}

impl<'a> Model for Board<'a> {
    ghost use Rattle.drt_replay.specs.Board.{Shown, IsBoardKept};

    ghost Value = { Shown };

    ghost view = { λ b. record { policy = b.policy; jobs = b.jobs; ticks = b.ticks } };

    ghost invariant = { λ b. IsBoardKept (record { policy = b.policy; jobs = b.jobs; ticks = b.ticks }) b.progress.left.items b.progress.finishes.items b.progress.waiting.items b.progress.ready };
}

impl<'a> Board<'a> {
    ghost use Rattle.drt_replay.specs.Board.{IsLate, IsFirstLate, IsFirstMiss, IsFinishSoFar};

    /// A board on which no tick has run. The releases are legal, at times of at most 10^18 ticks.
    pub fn start(
        alloc: Global,
        set: &'a TaskSet,
        policy: Policy,
        releases: &'a [Release],
    ) -> Result<Board<'a>, Memory>
        requires legal { IsLegal set.now.tasks releases.now }
        requires times { All (λ r. r.time ≤ 10 ^ 18) releases.now }
        requires few { length releases.now < 2 ^ 32 }
        ensures { IfOk result (λ board. board ≡ record { policy = policy; jobs = jobs_of set.now.tasks releases.now; ticks = 0 }) }
    {
        let jobs = Jobs::of(set.tasks(), releases);
        let left = jobs.needs(alloc)?;
        let finishes = no_finishes(alloc, jobs.count())?;
        let waiting = all_waiting(alloc, &jobs)?;
        let ready = Queue::with_room(alloc, jobs.count())?;
        Ok(Board {
            policy,
            jobs,
            progress: Progress {
                left,
                finishes,
                waiting,
                ready,
            },
            ticks: 0,
        })
    }

    /// Runs ticks until `t` have run, from event to event.
    pub fn run_until(&mut self, t: u64)
        requires { self.old.ticks ≤ t }
        ensures { self.new ≡ record self.old { ticks = t } }
    {
        while self.ticks < t {
            let _ = self.run_to_change(t);
        }
    }

    /// Runs ticks up to the next event, at most until `t` have run, and says what ran in them: the place of one job, or none
    /// where the processor is idle. An event is a release, a finish of the running job, or tick `t`.
    pub fn run_to_change(&mut self, t: u64) -> Option<usize>
        requires { self.old.ticks < t }
        ensures kept { self.new ≡ record self.old { ticks = self.new.ticks } }
        ensures forward { self.old.ticks < self.new.ticks }
        ensures in_time { self.new.ticks ≤ t }
        ensures ran { (i : ℕ) → self.old.ticks ≤ i → i < self.new.ticks → pick self.old.policy self.old.jobs i ≡ result }
    {
        let run = advance(self.policy, &self.jobs, &mut self.progress, self.ticks, t);
        self.ticks = run.until;
        run.job
    }

    /// How many ticks have run.
    pub fn ticks(&self) -> u64
        ensures { result ≡ self.now.ticks }
    {
        self.ticks
    }

    /// How many jobs there are.
    pub fn count(&self) -> usize
        ensures { result ≡ length self.now.jobs }
    {
        self.jobs.count()
    }

    /// The job at a place.
    pub fn job(&self, j: usize) -> Job
        requires { j < length self.now.jobs }
        ensures { result ≡ job_at self.now.jobs j }
    {
        self.jobs.job(j)
    }

    /// The first miss among the deadlines that have come: that of least deadline, then of least task, then of
    /// least index. None where no job with such a deadline misses.
    pub fn first_miss(&self) -> Option<Miss>
        ensures first { MatchOption result ((j : ℕ) → IsLate self.now j → ⊥) (IsFirstMiss self.now) }
        ensures least { IfSome result (IsLeastMiss self.now.policy self.now.jobs) }
    {
        match self.first_late() {
            Some(j) => Some(Miss {
                task: self.jobs.task(j),
                index: index_of(&self.jobs, j) as u32,
                deadline: self.jobs.job(j).deadline,
            }),
            None => None,
        }
    }

    /// After how many ticks the job had its need; none while it lacks ticks.
    pub fn finish_time(&self, task: u32, index: u32) -> Option<u64>
        requires { (j : ℕ) × IsJob self.now.jobs task index j }
        ensures { (j : ℕ) → IsJob self.now.jobs task index j → IsFinishSoFar self.now.policy self.now.jobs self.now.ticks j result }
    {
        self.finish_at(place_of(&self.jobs, task, index))
    }

    /// After how many ticks the job at a place had its need; none while it lacks ticks.
    pub fn finish_at(&self, j: usize) -> Option<u64>
        requires { j < length self.now.jobs }
        ensures { IsFinishSoFar self.now.policy self.now.jobs self.now.ticks j result }
    {
        if self.progress.left[j] > 0 {
            return None;
        }
        Some(self.progress.finishes[j])
    }

    // The place of the first job that is late by now.
    fn first_late(&self) -> Option<usize>
        ensures { MatchOption result ((j : ℕ) → IsLate self.now j → ⊥) (IsFirstLate self.now) }
    {
        let mut first = None;
        for j in 0..self.jobs.count() {
            if is_late(self.jobs.job(j), self.finish_at(j), self.ticks) {
                first = Some(earlier(&self.jobs, first, j));
            }
        }
        first
    }
}
