//! The events of jobs.
ghost use Rattle.std.specs.Prelude.{◌≡◌, ◌++◌, IfOk, OnOk};
ghost use Rattle.drt_timeline.specs.Events.{AreEvents};
ghost use Rattle.drt_timeline.specs.Gathering.{deadline_events, deadline_mark, finish_events, job_events, event_key, release_events};

use crate::event::{Event, Mark};
use drt_model::{Job, Memory};
use drt_replay::Board;
use std::alloc::Global;

/// The events of the jobs of a board up to now, in order.
pub fn events_of(alloc: Global, board: &Board) -> Result<Vec<Event>, Memory>
    ensures { IfOk result (λ events. AreEvents board.now.policy board.now.jobs board.now.ticks events.items) }
{
    let until = board.ticks();
    let mut events = Vec::new(alloc);
    for j in 0..board.count() {
        push_events(&mut events, j, board.job(j), board.finish_at(j), until)?;
    }
    events.sort_unstable_by_key(
        |event: &Event| -> (u64, u8, usize)
            ensures { result ≡ event_key event.now }
        { order_of(event) },
    );
    Ok(events)
}

// What events are sorted by.
fn order_of(event: &Event) -> (u64, u8, usize)
    ensures { result ≡ event_key event.now }
{
    let mark = match event.mark {
        Mark::Finish => 0,
        Mark::Deadline => 1,
        Mark::Miss => 2,
        Mark::Release => 3,
    };
    (event.time, mark, event.job)
}

// Adds the events of a job not after `until`, by when it finished.
#[tactic(auto, unfolding(crate::specs::Gathering::job_events))]
fn push_events(
    events: &mut Vec<Event>,
    j: usize,
    job: Job,
    finish: Option<u64>,
    until: u64,
) -> Result<(), Memory>
    ensures { OnOk result (events.new.items ≡ events.old.items ++ job_events j job finish until) }
{
    push_finish(events, j, finish)?;
    push_deadline(events, j, job, finish, until)?;
    push_release(events, j, job, until)
}

// Adds the event of a finish.
fn push_finish(events: &mut Vec<Event>, j: usize, finish: Option<u64>) -> Result<(), Memory>
    ensures { OnOk result (events.new.items ≡ events.old.items ++ finish_events j finish) }
{
    match finish {
        Some(time) => {
            let mark = Mark::Finish;
            events.push(Event { time, mark, job: j })?;
            Ok(())
        }
        None => Ok(()),
    }
}

// Adds the event of a deadline that comes by `until`.
fn push_deadline(
    events: &mut Vec<Event>,
    j: usize,
    job: Job,
    finish: Option<u64>,
    until: u64,
) -> Result<(), Memory>
    ensures { OnOk result (events.new.items ≡ events.old.items ++ deadline_events j job finish until) }
{
    if job.deadline > until {
        return Ok(());
    }
    let time = job.deadline;
    let mark = deadline_mark(job, finish);
    events.push(Event { time, mark, job: j })?;
    Ok(())
}

// Adds the event of a release that comes by `until`.
fn push_release(events: &mut Vec<Event>, j: usize, job: Job, until: u64) -> Result<(), Memory>
    ensures { OnOk result (events.new.items ≡ events.old.items ++ release_events j job until) }
{
    if job.time > until {
        return Ok(());
    }
    let time = job.time;
    let mark = Mark::Release;
    events.push(Event { time, mark, job: j })?;
    Ok(())
}

// What the deadline of a job is by when it finished.
fn deadline_mark(job: Job, finish: Option<u64>) -> Mark
    ensures { result ≡ deadline_mark job finish }
{
    match finish {
        Some(time) if time <= job.deadline => Mark::Deadline,
        _ => Mark::Miss,
    }
}
