//! The jobs of a list of releases, each made where it is asked for.
ghost use Rattle.std.specs.Prelude.{◌≡◌, ◌+◌, ◌^◌, ◌<◌, ◌≤◌, All, IfOk, length, map};
ghost use Rattle.drt_model.specs.Legal.{IsAllowed};
ghost use Rattle.drt_model.specs.Schedulable.{job_of, jobs_of};
ghost use Rattle.drt_model.specs.Trace.{job_at};
ghost use Rattle.drt_replay.specs.Board.{needs_of};

use drt_model::{Job, Memory, Release, Task, Vertex};
use std::alloc::Global;
use std::marker::Model;

/// The jobs of releases that the tasks allow, at times of at most 10^18 ticks. Contracts see the list of the jobs, which takes no memory.
#[derive(Drop)]
pub struct Jobs<'a> {
    tasks: &'a [Task],
    releases: &'a [Release],
}

impl<'a> Model for Jobs<'a> {
    ghost use Rattle.std.specs.Prelude.{List, All, ◌≤◌, ◌^◌};
    ghost use Rattle.drt_model.specs.Legal.{IsAllowed};
    ghost use Rattle.drt_model.specs.Schedulable.{jobs_of};
    ghost use Rattle.drt_model.specs.declared.jobs.Job.{Job};

    ghost Value = { List Job };

    ghost view = { λ js. jobs_of js.tasks.now js.releases.now };

    ghost invariant = { λ js. All (IsAllowed js.tasks.now) js.releases.now × All (λ r. r.time ≤ 10 ^ 18) js.releases.now };
}

impl<'a> Jobs<'a> {
    /// The jobs of the releases.
    pub fn of(tasks: &'a [Task], releases: &'a [Release]) -> Jobs<'a>
        requires allowed { All (IsAllowed tasks.now) releases.now }
        requires times { All (λ r. r.time ≤ 10 ^ 18) releases.now }
        ensures { result ≡ jobs_of tasks.now releases.now }
    {
        Jobs { tasks, releases }
    }

    /// How many jobs there are.
    pub fn count(&self) -> usize
        ensures { result ≡ length self.now }
    {
        self.releases.len()
    }

    /// The job at a place.
    pub fn job(&self, j: usize) -> Job
        requires { j < length self.now }
        ensures { result ≡ job_at self.now j }
    {
        job_of(self.tasks, &self.releases[j])
    }

    /// The task of the job at a place.
    pub fn task(&self, j: usize) -> u32
        requires { j < length self.now }
        ensures { result ≡ (job_at self.now j).task }
    {
        let releases = self.releases;
        releases[j].task
    }

    /// The release of the job at a place.
    pub fn time(&self, j: usize) -> u64
        requires { j < length self.now }
        ensures { result ≡ (job_at self.now j).time }
    {
        let releases = self.releases;
        releases[j].time
    }

    /// The needs of the jobs.
    pub fn needs(&self, alloc: Global) -> Result<Vec<u64>, Memory>
        ensures { IfOk result (λ needs. needs.items ≡ needs_of self.now) }
    {
        needs_of(alloc, self.releases)
    }
}

// The needs of releases.
fn needs_of(alloc: Global, releases: &[Release]) -> Result<Vec<u64>, Memory>
    ensures { IfOk result (λ needs. needs.items ≡ map (λ r. r.need) releases.now) }
{
    releases.iter().map(|release| release.need).collect(alloc)
}

// The job of a release.
fn job_of(tasks: &[Task], release: &Release) -> Job
    requires allowed { IsAllowed tasks.now release.now }
    requires time { release.now.time ≤ 10 ^ 18 }
    ensures { result ≡ job_of tasks.now release.now }
{
    let Some(task) = tasks.get(release.task as usize) else {
        unreachable!();
    };
    let Some(vertex) = task.vertices.as_slice().get(release.vertex as usize) else {
        unreachable!();
    };
    Job {
        task: release.task,
        priority: task.priority,
        time: release.time,
        deadline: deadline(release, vertex),
        need: release.need,
    }
}

// When a release of the vertex is due.
fn deadline(release: &Release, vertex: &Vertex) -> u64
    requires { release.now.time ≤ 10 ^ 18 }
    ensures { result ≡ release.now.time + vertex.now.deadline }
{
    let after = vertex.deadline;
    release.time + u64::from(after)
}
