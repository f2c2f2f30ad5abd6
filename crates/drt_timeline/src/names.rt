//! How the jobs of a list of releases are named.
ghost use Rattle.std.specs.Prelude.{◌≡◌, ◌<◌, All, IfOk, length};
ghost use Rattle.drt_model.specs.Misses.{index_of};
ghost use Rattle.drt_model.specs.Schedulable.{jobs_of};
ghost use Rattle.drt_timeline.specs.Names.{AreIndices};
ghost use Rattle.drt_timeline.specs.Text.{release_in, name_of_task, name_of_vertex};

use drt_model::{Memory, Release, Task};
use std::alloc::Global;
use std::marker::Model;

/// The names of the jobs of releases: each has its task, its vertex, and its index among the jobs of its task. Contracts see the tasks and
/// the releases.
#[derive(Drop)]
pub struct Names<'a> {
    tasks: &'a [Task],
    releases: &'a [Release],
    indices: Vec<usize>,
}

impl<'a> Model for Names<'a> {
    ghost use Rattle.drt_timeline.specs.Names.{AreIndices, JobNames};

    ghost Value = { JobNames };

    ghost view = { λ n. record { tasks = n.tasks.now; releases = n.releases.now } };

    ghost invariant = { λ n. AreIndices n.tasks.now n.releases.now n.indices.items };
}

impl<'a> Names<'a> {
    /// The names of the jobs of releases of these tasks.
    pub fn of(
        alloc: Global,
        tasks: &'a [Task],
        releases: &'a [Release],
    ) -> Result<Names<'a>, Memory>
        requires { All (λ r. r.task < length tasks.now) releases.now }
        ensures { IfOk result (λ names. names ≡ record { tasks = tasks.now; releases = releases.now }) }
    {
        let indices = indices_of(alloc, tasks, releases)?;
        Ok(Names {
            tasks,
            releases,
            indices,
        })
    }

    /// The name of the task of a job.
    pub fn task(&self, j: usize) -> &[u8]
        requires { j < length self.now.releases }
        ensures { result.now ≡ name_of_task self.now.tasks (release_in self.now.releases j) }
    {
        let releases = self.releases;
        task_name(self.tasks, &releases[j])
    }

    /// The name of the vertex of a job.
    pub fn vertex(&self, j: usize) -> &[u8]
        requires { j < length self.now.releases }
        ensures { result.now ≡ name_of_vertex self.now.tasks (release_in self.now.releases j) }
    {
        let releases = self.releases;
        vertex_name(self.tasks, &releases[j])
    }

    /// The index of a job among those of its task.
    pub fn index(&self, j: usize) -> usize
        requires { j < length self.now.releases }
        ensures { result ≡ index_of (jobs_of self.now.tasks self.now.releases) j }
    {
        self.indices[j]
    }
}

// The index of each job among those of its task, by how many of each task came before.
fn indices_of(alloc: Global, tasks: &[Task], releases: &[Release]) -> Result<Vec<usize>, Memory>
    requires { All (λ r. r.task < length tasks.now) releases.now }
    ensures { IfOk result (λ indices. AreIndices tasks.now releases.now indices.items) }
{
    let mut counts = vec![in alloc; 0usize; tasks.len()]?;
    let mut indices = Vec::new(alloc);
    for release in releases {
        let task = release.task as usize;
        indices.push(counts[task])?;
        counts[task] += 1;
    }
    Ok(indices)
}

// The name of the task of a release, and no byte where there is none.
fn task_name<'a>(tasks: &'a [Task], release: &Release) -> &'a [u8]
    ensures { result.now ≡ name_of_task tasks.now release.now }
{
    match tasks.get(release.task as usize) {
        Some(task) => task.name.as_slice(),
        None => &[],
    }
}

// The name of the vertex of a release, and no byte where there is none.
fn vertex_name<'a>(tasks: &'a [Task], release: &Release) -> &'a [u8]
    ensures { result.now ≡ name_of_vertex tasks.now release.now }
{
    let Some(task) = tasks.get(release.task as usize) else {
        return &[];
    };
    match task.vertices.as_slice().get(release.vertex as usize) {
        Some(vertex) => vertex.name.as_slice(),
        None => &[],
    }
}
