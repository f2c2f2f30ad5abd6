//! What the printer knows of jobs.
ghost use Rattle.std.specs.Prelude.{◌≤◌};

use crate::bars::Arrow;
use crate::layout::Layout;
use drt_model::{Memory, Release, Task};
use drt_timeline::Mark;
use std::alloc::Global;

/// What a job is called by: its place among the jobs of its task, counted from 0; and whether it misses.
#[derive(Debug, Clone, Copy, PartialEq, Eq)]
pub struct Shown {
    pub index: u64,
    pub late: bool,
}

/// The tasks, the releases, the jobs as they are shown, and for each row how many arrows there are in how much room.
#[derive(Drop)]
pub struct Picture<'a> {
    tasks: &'a [Task],
    releases: &'a [Release],
    jobs: Vec<Shown>,
    arrows: Vec<u64>,
    width: u32,
}

// Half the width of an arrow's head where there is room for it.
const HEAD: u64 = 30;

// A smaller head isn't drawn.
const LEAST_HEAD: u64 = 20;

impl<'a> Picture<'a> {
    /// The jobs of releases, which stand in order of tasks.
    pub fn of(
        alloc: Global,
        tasks: &'a [Task],
        releases: &'a [Release],
        layout: &Layout,
    ) -> Result<Picture<'a>, Memory> {
        let mut jobs = jobs_of(alloc, releases)?;
        mark_late(&mut jobs, layout.arrows.as_slice());
        let arrows = count_arrows(alloc, tasks.len(), layout.arrows.as_slice())?;
        Ok(Picture {
            tasks,
            releases,
            jobs,
            arrows,
            width: layout.scale.width,
        })
    }

    /// Half the width of the heads of a row's arrows, in tenths of a pixel: less where arrows stand close, and 0 where there is no room.
    pub fn head(&self, row: u32) -> u64
        ensures { result ≤ 30 }
    {
        let count = match self.arrows.get(row as usize) {
            Some(count) => *count,
            None => 0,
        };
        let head = (u64::from(self.width) / 3 / count.max(1)).min(HEAD);
        if head < LEAST_HEAD { 0 } else { head }
    }

    /// How a job is shown. Past the last job there is nothing to show.
    pub fn shown(&self, job: usize) -> Shown {
        match self.jobs.get(job) {
            Some(shown) => *shown,
            None => Shown {
                index: 0,
                late: false,
            },
        }
    }

    /// The name of a job's vertex.
    pub fn vertex_name(&self, job: usize) -> &'a [u8] {
        let releases = self.releases;
        match releases.get(job) {
            Some(release) => vertex_name(self.tasks, *release),
            None => b"",
        }
    }
}

// The name of the vertex of a release.
fn vertex_name(tasks: &[Task], release: Release) -> &[u8] {
    let Some(task) = tasks.get(release.task as usize) else {
        return b"";
    };
    match task.vertices.as_slice().get(release.vertex as usize) {
        Some(vertex) => vertex.name.as_slice(),
        None => b"",
    }
}

// The places of jobs among those of their tasks.
fn jobs_of(alloc: Global, releases: &[Release]) -> Result<Vec<Shown>, Memory> {
    let mut jobs = Vec::new(alloc);
    let mut task = 0;
    let mut index: u64 = 0;
    for release in releases {
        if release.task != task {
            task = release.task;
            index = 0;
        }
        jobs.push(Shown { index, late: false })?;
        index = index.saturating_add(1);
    }
    Ok(jobs)
}

// Marks the jobs that miss.
fn mark_late(jobs: &mut Vec<Shown>, arrows: &[Arrow]) {
    for arrow in arrows {
        if arrow.event.mark == Mark::Miss {
            set_late(jobs, arrow.event.job);
        }
    }
}

fn set_late(jobs: &mut Vec<Shown>, job: usize) {
    if let Some(shown) = jobs.get_mut(job) {
        shown.late = true;
    }
}

// How many arrows are drawn in each row, of so many.
fn count_arrows(alloc: Global, rows: usize, arrows: &[Arrow]) -> Result<Vec<u64>, Memory> {
    let mut counts = vec![in alloc; 0; rows]?;
    for arrow in arrows {
        if arrow.event.mark != Mark::Finish {
            count_one(&mut counts, arrow.row);
        }
    }
    Ok(counts)
}

fn count_one(counts: &mut Vec<u64>, row: u32) {
    if let Some(count) = counts.get_mut(row as usize) {
        *count = count.saturating_add(1);
    }
}
