//! What workers find of open tasks ahead, side by side.
ghost use Rattle.std.specs.Prelude.{◌≡◌, ℕ, ◌<◌, ◌≤◌, All, IfOk, IfSome, List, None, Some, length, slice_index, slice_index_or};
ghost use denote.Param.Send.{IsSync};
ghost use Rattle.drt_model.specs.Contents.{Contents};
ghost use Rattle.drt_model.specs.declared.tasks.Task.{Task};
ghost use Rattle.drt_sp_task.specs.declared.answer.TaskAnswer.{TaskAnswer as Answer};
ghost use Rattle.drt_priorities.specs.Priorities.{prioritised};
ghost use Rattle.drt_assign.specs.Rule.{AreRanks};
ghost use Rattle.drt_assign.specs.Steps.{AreTrialsAhead, AreOpen, IsCourse, IsTaskTried};

use crate::answer::Stuck;
use crate::rounds::{Course, try_task};
use crate::trial::Standing;
use drt_ahead::{look_ahead, take_found};
use drt_crew::Crew;
use drt_model::{Memory, TaskSet};
use drt_pool::{Gate, OpenGate};
use drt_priorities::copy_of;
use drt_sp_task::TaskAnswer;
use std::alloc::Global;
use std::sync::Wait;
use std::thread::Threads;

// The least number of steps of a trial that is large: to begin other workers costs about as much as so many.
const LARGE: usize = 4_096;

/// Open tasks, in order of the file, and what workers found of each ahead: the set with priorities for its trial, and the answer.
#[derive(Drop)]
pub(crate) struct Ahead {
    pub(crate) tasks: Vec<u32>,
    pub(crate) found: Vec<Option<(TaskSet, TaskAnswer)>>,
}

/// Nothing was looked ahead for.
pub(crate) fn nothing_ahead(alloc: Global) -> Ahead
    ensures { (tasks : List Task) (ranks : List ℕ) (m budget : ℕ) → AreTrialsAhead tasks ranks m budget result }
{
    Ahead {
        tasks: Vec::new(alloc),
        found: Vec::new(alloc),
    }
}

/// Looks ahead for the open tasks from this one on, one for each worker, unless they were looked ahead for. Before a task is stuck there is
/// nothing to look ahead for, and in a small set it isn't worth other workers.
pub(crate) fn look_further<G: Gate, R: Threads + Wait + Sync>(
    course: &Course<'_, G, R>,
    set: &TaskSet,
    standing: Standing<'_>,
    task: u32,
    stuck: &[Stuck],
    ahead: Ahead,
) -> Result<Ahead, Memory>
    requires course { IsCourse (prioritised set.now.tasks course.now.old.now) course.now.graphs.now course.now.old.now }
    requires ranks { AreRanks (length set.now.tasks) standing.open_count standing.ranks.now }
    requires ahead { AreTrialsAhead (prioritised set.now.tasks course.now.old.now) standing.ranks.now standing.open_count course.now.crew.now.effort.budget ahead }
    ensures { IfOk result (AreTrialsAhead (prioritised set.now.tasks course.now.old.now) standing.entry.ranks.now standing.entry.open_count course.now.crew.now.effort.budget) }
{
    if has_from(&ahead.tasks, task) || !are_worth(course, set, stuck) {
        return Ok(ahead);
    }
    let crew = course.crew;
    let tasks = next_open(crew.alloc, standing.ranks, task, crew.effort.workers())?;
    let found = try_apart(course, set, standing, &tasks)?;
    Ok(Ahead { tasks, found })
}

/// What was found of an open task ahead, or else what is found of it now.
pub(crate) fn take_or_try<G: Gate, R: Threads + Wait + Sync>(
    course: &Course<'_, G, R>,
    set: TaskSet,
    standing: Standing<'_>,
    task: u32,
    ahead: &mut Ahead,
) -> Result<(TaskSet, TaskAnswer), Memory>
    requires course { IsCourse (prioritised set.tasks course.now.old.now) course.now.graphs.now course.now.old.now }
    requires ranks { AreRanks (length set.tasks) standing.open_count standing.ranks.now }
    requires task { task < length standing.ranks.now }
    requires is_open { slice_index standing.ranks.now task ≡ 0 }
    requires ahead { AreTrialsAhead (prioritised set.tasks course.now.old.now) standing.ranks.now standing.open_count course.now.crew.now.effort.budget ahead.old }
    ensures tried { IfOk result (λ r. IsTaskTried (prioritised set.tasks course.now.old.now) standing.entry.ranks.now standing.entry.open_count task course.now.crew.now.effort.budget r.0 r.1) }
    ensures ahead { AreTrialsAhead (prioritised set.tasks course.now.old.now) standing.entry.ranks.now standing.entry.open_count course.now.crew.now.effort.budget ahead.new }
{
    if let Some(place) = place_of(&ahead.tasks, task) {
        if let Some(tried) = take_found(&mut ahead.found, place) {
            return Ok(tried);
        }
    }
    try_task(course, set, standing, task)
}

// Whether trials are worth workers of their own: one failed, and they are large, or the gate may wait for another worker.
fn are_worth<G: Gate, R>(course: &Course<'_, G, R>, set: &TaskSet, stuck: &[Stuck]) -> bool {
    match stuck.last() {
        Some(one) => course.crew.gate.alone() == 0 || step_count(set, one) >= LARGE,
        None => false,
    }
}

// About how many steps a trial takes, by one that failed: from each of its releases a search goes along edges of the set.
fn step_count(set: &TaskSet, stuck: &Stuck) -> usize {
    let edges = set.tasks().iter().fold(
        0,
        |sum: usize, task| sum.saturating_add(task.edges.as_slice().len()),
    );
    edges.saturating_mul(stuck.releases.as_slice().len())
}

// Whether a task of this number or a greater one is among these.
fn has_from(tasks: &[u32], task: u32) -> bool {
    tasks.iter().any(|other| *other >= task)
}

// The place of a task among these.
fn place_of(tasks: &[u32], task: u32) -> Option<u32>
    ensures { IfSome result (λ i. slice_index tasks.now i ≡ task) }
{
    for (i, other) in tasks.iter().enumerate() {
        if *other == task {
            return u32::try_from(i).ok();
        }
    }
    None
}

// The open tasks from this one on, in order of the file, at most so many.
fn next_open(alloc: Global, ranks: &[u32], task: u32, most: u32) -> Result<Vec<u32>, Memory>
    requires { length ranks.now ≤ 32 }
    ensures open { IfOk result (λ tasks. AreOpen ranks.now tasks.items) }
    ensures few { IfOk result (λ tasks. length tasks.items ≤ most) }
{
    let mut tasks = Vec::new(alloc);
    'tasks: for k in task..ranks.len() as u32 {
        if ranks[k as usize] == 0 && tasks.len() < most as usize {
            tasks.push(k)?;
        }
    }
    Ok(tasks)
}

// What workers find of open tasks side by side, each at its place. Where one doesn't miss, those after it aren't tried.
fn try_apart<G: Gate, R: Threads + Wait + Sync>(
    course: &Course<'_, G, R>,
    set: &TaskSet,
    standing: Standing<'_>,
    tasks: &[u32],
) -> Result<Vec<Option<(TaskSet, TaskAnswer)>>, Memory>
    requires course { IsCourse (prioritised set.now.tasks course.now.old.now) course.now.graphs.now course.now.old.now }
    requires ranks { AreRanks (length set.now.tasks) standing.open_count standing.ranks.now }
    requires tasks { AreOpen standing.ranks.now tasks.now }
    requires few { length tasks.now ≤ 16 }
    ensures { IfOk result (λ found. (i : ℕ) (r : Contents × Answer) → slice_index_or found.items i None ≡ Some r
        → IsTaskTried (prioritised set.now.tasks course.now.old.now) standing.entry.ranks.now standing.entry.open_count (slice_index tasks.now i)
        course.now.crew.now.effort.budget r.0 r.1) }
{
    let Standing { ranks, open_count } = standing;
    let order = all_places(course.crew.alloc, tasks)?;
    let try_place = |place: u32| -> Result<(TaskSet, TaskAnswer), Memory>
        requires { IsSync R.row × IsSync G.row
            × IsCourse (prioritised set.now.tasks course.now.old.now) course.now.graphs.now course.now.old.now
            × AreRanks (length set.now.tasks) open_count ranks.now × AreOpen ranks.now tasks.now × (place < length tasks.now) }
        ensures { IfOk result (λ r. IsTaskTried (prioritised set.entry.now.tasks course.entry.now.old.now) ranks.entry.now open_count (slice_index tasks.entry.now place) course.entry.now.crew.now.effort.budget r.0 r.1) }
    {
        try_copy(
            course,
            set,
            Standing { ranks, open_count },
            tasks[place as usize],
        )
    };
    look_ahead(course.crew, &order, try_place, doesnt_miss)
}

// The places of all tasks.
fn all_places(alloc: Global, tasks: &[u32]) -> Result<Vec<u32>, Memory>
    requires { length tasks.now ≤ 16 }
    ensures count { IfOk result (λ places. length places.items ≡ length tasks.now) }
    ensures each { IfOk result (λ places. All (λ i. i < length tasks.now) places.items) }
{
    (0..tasks.len() as u32).collect(alloc)
}

// Decides by one worker whether an open task meets its deadlines under the other open ones, in a copy of the set with priorities for that.
fn try_copy<G: Gate, R: Threads + Wait + Sync>(
    course: &Course<'_, G, R>,
    set: &TaskSet,
    standing: Standing<'_>,
    task: u32,
) -> Result<(TaskSet, TaskAnswer), Memory>
    requires course { IsCourse (prioritised set.now.tasks course.now.old.now) course.now.graphs.now course.now.old.now }
    requires ranks { AreRanks (length set.now.tasks) standing.open_count standing.ranks.now }
    requires task { task < length standing.ranks.now }
    requires is_open { slice_index standing.ranks.now task ≡ 0 }
    ensures { IfOk result (λ r. IsTaskTried (prioritised set.now.tasks course.now.old.now) standing.entry.ranks.now standing.entry.open_count task course.now.crew.now.effort.budget r.0 r.1) }
{
    let crew = Crew {
        rt: course.crew.rt,
        alloc: course.crew.alloc,
        effort: course.crew.effort.alone(),
        gate: &OpenGate,
    };
    let alone = Course {
        crew: &crew,
        graphs: course.graphs,
        old: course.old,
    };
    try_task(&alone, copy_of(crew.alloc, set)?, standing, task)
}

// Whether an answer ends a round.
fn doesnt_miss(tried: &(TaskSet, TaskAnswer)) -> bool {
    !matches!(tried.1, TaskAnswer::Misses { .. })
}
