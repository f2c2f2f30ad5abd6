//! Looking ahead.
ghost use Rattle.std.specs.Prelude.{◌≡◌, ◌<◌, ℕ, All, IfOk, Ok, length};
ghost use denote.Param.Send.{IsSync, IsSend};
ghost use Rattle.drt_ahead.specs.Found.{AreThere, AreAnswers};

use crate::crew::worker_count;
use crate::found::{Answer, empty_places, put_answer};
use crate::line::Line;
use drt_crew::Crew;
use drt_model::Memory;
use drt_pool::Gate;
use std::thread;
use std::thread::Threads;

/// The answers that workers found to jobs, each at its job's place. `order` has the places in the order in which they are begun. An answer
/// for which `is_last` says yes is one behind which, in order of places, the caller asks for none: no job behind it is begun then. A
/// job that lacks memory leaves its place empty, and ends its worker's part. With one worker, or one job, each place is left empty: the
/// caller does the jobs.
pub fn look_ahead<
    X: Send + Drop,
    F: Fn(u32) -> Result<X, Memory> + Sync,
    L: Fn(&X) -> bool + Sync,
    G: Gate,
    R: Threads + Sync,
>(crew: &Crew<'_, G, R>, order: &[u32], job: F, is_last: L) -> Result<Vec<Option<X>>, Memory>
    requires places { All (λ i. i < length order.now) order.now }
    requires accepts { (i : ℕ) → i < length order.now → F.pre job i }
    requires ends { L.IsAlwaysCallable is_last }
    ensures count { IfOk result (λ found. length found.items ≡ length order.now) }
    ensures found { IfOk result (λ found. AreThere (λ i x. F.post job i (Ok x)) found.items) }
{
    let mut found = empty_places(crew.alloc, order.len())?;
    let workers = worker_count(crew, order.len());
    if workers < 2 {
        return Ok(found);
    }
    let mut lists = begin_workers(crew, order, &job, &is_last, &Line::start(), workers)?;
    while let Some(list) = lists.pop() {
        put_answers(&job, list, &mut found);
    }
    Ok(found)
}

// Begins so many workers, the last one first, and gives a list of what each of them found. The caller begins all of them and then waits for
// them: a new thread may be put on the processor of who began it, and there it waits for as long as that one works.
#[cycle(workers)]
fn begin_workers<
    X: Send + Drop,
    F: Fn(u32) -> Result<X, Memory> + Sync,
    L: Fn(&X) -> bool + Sync,
    G: Gate,
    R: Threads + Sync,
>(
    crew: &Crew<'_, G, R>,
    order: &[u32],
    job: &F,
    is_last: &L,
    line: &Line,
    workers: usize,
) -> Result<Vec<Vec<Answer<X>>>, Memory>
    requires places { All (λ i. i < length order.now) order.now }
    requires accepts { (i : ℕ) → i < length order.now → F.pre job.now i }
    requires ends { L.IsAlwaysCallable is_last.now }
    ensures { IfOk result (λ lists. All (λ list. AreAnswers (λ i x. F.post job.now i (Ok x)) list.items) lists.items) }
{
    if workers == 0 {
        return Ok(Vec::new(crew.alloc));
    }
    let number = workers - 1;
    let beside = move || -> Vec<Answer<X>>
        requires { All (λ i. i < length order.now) order.now × ((i : ℕ) → i < length order.now → F.pre job.now i) × L.IsAlwaysCallable is_last.now }
        ensures { AreAnswers (λ i x. F.post job.entry.now i (Ok x)) result.items }
    { answer_jobs(crew, order, job, is_last, line, number) };
    let others = move || -> Result<Vec<Vec<Answer<X>>>, Memory>
        requires { IsSync R.row × IsSync F.row × IsSync L.row × IsSync G.row × IsSend X.row × All (λ i. i < length order.now) order.now
            × ((i : ℕ) → i < length order.now → F.pre job.now i) × L.IsAlwaysCallable is_last.now }
        ensures { IfOk result (λ lists. All (λ list. AreAnswers (λ i x. F.post job.entry.now i (Ok x)) list.items) lists.items) }
    { begin_workers(crew, order, job, is_last, line, number) };
    let (list, lists) = thread::join(crew.rt, beside, others);
    let mut lists = lists?;
    lists.push(list)?;
    Ok(lists)
}

// One worker's part: it does the next job that is asked for until there is none, or memory is wanting.
fn answer_jobs<X: Drop, F: Fn(u32) -> Result<X, Memory>, L: Fn(&X) -> bool, G: Gate, R>(
    crew: &Crew<'_, G, R>,
    order: &[u32],
    job: &F,
    is_last: &L,
    line: &Line,
    worker: usize,
) -> Vec<Answer<X>>
    requires places { All (λ i. i < length order.now) order.now }
    requires accepts { (i : ℕ) → i < length order.now → F.pre job.now i }
    requires ends { L.IsAlwaysCallable is_last.now }
    ensures { AreAnswers (λ i x. F.post job.now i (Ok x)) result.items }
{
    let mut answers = Vec::new(crew.alloc);
    for turn in 0..order.len() {
        let Some(place) = line.take_next(order) else {
            return answers;
        };
        crew.gate
            .before(worker.min(u32::MAX as usize) as u32, turn as u64);
        let Ok(value) = job(place) else {
            return answers;
        };
        if is_last(&value) {
            line.end_behind(place);
        }
        if answers.push(Answer { place, value }).is_err() {
            return answers;
        }
    }
    answers
}

// Puts answers to their places. The job is there for what it answers.
fn put_answers<X: Drop, F: Fn(u32) -> Result<X, Memory>>(
    _job: &F,
    mut list: Vec<Answer<X>>,
    found: &mut Vec<Option<X>>,
)
    requires list { AreAnswers (λ i x. F.post _job.now i (Ok x)) list.items }
    requires found { AreThere (λ i x. F.post _job.now i (Ok x)) found.old.items }
    ensures count { length found.new.items ≡ length found.old.items }
    ensures found { AreThere (λ i x. F.post _job.now i (Ok x)) found.new.items }
{
    while let Some(answer) = list.pop() {
        put_answer(found, answer);
    }
}
