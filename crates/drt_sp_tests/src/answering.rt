//! Answers by a crew, as bytes.
ghost use Rattle.std.specs.Prelude.{ℕ, IfOk};
ghost use Rattle.drt_claims.specs.Ranges.{IsEvidenceInRange};
ghost use Rattle.drt_sp.specs.Answers.{IsTreeAnswer};

use drt_accepted::Accepted;
use drt_claims::{Dossier, Evidence};
use drt_crew::Crew;
use drt_effort::{Effort, MOST_BUDGET, MOST_WORKERS};
use drt_evidence::print;
use drt_model::{Policy, TaskSet};
use drt_pool::Gate;
use drt_sp::{Answer, FixedTrail, analyse_fixed};
use drt_test_tools::{Draws, drawn_set};
use std::alloc::Global;
use std::sync::Wait;
use std::test::Fail;
use std::thread::Threads;

// A gate that does nothing, and leaves so many turns to the caller alone.
#[derive(Clone, Copy)]
pub(crate) struct Leaving {
    pub(crate) alone: u64,
}

impl Gate for Leaving {
    fn before(&self, _worker: u32, _turn: u64) {}

    fn alone(&self) -> u64 {
        self.alone
    }
}

// Where a set comes from: a text, or the numbers that are drawn from this state on.
#[derive(Clone, Copy)]
pub(crate) enum Source<'a> {
    Text(&'a str),
    Drawn(u64),
}

fn read_set(alloc: Global, text: &str) -> Result<TaskSet, Fail> {
    if text.len() > 1_000_000 {
        return Err("a worked set is short".into());
    }
    Ok(drt_file::read(alloc, text.as_bytes())?)
}

fn draw_set(alloc: Global, state: u64) -> Result<TaskSet, Fail> {
    let mut draws = Draws { state };
    Ok(drawn_set(alloc, &mut draws)?.ok_or("within the limits")?)
}

fn make(alloc: Global, source: Source<'_>) -> Result<TaskSet, Fail> {
    match source {
        Source::Text(text) => read_set(alloc, text),
        Source::Drawn(state) => draw_set(alloc, state),
    }
}

// So many workers, with so many steps for each search.
pub(crate) fn effort_of(workers: u32, budget: u64) -> Result<Effort, Fail> {
    if workers < 1 || workers > MOST_WORKERS || budget < 1 || budget > u64::from(MOST_BUDGET) {
        return Err("the workers and the budget are in range".into());
    }
    Ok(Effort::new(workers, budget))
}

// The answer to a set by a crew.
pub(crate) fn answer_to<G: Gate, R: Threads + Wait + Sync>(
    crew: &Crew<'_, G, R>,
    set: &TaskSet,
) -> Result<Answer<Evidence, FixedTrail>, Fail>
    ensures { IfOk result (IsTreeAnswer set.now crew.now.effort.budget) }
{
    let graphs = drt_graph::check(crew.alloc, set)?;
    Ok(analyse_fixed(crew, &Accepted::of(set, &graphs))?)
}

fn print_whole(alloc: Global, dossier: &Dossier) -> Result<Vec<u8>, Fail> {
    Ok(print(alloc, dossier)?.into_vec())
}

// The text of an answer: its dossier, or where and by which steps a budget was spent.
fn text_of(
    alloc: Global,
    set: TaskSet,
    answer: Answer<Evidence, FixedTrail>,
) -> Result<Vec<u8>, Fail>
    requires { (budget : ℕ) × IsTreeAnswer set budget answer }
{
    match answer {
        Answer::Meets(evidence) => print_decided(alloc, set, evidence),
        Answer::Misses(evidence) => print_decided(alloc, set, evidence),
        Answer::Undecided(trail) => spent_text(alloc, &trail),
    }
}

// The dossier of a set with this evidence.
fn print_decided(alloc: Global, set: TaskSet, evidence: Evidence) -> Result<Vec<u8>, Fail>
    requires { IsEvidenceInRange evidence }
{
    let dossier = Dossier {
        policy: Policy::Fixed,
        set,
        evidence,
    };
    print_whole(alloc, &dossier)
}

fn spent_text(alloc: Global, trail: &FixedTrail) -> Result<Vec<u8>, Fail> {
    let text = match trail {
        FixedTrail::Table { task, log } => {
            format!(in alloc; "table {task}: {} steps", log.as_slice().len())?
        }
        FixedTrail::Refine { task, vertex, log } => {
            format!(in alloc; "refine {task} {vertex}: {:?}", log.as_slice())?
        }
    };
    Ok(text.into_bytes())
}

// The text of the answer to a set by a crew.
pub(crate) fn written<G: Gate, R: Threads + Wait + Sync>(
    crew: &Crew<'_, G, R>,
    source: Source<'_>,
) -> Result<Vec<u8>, Fail> {
    let set = make(crew.alloc, source)?;
    let answer = answer_to(crew, &set)?;
    text_of(crew.alloc, set, answer)
}

// Whether the dossier of the answer has these lines behind the set, which is in canonical text.
pub(crate) fn has_dossier<G: Gate, R: Threads + Wait + Sync>(
    crew: &Crew<'_, G, R>,
    text: &str,
    body: &str,
) -> Result<bool, Fail> {
    let mut expected = Vec::new(crew.alloc);
    expected.extend_from_slice(b"drt-dossier 1\npolicy fixed\n")?;
    expected.extend_from_slice(text.as_bytes())?;
    expected.extend_from_slice(body.as_bytes())?;
    let answer = written(crew, Source::Text(text))?;
    Ok(answer.as_slice() == expected.as_slice())
}

// The task, the vertex if there is one, and the number of steps at which a budget was spent.
fn spent_at(answer: &Answer<Evidence, FixedTrail>) -> Option<(u32, Option<u32>, usize)> {
    match answer {
        Answer::Meets(_) | Answer::Misses(_) => None,
        Answer::Undecided(FixedTrail::Table { task, log }) => {
            Some((*task, None, log.as_slice().len()))
        }
        Answer::Undecided(FixedTrail::Refine { task, vertex, log }) => {
            Some((*task, Some(*vertex), log.as_slice().len()))
        }
    }
}

// That of the answer to a set by a crew.
pub(crate) fn trail_of<G: Gate, R: Threads + Wait + Sync>(
    crew: &Crew<'_, G, R>,
    text: &str,
) -> Result<Option<(u32, Option<u32>, usize)>, Fail> {
    let set = make(crew.alloc, Source::Text(text))?;
    let answer = answer_to(crew, &set)?;
    Ok(spent_at(&answer))
}
