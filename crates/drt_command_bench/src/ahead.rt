//! Both answers, found side by side.
ghost use Rattle.std.specs.Prelude.{◌≡◌, ◌≢◌, [], IfOk, IfSome};
ghost use denote.Param.Send.{IsSync};
ghost use Rattle.drt_ahead.specs.Found.{AreThere};
ghost use Rattle.drt_model.specs.Limits.{IsTaskSet};
ghost use Rattle.drt_edf.specs.Plans.{AreTooFine};
ghost use Rattle.drt_effort.specs.Efforts.{most_budget};
ghost use Rattle.drt_summary.specs.declared.summary.EdfVerdict.{EdfVerdict};
ghost use Rattle.drt_command_bench.specs.Bench.{AreCounts, EdfSays, FixedSays};
ghost use Rattle.drt_command_bench.specs.Found.{IsEdfFinding, IsFound};

use crate::command::{EdfFinding, FixedFinding, decide_edf, decide_fixed};
use drt_accepted::Accepted;
use drt_ahead::{look_ahead, take_found};
use drt_crew::Crew;
use drt_model::Memory;
use drt_pool::Gate;
use std::sync::Wait;
use std::thread::Threads;

// The places of the answers.
const EDF: u32 = 0;

const FIXED: u32 = 1;

// What a worker found ahead, under one of the policies.
#[derive(Drop)]
struct Found {
    edf: Option<EdfFinding>,
    fixed: Option<FixedFinding>,
}

/// The answers under EDF and under fixed priorities. Where two workers may begin, each finds one of them; else all workers
/// find one after the other.
pub(crate) fn decide_both<G: Gate, R: Threads + Wait + Sync>(
    crew: &Crew<'_, G, R>,
    set: &Accepted<'_>,
) -> Result<(EdfFinding, FixedFinding), Memory>
    requires budget { crew.now.effort.budget ≡ most_budget }
    requires limits { IsTaskSet 1 set.now.tasks }
    requires fine { ¬ AreTooFine set.now.tasks }
    ensures says { IfOk result (λ r. EdfSays set.now.tasks r.0.verdict r.0.trail) }
    ensures counts { IfOk result (λ r. r.0.verdict ≡ EdfVerdict.Yes → AreCounts set.now.tasks r.0.kept) }
    ensures no_counts { IfOk result (λ r. r.0.verdict ≢ EdfVerdict.Yes → r.0.kept ≡ []) }
    ensures fixed { IfOk result (λ r. FixedSays set.now r.1.verdict r.1.trail) }
{
    let mut ahead = find_ahead(crew, set)?;
    let edf = match take_edf(set, &mut ahead) {
        Some(edf) => edf,
        None => decide_edf(crew, set)?,
    };
    let fixed = match take_fixed(set, &mut ahead) {
        Some(fixed) => fixed,
        None => decide_fixed(crew, set)?,
    };
    Ok((edf, fixed))
}

// Takes the answer under EDF, where it is found. The set is there for what it is the answer to.
fn take_edf(_set: &Accepted<'_>, ahead: &mut Vec<Option<Found>>) -> Option<EdfFinding>
    requires { AreThere (λ place f. IsFound _set.now f) ahead.old.items }
    ensures ahead { AreThere (λ place f. IsFound _set.now f) ahead.new.items }
    ensures edf { IfSome result (IsEdfFinding _set.now) }
{
    match take_found(ahead, EDF) {
        Some(found) => found.edf,
        None => None,
    }
}

// Takes the answer under fixed priorities, where it is found.
fn take_fixed(_set: &Accepted<'_>, ahead: &mut Vec<Option<Found>>) -> Option<FixedFinding>
    requires { AreThere (λ place f. IsFound _set.now f) ahead.old.items }
    ensures { IfSome result (λ f. FixedSays _set.now f.verdict f.trail) }
{
    match take_found(ahead, FIXED) {
        Some(found) => found.fixed,
        None => None,
    }
}

// The answers that workers find side by side, each by one of them.
fn find_ahead<G: Gate, R: Threads + Wait + Sync>(
    crew: &Crew<'_, G, R>,
    set: &Accepted<'_>,
) -> Result<Vec<Option<Found>>, Memory>
    requires budget { crew.now.effort.budget ≡ most_budget }
    requires limits { IsTaskSet 1 set.now.tasks }
    requires fine { ¬ AreTooFine set.now.tasks }
    ensures { IfOk result (λ found. AreThere (λ place f. IsFound set.now f) found.items) }
{
    let alone = crew.with(crew.effort.alone());
    let alone = &alone;
    let job = move |place: u32| -> Result<Found, Memory>
        requires { IsSync R.row × IsSync G.row × (alone.now.effort.budget ≡ most_budget) × IsTaskSet 1 set.now.tasks × (¬ AreTooFine set.now.tasks) }
        ensures { IfOk result (IsFound set.entry.now) }
    { find_one(alone, set, place) };
    look_ahead(crew, &[EDF, FIXED], job, |_found: &Found| false)
}

// The answer at a place.
fn find_one<G: Gate, R: Threads + Wait + Sync>(
    crew: &Crew<'_, G, R>,
    set: &Accepted<'_>,
    place: u32,
) -> Result<Found, Memory>
    requires budget { crew.now.effort.budget ≡ most_budget }
    requires limits { IsTaskSet 1 set.now.tasks }
    requires fine { ¬ AreTooFine set.now.tasks }
    ensures { IfOk result (IsFound set.now) }
{
    if place == EDF {
        Ok(Found {
            edf: Some(decide_edf(crew, set)?),
            fixed: None,
        })
    } else {
        Ok(Found {
            edf: None,
            fixed: Some(decide_fixed(crew, set)?),
        })
    }
}
