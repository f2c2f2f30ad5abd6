//! `bench`: both answers to the drawn set of a number, in one line.
ghost use Rattle.std.specs.Prelude.{◌≡◌, ◌≢◌, [], IfErr, IfOk, length, map};
ghost use Rattle.drt_model.specs.Constrained.{AreConstrained};
ghost use Rattle.drt_model.specs.Limits.{IsTaskSet};
ghost use Rattle.drt_claims.specs.Claims.{graphs_of};
ghost use Rattle.drt_edf.specs.Plans.{AreTooFine};
ghost use Rattle.drt_gen.specs.Generated.{generated};
ghost use Rattle.drt_effort.specs.Efforts.{most_budget};
ghost use Rattle.drt_summary.specs.declared.summary.EdfVerdict.{EdfVerdict};
ghost use Rattle.drt_command.specs.declared.input.Input.{Input};
ghost use Rattle.drt_command.specs.Inputs.{IsInputWithin};
ghost use Rattle.drt_command.specs.Rules.{IsUnmadeCause};
ghost use Rattle.drt_command_bench.specs.Bench.{AreCounts, Benches, EdfSays, FixedSays, bench_rules};

use crate::ahead::decide_both;
use crate::laws::scales_are_small;
use drt_accepted::Accepted;
use drt_claims::Evidence;
use drt_command::{Input, Promised, Report, Unmade};
use drt_crew::Crew;
use drt_edf::{EdfAnswer, EdfTrail, analyse_edf};
use drt_effort::{Effort, MOST_BUDGET};
use drt_fixed::{Analysed, analyse_fixed};
use drt_gen::{deadlines_are_constrained, generate, sets_keep_limits};
use drt_graph::{FrontEntry, GraphError, Graphs, check};
use drt_horizon::Beyond;
use drt_model::{Memory, Row, TaskSet};
use drt_outcome::outcome::{Trail, YES};
use drt_pool::Gate;
use drt_summary::{EdfVerdict, FixedVerdict, Summary, print};
use drt_trails::FixedTrail;
use drt_words::Workers;
use std::alloc::Global;
use std::sync::Wait;
use std::thread::Threads;

/// The command `bench`.
#[derive(Debug, Drop)]
pub struct Bench {
    pub workers: Workers,
    pub number: u64,
}

impl Promised for Bench {
    ghost rules = { λ c. bench_rules c.number };

    fn laws(&self) {}

    fn input(&self) -> Input {
        Input::Nothing
    }
}

/// What it makes of its input.
pub fn make<G: Gate, R: Threads + Wait + Sync>(
    rt: &R,
    alloc: Global,
    command: &Bench,
    _bytes: &[u8],
    gate: &G,
) -> Result<Report, Unmade>
    requires { IsInputWithin (bench_rules command.now.number).input _bytes.now }
    ensures makes { IfOk result ((bench_rules command.now.number).makes _bytes.now) }
    ensures unmade { IfErr result (IsUnmadeCause (bench_rules command.now.number).refuses _bytes.now) }
{
    sets_keep_limits();
    deadlines_are_constrained();
    scales_are_small();
    let set = generate(alloc, command.number)?;
    let graphs = make_graphs(alloc, &set)?;
    let crew = Crew {
        rt,
        alloc,
        effort: Effort::new(command.workers.count(), u64::from(MOST_BUDGET)),
        gate,
    };
    let accepted = Accepted::of(&set, &graphs);
    let (edf, fixed) = decide_both(&crew, &accepted)?;
    Ok(summarise(alloc, command.number, edf, fixed)?)
}

/// What was found under EDF: the verdict, how many labels each front has, and the trail of a spent budget.
#[derive(Drop)]
pub(crate) struct EdfFinding {
    pub verdict: EdfVerdict,
    pub kept: Row<u64>,
    pub trail: Option<EdfTrail>,
}

/// What was found under fixed priorities: the verdict, and the trail of a spent budget.
#[derive(Drop)]
pub(crate) struct FixedFinding {
    pub verdict: FixedVerdict,
    pub trail: Option<FixedTrail>,
}

// The graphs of a set with constrained deadlines.
fn make_graphs(alloc: Global, set: &TaskSet) -> Result<Graphs, Memory>
    requires { AreConstrained set.now.tasks }
    ensures { IfOk result (λ graphs. graphs ≡ graphs_of set.now.tasks) }
{
    match check(alloc, set) {
        Ok(graphs) => Ok(graphs),
        Err(GraphError::DeadlinePastSeparation { .. }) => unreachable!(),
        Err(GraphError::Memory) => Err(Memory),
    }
}

/// The answer under EDF.
pub(crate) fn decide_edf<G: Gate, R: Threads + Wait + Sync>(
    crew: &Crew<'_, G, R>,
    set: &Accepted<'_>,
) -> Result<EdfFinding, Memory>
    requires budget { crew.now.effort.budget ≡ most_budget }
    requires limits { IsTaskSet 1 set.now.tasks }
    requires fine { ¬ AreTooFine set.now.tasks }
    ensures says { IfOk result (λ f. EdfSays set.now.tasks f.verdict f.trail) }
    ensures counts { IfOk result (λ f. f.verdict ≡ EdfVerdict.Yes → AreCounts set.now.tasks f.kept) }
    ensures no_counts { IfOk result (λ f. f.verdict ≢ EdfVerdict.Yes → f.kept ≡ []) }
{
    let alloc = crew.alloc;
    match analyse_edf(crew, set)? {
        EdfAnswer::Done(Evidence::EdfYes { ratios: _, fronts }) => Ok(EdfFinding {
            verdict: EdfVerdict::Yes,
            kept: count_labels(alloc, fronts.as_slice())?,
            trail: None,
        }),
        EdfAnswer::Done(Evidence::EdfNo { .. }) => Ok(without_fronts(alloc, EdfVerdict::No, None)),
        EdfAnswer::Done(Evidence::UtilisationOne { .. }) => Ok(without_fronts(
            alloc,
            EdfVerdict::One,
            None,
        )),
        EdfAnswer::Done(
            Evidence::FixedYes { .. }
            | Evidence::FixedStates { .. }
            | Evidence::FixedNo { .. }
            | Evidence::Undecided,
        ) => unreachable!(),
        EdfAnswer::Beyond(Beyond::TooFar) => Ok(without_fronts(alloc, EdfVerdict::Beyond, None)),
        EdfAnswer::Beyond(Beyond::TooFine) => unreachable!(),
        EdfAnswer::Undecided(trail) => Ok(without_fronts(
            alloc,
            EdfVerdict::Undecided,
            Some(trail),
        )),
    }
}

// What was found where there are no fronts.
fn without_fronts(alloc: Global, verdict: EdfVerdict, trail: Option<EdfTrail>) -> EdfFinding
    ensures { result ≡ record { verdict = verdict; kept = []; trail = trail } }
{
    EdfFinding {
        verdict,
        kept: Row::from_vec(Vec::new(alloc)),
        trail,
    }
}

// How many labels each front has.
fn count_labels(alloc: Global, fronts: &[Row<FrontEntry>]) -> Result<Row<u64>, Memory>
    ensures { IfOk result (λ kept. kept ≡ map length fronts.now) }
{
    let mut kept = Vec::new(alloc);
    'fronts: for i in 0..fronts.len() {
        kept.push(fronts[i].as_slice().len() as u64)?;
    }
    Ok(Row::from_vec(kept))
}

/// The answer under fixed priorities.
pub(crate) fn decide_fixed<G: Gate, R: Threads + Wait + Sync>(
    crew: &Crew<'_, G, R>,
    set: &Accepted<'_>,
) -> Result<FixedFinding, Memory>
    requires { crew.now.effort.budget ≡ most_budget }
    ensures { IfOk result (λ f. FixedSays set.now f.verdict f.trail) }
{
    let Analysed { evidence, trail } = analyse_fixed(crew, set)?;
    match evidence {
        Evidence::FixedYes { .. } => Ok(FixedFinding {
            verdict: FixedVerdict::Yes,
            trail,
        }),
        Evidence::FixedStates { .. } => Ok(FixedFinding {
            verdict: FixedVerdict::Yes,
            trail,
        }),
        Evidence::FixedNo { .. } => Ok(FixedFinding {
            verdict: FixedVerdict::No,
            trail,
        }),
        Evidence::Undecided => Ok(FixedFinding {
            verdict: FixedVerdict::Undecided,
            trail,
        }),
        Evidence::EdfYes { .. } | Evidence::EdfNo { .. } | Evidence::UtilisationOne { .. } => {
            unreachable!()
        }
    }
}

// The line of what was found for the set of a number, and the trails.
fn summarise(
    alloc: Global,
    number: u64,
    edf: EdfFinding,
    fixed: FixedFinding,
) -> Result<Report, Memory>
    requires edf { EdfSays (generated number).tasks edf.verdict edf.trail }
    requires counts { edf.verdict ≡ EdfVerdict.Yes → AreCounts (generated number).tasks edf.kept }
    requires no_counts { edf.verdict ≢ EdfVerdict.Yes → edf.kept ≡ [] }
    requires fixed { FixedSays (generated number) fixed.verdict fixed.trail }
    ensures { IfOk result (Benches number) }
{
    let summary = Summary {
        edf: edf.verdict,
        fixed: fixed.verdict,
        kept: edf.kept,
        number,
    };
    let text = print(alloc, &summary)?;
    Ok(Report {
        status: YES,
        text,
        trail: Trail::Bench {
            edf: edf.trail,
            fixed: fixed.trail,
        },
    })
}
