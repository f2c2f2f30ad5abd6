//! `edf`: the answer under EDF, and its dossier.
ghost use Rattle.std.specs.Prelude.{◌≡◌, IfErr, IfOk, map};
ghost use Rattle.drt_model.specs.Digraph.{digraph_of};
ghost use Rattle.drt_command.specs.declared.input.Input.{Input};
ghost use Rattle.drt_command.specs.Inputs.{IsInputWithin};
ghost use Rattle.drt_command.specs.Rules.{IsUnmadeCause};
ghost use Rattle.drt_command_edf.specs.Besides.{Besides, edf_trail_of};
ghost use Rattle.drt_command_edf.specs.Edf.{IsOutOfReach, beyond_code, edf_rules};
ghost use Rattle.drt_command_files.specs.TaskFiles.{IsAccepted};

use drt_accepted::Accepted;
use drt_claims::Evidence;
use drt_command::{Input, Promised, Report, Unmade};
use drt_command_files::{file_input, make_report, read_set};
use drt_crew::Crew;
use drt_edf::{EdfAnswer, EdfTrail, analyse_edf};
use drt_effort::Effort;
use drt_file::laws::texts_read_as_one_set;
use drt_graph::Graphs;
use drt_horizon::Beyond;
use drt_model::{Policy, TaskSet};
use drt_outcome::fault::{Fault, HORIZON_TOO_FAR, SCALE_TOO_FINE};
use drt_outcome::outcome::Trail;
use drt_pool::Gate;
use std::sync::Wait;
use std::thread::Threads;

/// The command `edf`.
#[derive(Debug, Drop)]
pub struct Edf {
    pub effort: Effort,
}

impl Promised for Edf {
    ghost rules = { λ c. edf_rules c.effort.budget };

    fn laws(&self) {
        texts_read_as_one_set();
    }

    fn input(&self) -> Input {
        file_input()
    }
}

/// What it makes of its input, with the effort of the crew.
pub fn make<G: Gate, R: Threads + Wait + Sync>(
    crew: &Crew<'_, G, R>,
    bytes: &[u8],
) -> Result<Report, Unmade>
    requires { IsInputWithin (edf_rules crew.now.effort.budget).input bytes.now }
    ensures makes { IfOk result ((edf_rules crew.now.effort.budget).makes bytes.now) }
    ensures unmade { IfErr result (IsUnmadeCause (edf_rules crew.now.effort.budget).refuses bytes.now) }
{
    let (set, graphs) = read_set(crew.alloc, bytes)?;
    decide(crew, bytes, set, &graphs)
}

// The answer to an accepted set.
fn decide<G: Gate, R: Threads + Wait + Sync>(
    crew: &Crew<'_, G, R>,
    bytes: &[u8],
    set: TaskSet,
    graphs: &Graphs,
) -> Result<Report, Unmade>
    requires accepted { IsAccepted bytes.now set }
    requires graphs { graphs.now ≡ map digraph_of set.tasks }
    ensures decides { IfOk result (Besides crew.now.effort.budget bytes.now) }
    ensures unmade { IfErr result (IsUnmadeCause IsOutOfReach bytes.now) }
{
    let alloc = crew.alloc;
    match analyse_edf(crew, &Accepted::of(&set, graphs)) {
        Ok(EdfAnswer::Done(evidence)) => {
            make_report(alloc, Policy::Edf, set, evidence, Trail::Nothing)
        }
        Ok(EdfAnswer::Undecided(trail)) => make_report(
            alloc,
            Policy::Edf,
            set,
            Evidence::Undecided,
            make_trail(trail),
        ),
        Ok(EdfAnswer::Beyond(beyond)) => Err(refuse(beyond)),
        Err(_) => Err(Unmade::Memory),
    }
}

/// The trail of a spent budget.
pub fn make_trail(trail: EdfTrail) -> Trail
    ensures { result ≡ edf_trail_of trail }
{
    match trail {
        EdfTrail::Table { task, log } => Trail::Table { task, log },
        EdfTrail::Overload { last } => Trail::Overload { last },
    }
}

// Why a set whose numbers are out of reach has no answer.
fn refuse(beyond: Beyond) -> Unmade
    ensures { result ≡ Unmade.Refused (Fault.Limit (beyond_code beyond)) }
{
    Unmade::Refused(Fault::Limit {
        code: code_of(beyond),
    })
}

/// The code of numbers that are out of reach.
pub fn code_of(beyond: Beyond) -> u8
    ensures { result ≡ beyond_code beyond }
{
    match beyond {
        Beyond::TooFine => SCALE_TOO_FINE,
        Beyond::TooFar => HORIZON_TOO_FAR,
    }
}
