//! `assign`: priorities that make a set schedulable under fixed priorities.
ghost use Rattle.std.specs.Prelude.{◌≡◌, ℕ, IfErr, IfOk, map};
ghost use Rattle.drt_model.specs.Contents.{Contents};
ghost use Rattle.drt_model.specs.Digraph.{digraph_of};
ghost use Rattle.drt_command.specs.declared.input.Input.{Input};
ghost use Rattle.drt_command.specs.Inputs.{IsInputWithin};
ghost use Rattle.drt_command.specs.Rules.{IsUnmadeCause};
ghost use Rattle.drt_model.specs.declared.jobs.Policy.TheVariants.{Fixed};
ghost use Rattle.drt_assign.specs.Assign.{IsAssigned};
ghost use Rattle.drt_claims.specs.Ranges.{IsEvidenceInRange};
ghost use Rattle.drt_evidence.specs.Text.{text};
ghost use Rattle.drt_claims.specs.declared.evidence.Evidence.TheVariants.{Undecided};
ghost use Rattle.drt_sp.specs.Evidence.{under_fixed};
ghost use Rattle.drt_command_files.specs.Dossiers.{evidence_status};
ghost use Rattle.drt_command_files.specs.TaskFiles.{IsAccepted};
ghost use Rattle.drt_command_assign.specs.Assign.{assign_rules};
ghost use Rattle.drt_command_assign.specs.Besides.{attempt_trail, report_of};
ghost use Rattle.drt_command_assign.specs.Text.{no_order_text};

use crate::text::print_stuck;
use drt_accepted::Accepted;
use drt_assign::{AssignAnswer, Stuck, assign, budgets_suffice_for_assign};
use drt_claims::{Dossier, Evidence};
use drt_command::{Input, Promised, Report, Unmade};
use drt_command_files::{file_input, make_report, read_set};
use drt_crew::Crew;
use drt_effort::Effort;
use drt_file::laws::texts_read_as_one_set;
use drt_graph::Graphs;
use drt_model::{Policy, Row, TaskSet};
use drt_outcome::outcome::{NO, Trail};
use drt_pool::Gate;
use drt_priorities::priorities_keep_limits;
use drt_trails::FixedTrail;
use std::alloc::Global;
use std::sync::Wait;
use std::thread::Threads;

/// The command `assign`.
#[derive(Debug, Drop)]
pub struct Assign {
    pub effort: Effort,
}

impl Promised for Assign {
    ghost rules = { λ c. assign_rules c.effort.budget };

    fn laws(&self) {
        texts_read_as_one_set();
        budgets_suffice_for_assign();
    }

    fn input(&self) -> Input {
        file_input()
    }
}

/// What it makes of its input, with the effort of the crew.
pub fn make<G: Gate, R: Threads + Wait + Sync>(
    crew: &Crew<'_, G, R>,
    bytes: &[u8],
) -> Result<Report, Unmade>
    requires { IsInputWithin (assign_rules crew.now.effort.budget).input bytes.now }
    ensures makes { IfOk result ((assign_rules crew.now.effort.budget).makes bytes.now) }
    ensures unmade { IfErr result (IsUnmadeCause (assign_rules crew.now.effort.budget).refuses bytes.now) }
{
    let (set, graphs) = read_set(crew.alloc, bytes)?;
    answer(crew, bytes, &set, &graphs)
}

// The answer to an accepted set.
fn answer<G: Gate, R: Threads + Wait + Sync>(
    crew: &Crew<'_, G, R>,
    bytes: &[u8],
    set: &TaskSet,
    graphs: &Graphs,
) -> Result<Report, Unmade>
    requires accepted { IsAccepted bytes.now set.now }
    requires graphs { graphs.now ≡ map digraph_of set.now.tasks }
    ensures assigns { IfOk result ((assign_rules crew.now.effort.budget).makes bytes.now) }
    ensures unmade { IfErr result (λ e. e ≡ Unmade.Memory) }
{
    priorities_keep_limits();
    match assign(crew, &Accepted::of(set, graphs)) {
        Ok(answer) => report_of(crew.alloc, answer),
        Err(_) => Err(Unmade::Memory),
    }
}

// The report of an answer.
fn report_of(alloc: Global, answer: AssignAnswer) -> Result<Report, Unmade>
    requires { (budget : ℕ) × (set : Contents) × IsAssigned set budget answer }
    ensures report { IfOk result (λ m. m ≡ report_of answer) }
    ensures unmade { IfErr result (λ e. e ≡ Unmade.Memory) }
{
    match answer {
        AssignAnswer::Done(dossier) => dossier_report(alloc, dossier),
        AssignAnswer::NoOrder { set, stuck } => stuck_report(alloc, &set, stuck.as_slice()),
        AssignAnswer::Undecided {
            set,
            higher,
            task: _,
            trail,
        } => open_report(alloc, set, attempt_trail(higher, trail)),
        AssignAnswer::Unproved { set, trail } => {
            open_report(alloc, set, drt_command_sp::make_trail(trail))
        }
    }
}

// The report of a set with the priorities that were found: its dossier, which is a yes.
fn dossier_report(alloc: Global, dossier: Dossier) -> Result<Report, Unmade>
    requires policy { dossier.policy ≡ Fixed }
    requires yes { evidence_status dossier.evidence ≡ 0 }
    requires in_range { IsEvidenceInRange dossier.evidence }
    ensures report { IfOk result (λ m. m ≡ record { status = 0; text = text dossier; trail = Trail.Nothing }) }
    ensures unmade { IfErr result (λ e. e ≡ Unmade.Memory) }
{
    let Dossier { set, evidence, .. } = dossier;
    make_report(alloc, Policy::Fixed, set, evidence, Trail::Nothing)
}

// The report of a set for which there are no priorities.
fn stuck_report(alloc: Global, set: &TaskSet, stuck: &[Stuck]) -> Result<Report, Unmade>
    ensures report { IfOk result (λ m. m ≡ record { status = 1; text = no_order_text set.now stuck.now; trail = Trail.Nothing }) }
    ensures unmade { IfErr result (λ e. e ≡ Unmade.Memory) }
{
    let text = print_stuck(alloc, set, stuck)?;
    Ok(Report::new(NO, text))
}

// The report that nothing is decided of a set, with the trail of a spent budget.
fn open_report(alloc: Global, set: TaskSet, trail: Trail) -> Result<Report, Unmade>
    ensures report { IfOk result (λ m. m ≡ record { status = 3; text = text (under_fixed set Undecided); trail = trail }) }
    ensures unmade { IfErr result (λ e. e ≡ Unmade.Memory) }
{
    make_report(alloc, Policy::Fixed, set, Evidence::Undecided, trail)
}

// The trail of a budget that was spent at a task under these others.
fn attempt_trail(higher: Row<u32>, trail: FixedTrail) -> Trail
    ensures { result ≡ attempt_trail higher trail }
{
    match trail {
        FixedTrail::Table { task, log } => Trail::Table { task, log },
        FixedTrail::Refine { task, vertex, log } => Trail::Assign {
            higher,
            task,
            vertex,
            log,
        },
    }
}
