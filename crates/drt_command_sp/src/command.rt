//! `sp`: the answer under fixed priorities, and its dossier.
ghost use Rattle.std.specs.Prelude.{◌≡◌, IfErr, IfOk, map};
ghost use Rattle.drt_model.specs.Digraph.{digraph_of};
ghost use Rattle.drt_command.specs.declared.input.Input.{Input};
ghost use Rattle.drt_claims.specs.Ranges.{IsEvidenceInRange};
ghost use Rattle.drt_command.specs.Inputs.{IsInputWithin};
ghost use Rattle.drt_command.specs.Rules.{IsUnmadeCause};
ghost use Rattle.drt_evidence.specs.Text.{text};
ghost use Rattle.drt_sp.specs.Evidence.{under_fixed};
ghost use Rattle.drt_command_files.specs.Dossiers.{evidence_status};
ghost use Rattle.drt_command_sp.specs.Besides.{Besides, trail_after, fixed_trail_of};
ghost use Rattle.drt_command_sp.specs.Sp.{sp_rules};
ghost use Rattle.drt_command_files.specs.TaskFiles.{IsAccepted};

use drt_accepted::Accepted;
use drt_command::{Input, Promised, Report, Unmade};
use drt_command_files::{file_input, make_report, read_set};
use drt_crew::Crew;
use drt_effort::Effort;
use drt_file::laws::texts_read_as_one_set;
use drt_fixed::{Analysed, analyse_fixed};
use drt_graph::Graphs;
use drt_model::{Policy, TaskSet};
use drt_outcome::outcome::Trail;
use drt_pool::Gate;
use drt_sp::budgets_suffice;
use drt_trails::FixedTrail;
use std::alloc::Global;
use std::sync::Wait;
use std::thread::Threads;

/// The command `sp`.
#[derive(Debug, Drop)]
pub struct Sp {
    pub effort: Effort,
}

impl Promised for Sp {
    ghost rules = { λ c. sp_rules c.effort.budget };

    fn laws(&self) {
        texts_read_as_one_set();
        budgets_suffice();
    }

    fn input(&self) -> Input {
        file_input()
    }
}

/// What it makes of its input, with the effort of the crew.
pub fn make<G: Gate, R: Threads + Wait + Sync>(
    crew: &Crew<'_, G, R>,
    bytes: &[u8],
) -> Result<Report, Unmade>
    requires { IsInputWithin (sp_rules crew.now.effort.budget).input bytes.now }
    ensures makes { IfOk result ((sp_rules crew.now.effort.budget).makes bytes.now) }
    ensures unmade { IfErr result (IsUnmadeCause (sp_rules crew.now.effort.budget).refuses bytes.now) }
{
    let (set, graphs) = read_set(crew.alloc, bytes)?;
    analyse(crew, bytes, set, &graphs)
}

// The answer to an accepted set.
fn analyse<G: Gate, R: Threads + Wait + Sync>(
    crew: &Crew<'_, G, R>,
    bytes: &[u8],
    set: TaskSet,
    graphs: &Graphs,
) -> Result<Report, Unmade>
    requires accepted { IsAccepted bytes.now set }
    requires graphs { graphs.now ≡ map digraph_of set.tasks }
    ensures analyses { IfOk result (Besides crew.now.effort.budget bytes.now) }
    ensures unmade { IfErr result (λ e. e ≡ Unmade.Memory) }
{
    match analyse_fixed(crew, &Accepted::of(&set, graphs)) {
        Ok(answer) => report_of(crew.alloc, set, answer),
        Err(_) => Err(Unmade::Memory),
    }
}

// The report of an answer: the dossier of the set under fixed priorities, and the trail of a spent budget.
fn report_of(alloc: Global, set: TaskSet, answer: Analysed) -> Result<Report, Unmade>
    requires { IsEvidenceInRange answer.evidence }
    ensures report { IfOk result (λ m. m ≡ record { status = evidence_status answer.evidence; text = text (under_fixed set answer.evidence); trail = trail_after answer.trail }) }
    ensures unmade { IfErr result (λ e. e ≡ Unmade.Memory) }
{
    let Analysed { evidence, trail } = answer;
    let trail = match trail {
        Some(spent) => make_trail(spent),
        None => Trail::Nothing,
    };
    make_report(alloc, Policy::Fixed, set, evidence, trail)
}

/// The trail of a spent budget.
pub fn make_trail(trail: FixedTrail) -> Trail
    ensures { result ≡ fixed_trail_of trail }
{
    match trail {
        FixedTrail::Table { task, log } => Trail::Table { task, log },
        FixedTrail::Refine { task, vertex, log } => Trail::Refine { task, vertex, log },
    }
}
