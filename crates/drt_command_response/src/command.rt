//! `response`: the greatest response time of each vertex under fixed priorities, with releases that reach it.
ghost use Rattle.std.specs.Prelude.{◌≡◌, IfErr, IfOk, map};
ghost use Rattle.drt_model.specs.Digraph.{digraph_of};
ghost use Rattle.drt_command.specs.declared.input.Input.{Input};
ghost use Rattle.drt_command.specs.Inputs.{IsInputWithin};
ghost use Rattle.drt_command.specs.Rules.{IsUnmadeCause};
ghost use Rattle.drt_model.specs.declared.jobs.Policy.TheVariants.{Fixed};
ghost use Rattle.drt_evidence.specs.Text.{text};
ghost use Rattle.drt_responses.specs.Text.{response_text};
ghost use Rattle.drt_command_response.specs.Besides.{Besides, response_trail};
ghost use Rattle.drt_command_response.specs.Response.{response_rules};
ghost use Rattle.drt_command_files.specs.TaskFiles.{IsAccepted};

use drt_accepted::Accepted;
use drt_claims::Evidence;
use drt_command::{Input, Promised, Report, Unmade};
use drt_command_files::{file_input, make_report, read_set};
use drt_crew::Crew;
use drt_effort::Effort;
use drt_file::laws::texts_read_as_one_set;
use drt_graph::Graphs;
use drt_model::{Policy, TaskSet};
use drt_outcome::outcome::{Trail, YES};
use drt_pool::Gate;
use drt_response::{
    Answer, Response, ResponseTrail, budgets_suffice_for_responses, print, respond,
};
use std::alloc::Global;
use std::sync::Wait;
use std::thread::Threads;

/// The command `response`.
#[derive(Debug, Drop)]
pub struct Responses {
    pub effort: Effort,
}

impl Promised for Responses {
    ghost rules = { λ c. response_rules c.effort.budget };

    fn laws(&self) {
        texts_read_as_one_set();
        budgets_suffice_for_responses();
    }

    fn input(&self) -> Input {
        file_input()
    }
}

/// What it makes of its input, with the effort of the crew.
pub fn make<G: Gate, R: Threads + Wait + Sync>(
    crew: &Crew<'_, G, R>,
    bytes: &[u8],
) -> Result<Report, Unmade>
    requires { IsInputWithin (response_rules crew.now.effort.budget).input bytes.now }
    ensures makes { IfOk result ((response_rules crew.now.effort.budget).makes bytes.now) }
    ensures unmade { IfErr result (IsUnmadeCause (response_rules crew.now.effort.budget).refuses bytes.now) }
{
    let (set, graphs) = read_set(crew.alloc, bytes)?;
    answer(crew, bytes, set, &graphs)
}

// The answer to an accepted set.
fn answer<G: Gate, R: Threads + Wait + Sync>(
    crew: &Crew<'_, G, R>,
    bytes: &[u8],
    set: TaskSet,
    graphs: &Graphs,
) -> Result<Report, Unmade>
    requires accepted { IsAccepted bytes.now set }
    requires graphs { graphs.now ≡ map digraph_of set.tasks }
    ensures responds { IfOk result (Besides crew.now.effort.budget bytes.now) }
    ensures unmade { IfErr result (λ e. e ≡ Unmade.Memory) }
{
    let alloc = crew.alloc;
    match respond(crew, &Accepted::of(&set, graphs)) {
        Ok(Answer::Meets(responses)) => print_responses(alloc, responses.as_slice()),
        Ok(Answer::Misses(evidence)) => {
            make_report(alloc, Policy::Fixed, set, evidence, Trail::Nothing)
        }
        Ok(Answer::Undecided(trail)) => {
            let trail = make_trail(trail);
            make_report(alloc, Policy::Fixed, set, Evidence::Undecided, trail)
        }
        Err(_) => Err(Unmade::Memory),
    }
}

// The report of these responses.
fn print_responses(alloc: Global, responses: &[Response]) -> Result<Report, Unmade>
    ensures report { IfOk result (λ m. m ≡ record { status = 0; text = response_text responses.now; trail = Trail.Nothing }) }
    ensures unmade { IfErr result (λ e. e ≡ Unmade.Memory) }
{
    let text = print(alloc, responses)?;
    Ok(Report::new(YES, text))
}

// The trail of a spent budget.
fn make_trail(trail: ResponseTrail) -> Trail
    ensures { result ≡ response_trail trail }
{
    match trail {
        ResponseTrail::Fixed(spent) => drt_command_sp::make_trail(spent),
        ResponseTrail::Search {
            task,
            vertex,
            taken,
        } => Trail::Response {
            task,
            vertex,
            taken,
        },
    }
}
