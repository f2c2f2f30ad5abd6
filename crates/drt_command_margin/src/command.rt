//! `margin`: how much the execution time of a vertex can grow.
ghost use Rattle.std.specs.Prelude.{◌≡◌, ℕ, IfErr, IfOk, MatchOption};
ghost use Rattle.drt_command.specs.declared.input.Input.{Input};
ghost use Rattle.drt_command.specs.Inputs.{IsInputWithin};
ghost use Rattle.drt_command.specs.Rules.{IsUnmadeCause};
ghost use Rattle.drt_command_files.specs.Spots.{NamesNone};
ghost use Rattle.drt_command_files.specs.TaskFiles.{IsAccepted};
ghost use Rattle.drt_margin.specs.Answers.{IsMarginAnswer};
ghost use Rattle.drt_margin.specs.Margin.{IsVertexOf};
ghost use Rattle.drt_command_margin.specs.Besides.{IsReportOf, margin_trail};
ghost use Rattle.drt_command_margin.specs.Margin.{IsProbed, margin_rules, policy_of};
ghost use Rattle.drt_command_margin.specs.Steps.{IsProbeCause, IsSpotOf};

use crate::text::print_margin;
use drt_claims::Evidence;
use drt_command::{Input, Promised, Report, Unmade};
use drt_command_files::{file_input, make_report, read_set, spot_of};
use drt_crew::Crew;
use drt_effort::Effort;
use drt_file::laws::texts_read_as_one_set;
use drt_horizon::Beyond;
use drt_margin::{MarginAnswer, MarginTrail, Question, margin, with_more};
use drt_model::{Policy, Row, TaskSet};
use drt_outcome::fault::{Fault, NO_SUCH_VERTEX};
use drt_outcome::outcome::{Trail, YES};
use drt_pool::Gate;
use std::alloc::Global;
use std::sync::Wait;
use std::thread::Threads;

/// The command `margin` of the vertex with these names, under fixed priorities or EDF.
#[derive(Debug, Drop)]
pub struct Margin {
    pub fixed: bool,
    pub task: Row<u8>,
    pub vertex: Row<u8>,
    pub effort: Effort,
}

impl Promised for Margin {
    ghost rules = { λ c. margin_rules c.fixed c.task c.vertex c.effort.budget };

    fn laws(&self) {
        texts_read_as_one_set();
    }

    fn input(&self) -> Input {
        file_input()
    }
}

/// What it makes of its input, with the effort of the crew.
pub fn make<G: Gate, R: Threads + Wait + Sync>(
    crew: &Crew<'_, G, R>,
    command: &Margin,
    bytes: &[u8],
) -> Result<Report, Unmade>
    requires { IsInputWithin (margin_rules command.now.fixed command.now.task command.now.vertex crew.now.effort.budget).input bytes.now }
    ensures makes { IfOk result ((margin_rules command.now.fixed command.now.task command.now.vertex crew.now.effort.budget).makes bytes.now) }
    ensures unmade { IfErr result (IsUnmadeCause (margin_rules command.now.fixed command.now.task command.now.vertex crew.now.effort.budget).refuses bytes.now) }
{
    let (set, _graphs) = read_set(crew.alloc, bytes)?;
    match spot_in(&set, command) {
        Some(spot) => answer(crew, command, bytes, set, spot),
        None => Err(Unmade::Refused(Fault::Limit {
            code: NO_SUCH_VERTEX,
        })),
    }
}

// The vertex that the command names, with its policy.
fn spot_in(set: &TaskSet, command: &Margin) -> Option<Question>
    ensures { MatchOption result (NamesNone command.now.task command.now.vertex set.now.tasks) (IsSpotOf set.now command.now) }
{
    let (task, vertex) = spot_of(set, command.task.as_slice(), command.vertex.as_slice())?;
    set.keep_limits();
    let policy = if command.fixed {
        Policy::Fixed
    } else {
        Policy::Edf
    };
    Some(Question {
        policy,
        task: task as u32,
        vertex: vertex as u32,
    })
}

// The answer about the vertex of an accepted set.
fn answer<G: Gate, R: Threads + Wait + Sync>(
    crew: &Crew<'_, G, R>,
    command: &Margin,
    bytes: &[u8],
    set: TaskSet,
    spot: Question,
) -> Result<Report, Unmade>
    requires accepted { IsAccepted bytes.now set }
    requires spot { IsSpotOf set command.now spot }
    ensures makes { IfOk result ((margin_rules command.now.fixed command.now.task command.now.vertex crew.now.effort.budget).makes bytes.now) }
    ensures unmade { IfErr result (IsUnmadeCause (IsProbed (policy_of command.now.fixed) command.now.task command.now.vertex) bytes.now) }
{
    match margin(crew, set, spot) {
        Ok((set, answer)) => report_of(crew.alloc, set, spot, answer),
        Err(_) => Err(Unmade::Memory),
    }
}

// The report of an answer.
fn report_of(
    alloc: Global,
    set: TaskSet,
    spot: Question,
    answer: MarginAnswer,
) -> Result<Report, Unmade>
    requires vertex { IsVertexOf set.tasks spot.task spot.vertex }
    requires answer { (budget : ℕ) × IsMarginAnswer set spot.policy spot.task spot.vertex budget answer }
    ensures report { IfOk result (IsReportOf spot.policy set spot.task spot.vertex answer) }
    ensures unmade { IfErr result (IsProbeCause answer) }
{
    match answer {
        MarginAnswer::Found { add, within, next } => {
            let text = print_margin(alloc, set, spot, add, within, next)?;
            Ok(Report::new(YES, text))
        }
        MarginAnswer::AtZero(evidence) => {
            make_report(alloc, spot.policy, set, evidence, Trail::Nothing)
        }
        MarginAnswer::Beyond { add, beyond } => Err(Unmade::Refused(Fault::Probe {
            add,
            code: drt_command_edf::code_of(beyond),
        })),
        MarginAnswer::Undecided { add, trail } => make_report(
            alloc,
            spot.policy,
            with_more(alloc, set, spot.task, spot.vertex, add),
            Evidence::Undecided,
            make_trail(trail),
        ),
    }
}

// The trail of a spent budget.
fn make_trail(trail: MarginTrail) -> Trail
    ensures { result ≡ margin_trail trail }
{
    match trail {
        MarginTrail::Edf(trail) => drt_command_edf::make_trail(trail),
        MarginTrail::Fixed(trail) => drt_command_sp::make_trail(trail),
    }
}
