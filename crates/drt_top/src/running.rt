//! One run: the words, and the command that they name.
ghost use Rattle.std.specs.Prelude.{◌≡◌, ◌≢◌, ◌<◌, ◌≤◌, ◌⊎◌, None, Some, map, string_bytes};
ghost use Rattle.drt_io.specs.Causes.{Rose};
ghost use Rattle.drt_command.specs.declared.input.Input.{Input};
ghost use Rattle.drt_command.specs.Inputs.{AtInput, IsInputWithin};
ghost use Rattle.drt_command.specs.Runs.{IsCompleteRun, IsCutShort, IsRun, Writes};
ghost use Rattle.drt_command_assign.specs.Assign.{assign_rules};
ghost use Rattle.drt_command_bench.specs.Bench.{bench_rules};
ghost use Rattle.drt_command_edf.specs.Edf.{edf_rules};
ghost use Rattle.drt_command_margin.specs.Margin.{margin_rules};
ghost use Rattle.drt_command_response.specs.Response.{response_rules};
ghost use Rattle.drt_command_sp.specs.Sp.{sp_rules};
ghost use Rattle.drt_outcome.specs.Stops.{IsRefusalStatus, IsStatus, fault_status};
ghost use Rattle.drt_words.specs.declared.meaning.Meaning.{Meaning};
ghost use Rattle.drt_words.specs.Meaning.{meaning_of};
ghost use Rattle.drt_top.specs.commands.{rules_of};

use drt_command::{Report, Unmade, conduct, conduct_by};
use drt_command_assign::{self as assign, Assign};
use drt_command_bench::{self as bench, Bench};
use drt_command_check::Check;
use drt_command_convert::Convert;
use drt_command_edf::{self as edf, Edf};
use drt_command_margin::{self as margin, Margin};
use drt_command_response::{self as response, Responses};
use drt_command_sp::{self as sp, Sp};
use drt_command_timeline::{ResponseTimeline, Timeline};
use drt_command_upgrade::Upgrade;
use drt_command_util::Util;
use drt_crew::Crew;
use drt_effort::Effort;
use drt_io::{Sink, Source};
use drt_model::Row;
use drt_outcome::{Fault, Outcome, Stop, Trail, outcome_of};
use drt_pool::Gate;
use drt_words::{Meaning, Spot, WordsError, words_of};
use std::alloc::Global;
use std::sync::Wait;
use std::thread::Threads;

/// Runs the command that the words name: it reads a task file from the source, for `convert` a classic file, for `check` and `timeline` a
/// dossier (`timeline` of a vertex: a task file with its responses behind it) and for `bench` nothing, and writes what the command makes
/// of it to the sink. Statuses: 0 done, and for `edf`, `sp`, `response` and `check` the
/// set is schedulable; 1 for these it isn't, for `assign` no priorities make it so, for `margin` it isn't as it is, and for `timeline` a no is
/// shown; 2 for `edf`, `margin` and `check` the utilisation is one; 3 for `edf`, `sp`, `response`, `assign` and `margin`
/// a budget was spent, with the trail, and for `check` there is nothing to check; 4 the file is refused with a
/// fault; 5 the words are refused; 6 a read failed; 7 a write failed; 8 no memory was to be had; 9 the
/// evidence of the dossier is rejected; 10 the dossier is refused with a fault.
///
/// Where the source tells its bytes, the clauses speak of them. The gate sees each turn of the workers that share a search; whatever
/// their number and whatever the order of their steps, the clauses hold.
pub fn run<S: Source, K: Sink, G: Gate, R: Threads + Wait + Sync>(
    rt: &R,
    alloc: Global,
    words: &[String],
    source: &mut S,
    sink: &mut K,
    gate: &G,
) -> Outcome
    // What the command makes of its input is written, whole.
    ensures done { (m : Meaning) → meaning_of (map string_bytes words.now) ≡ Some m → result.status < 4
        → AtInput (rules_of m).input (S.left source.old) (λ bytes. Writes (rules_of m) bytes result.status result.trail (K.held sink.old) (K.held sink.new)) }

    // Every other end has its cause.
    ensures refused { (m : Meaning) → meaning_of (map string_bytes words.now) ≡ Some m → IsRefusalStatus result.status
        → AtInput (rules_of m).input (S.left source.old) (λ bytes. (rules_of m).refuses bytes result.fault) }
    ensures words { result.status ≡ 5 → meaning_of (map string_bytes words.now) ≡ None }
    ensures read { result.status ≡ 6 → Rose (S.faults source.old) (S.faults source.new) }
    ensures write { result.status ≡ 7 → Rose (K.faults sink.old) (K.faults sink.new) }
    ensures known { IsStatus result.status }

    // Nothing is written before the whole text is made, and nothing is read where the words are refused or the command reads nothing.
    ensures cut { (m : Meaning) → meaning_of (map string_bytes words.now) ≡ Some m → result.status ≡ 7
        → AtInput (rules_of m).input (S.left source.old) (λ bytes. IsCutShort (rules_of m) bytes (K.held sink.old) (K.held sink.new)) }
    ensures unwritten { 4 ≤ result.status → result.status ≢ 7 → sink.new ≡ sink.old }
    ensures unread { meaning_of (map string_bytes words.now) ≡ None → source.new ≡ source.old }
    ensures untouched { (m : Meaning) → meaning_of (map string_bytes words.now) ≡ Some m → (rules_of m).input ≡ Input.Nothing → source.new ≡ source.old }

    // Refused words have status 5 but for want of memory, and where nothing fails, an input has the status that it must have.
    ensures refused_words { meaning_of (map string_bytes words.now) ≡ None → (result.status ≡ 5) ⊎ (result.status ≡ 8) }
    ensures complete { (m : Meaning) → meaning_of (map string_bytes words.now) ≡ Some m
        → ¬ Rose (S.faults source.old) (S.faults source.new)
        → ¬ Rose (K.faults sink.old) (K.faults sink.new)
        → AtInput (rules_of m).input (S.left source.old) (λ bytes. IsCompleteRun (rules_of m) bytes result.status result.fault) }

    // A fault stands in the outcome of a refused input alone, with the status of its kind, and a trail in that of a text that was written.
    ensures fault { ¬ IsRefusalStatus result.status → result.fault ≡ Fault.Nothing }
    ensures kind { IsRefusalStatus result.status → result.status ≡ fault_status result.fault }
    ensures trail { 4 ≤ result.status → result.trail ≡ Trail.Nothing }
{
    match words_of(alloc, words) {
        Ok(meaning) => dispatch(rt, alloc, meaning, source, sink, gate),
        Err(WordsError::Refused) => outcome_of(Stop::Words),
        Err(WordsError::Memory) => outcome_of(Stop::Memory),
    }
}

// Runs this command.
fn dispatch<S: Source, K: Sink, G: Gate, R: Threads + Wait + Sync>(
    rt: &R,
    alloc: Global,
    meaning: Meaning,
    source: &mut S,
    sink: &mut K,
    gate: &G,
) -> Outcome
    ensures run { IsRun (rules_of meaning) (S.left source.old) (Rose (S.faults source.old) (S.faults source.new)) (Rose (K.faults sink.old) (K.faults sink.new)) (K.held sink.old) (K.held sink.new) result }
    ensures unwritten { 4 ≤ result.status → result.status ≢ 7 → sink.new ≡ sink.old }
    ensures unread { (rules_of meaning).input ≡ Input.Nothing → source.new ≡ source.old }
{
    match meaning {
        Meaning::Edf(effort) => {
            let crew = crew_of(rt, alloc, effort, gate);
            let make = |bytes: &[u8]| -> Result<Report, Unmade>
                requires { IsInputWithin (edf_rules crew.effort.budget).input bytes.now }
            { edf::make(&crew, bytes) };
            conduct_by(alloc, &Edf { effort }, source, sink, make)
        }
        Meaning::Sp(effort) => {
            let crew = crew_of(rt, alloc, effort, gate);
            let make = |bytes: &[u8]| -> Result<Report, Unmade>
                requires { IsInputWithin (sp_rules crew.effort.budget).input bytes.now }
            { sp::make(&crew, bytes) };
            conduct_by(alloc, &Sp { effort }, source, sink, make)
        }
        Meaning::Upgrade => conduct(alloc, &Upgrade, source, sink),
        Meaning::Util => conduct(alloc, &Util, source, sink),
        Meaning::Check => conduct(alloc, &Check, source, sink),
        Meaning::Bench { workers, number } => {
            let command = Bench { workers, number };
            let make = |bytes: &[u8]| -> Result<Report, Unmade>
                requires { IsInputWithin (bench_rules command.number).input bytes.now }
            { bench::make(rt, alloc, &command, bytes, gate) };
            conduct_by(alloc, &command, source, sink, make)
        }
        Meaning::Response(effort) => {
            let crew = crew_of(rt, alloc, effort, gate);
            let make = |bytes: &[u8]| -> Result<Report, Unmade>
                requires { IsInputWithin (response_rules crew.effort.budget).input bytes.now }
            { response::make(&crew, bytes) };
            conduct_by(alloc, &Responses { effort }, source, sink, make)
        }
        Meaning::Convert => conduct(alloc, &Convert, source, sink),
        Meaning::Assign(effort) => {
            let crew = crew_of(rt, alloc, effort, gate);
            let make = |bytes: &[u8]| -> Result<Report, Unmade>
                requires { IsInputWithin (assign_rules crew.effort.budget).input bytes.now }
            { assign::make(&crew, bytes) };
            conduct_by(alloc, &Assign { effort }, source, sink, make)
        }
        Meaning::Margin {
            fixed,
            spot,
            effort,
        } => {
            let Spot { task, vertex } = spot;
            let command = Margin {
                fixed,
                task: Row::from_vec(task.into_vec()),
                vertex: Row::from_vec(vertex.into_vec()),
                effort,
            };
            let crew = crew_of(rt, alloc, effort, gate);
            let make = |bytes: &[u8]| -> Result<Report, Unmade>
                requires { IsInputWithin (margin_rules command.fixed command.task command.vertex crew.effort.budget).input bytes.now }
            { margin::make(&crew, &command, bytes) };
            conduct_by(alloc, &command, source, sink, make)
        }
        Meaning::Timeline { svg, vertex } => match vertex {
            None => conduct(alloc, &Timeline { svg }, source, sink),
            Some(spot) => {
                let Spot { task, vertex } = spot;
                let command = ResponseTimeline {
                    svg,
                    task: Row::from_vec(task.into_vec()),
                    vertex: Row::from_vec(vertex.into_vec()),
                };
                conduct(alloc, &command, source, sink)
            }
        },
    }
}

// Those who make the text of a command with this effort.
fn crew_of<'a, G: Gate, R: Threads + Wait + Sync>(
    rt: &'a R,
    alloc: Global,
    effort: Effort,
    gate: &'a G,
) -> Crew<'a, G, R>
    ensures { result.effort ≡ effort }
{
    Crew {
        rt,
        alloc,
        effort,
        gate,
    }
}
