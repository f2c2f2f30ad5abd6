//! The end of a run: writing what was made of the input, or telling why nothing is written.
ghost use Rattle.std.specs.Prelude.{◌≡◌, IfErr, Ok};
ghost use Rattle.drt_io.specs.Causes.{Rose};
ghost use Rattle.drt_command.specs.Runs.{HasEnded};

use crate::report::{Report, Unmade};
use drt_io::{Sink, write_all};
use drt_outcome::{Fault, Outcome, Stop, outcome_of};

/// Writes what was made, or tells why nothing was.
pub(crate) fn end_run<K: Sink>(made: Result<Report, Unmade>, sink: &mut K) -> Outcome
    ensures ended { HasEnded made (K.held sink.old) (K.held sink.new) (Rose (K.faults sink.old) (K.faults sink.new)) result }
    ensures kept { IfErr made (λ e. sink.new ≡ sink.old) }
{
    match made {
        Ok(report) => write_report(report, sink),
        Err(Unmade::Memory) => outcome_of(Stop::Memory),
        Err(Unmade::Refused(fault)) => outcome_of(Stop::Refused(fault)),
    }
}

// Writes what was made.
fn write_report<K: Sink>(report: Report, sink: &mut K) -> Outcome
    ensures { HasEnded (Ok report) (K.held sink.old) (K.held sink.new) (Rose (K.faults sink.old) (K.faults sink.new)) result }
{
    match write_all(sink, report.text.as_slice()) {
        Ok(()) => {
            let Report {
                status,
                text: _,
                trail,
            } = report;
            Outcome {
                status,
                trail,
                fault: Fault::Nothing,
            }
        }
        Err(_) => outcome_of(Stop::Write),
    }
}
