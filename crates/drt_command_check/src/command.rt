//! `check`: the checker's judgement of a dossier.
ghost use Rattle.std.specs.Prelude.{◌≡◌, ◌≤◌, IfErr, IfOk, length};
ghost use Rattle.drt_model.specs.Numbers.{most_text};
ghost use Rattle.drt_command.specs.Rules.{IsUnmadeCause};
ghost use Rattle.drt_command_check.specs.Check.{Checks, IsDossierFault, IsJudgementOf, check_rules};

use drt_check::{Judgement, judged_once};
use drt_command::{Command, Input, Promised, Report, Unmade};
use drt_evidence::{DossierError, DossierFault};
use drt_model::Row;
use drt_outcome::fault::{DOSSIER_TOO_LONG, Fault};
use drt_outcome::outcome::{NO, ONE, Trail, UNDECIDED, YES};
use std::alloc::Global;

// The most bytes that a dossier has.
const MOST_DOSSIER_BYTES: u64 = 1_073_741_824;

/// The command `check`.
#[derive(Debug, Drop)]
pub struct Check;

impl Promised for Check {
    ghost rules = { λ _. check_rules };

    fn laws(&self) {
        judged_once();
    }

    fn input(&self) -> Input {
        Input::AtMost {
            bytes: MOST_DOSSIER_BYTES,
            longer: Fault::Dossier {
                line: 0,
                code: DOSSIER_TOO_LONG,
            },
        }
    }
}

impl Command for Check {
    fn make(&self, alloc: Global, bytes: &[u8]) -> Result<Report, Unmade> {
        let judgement = judge(alloc, bytes)?;
        make_report(alloc, bytes, judgement)
    }
}

// The judgement of a dossier.
fn judge(alloc: Global, bytes: &[u8]) -> Result<Judgement, Unmade>
    requires { length bytes.now ≤ most_text }
    ensures judged { IfOk result (IsJudgementOf bytes.now) }
    ensures unmade { IfErr result (IsUnmadeCause IsDossierFault bytes.now) }
{
    match drt_evidence::read(alloc, bytes) {
        Ok(dossier) => match drt_check::check(alloc, &dossier) {
            Ok(judgement) => Ok(judgement),
            Err(_) => Err(Unmade::Memory),
        },
        Err(DossierError::Fault(DossierFault { line, code })) => {
            Err(Unmade::Refused(Fault::Dossier { line, code }))
        }
        Err(DossierError::Memory) => Err(Unmade::Memory),
    }
}

// The report of a judgement; rejected evidence has none.
fn make_report(alloc: Global, bytes: &[u8], judgement: Judgement) -> Result<Report, Unmade>
    requires { IsJudgementOf bytes.now judgement }
    ensures checks { IfOk result (Checks bytes.now) }
    ensures unmade { IfErr result (IsUnmadeCause IsDossierFault bytes.now) }
{
    match judgement {
        Judgement::Rejected { number } => Err(Unmade::Refused(Fault::Rule { number })),
        Judgement::Schedulable => report_line(alloc, YES, b"schedulable\n"),
        Judgement::Unschedulable => report_line(alloc, NO, b"unschedulable\n"),
        Judgement::UtilisationOne => report_line(alloc, ONE, b"utilisation-one\n"),
        Judgement::NothingToCheck => report_line(alloc, UNDECIDED, b"nothing-to-check\n"),
    }
}

// The report of a line.
fn report_line(alloc: Global, status: u8, line: &[u8]) -> Result<Report, Unmade>
    ensures report { IfOk result (λ m. m ≡ record { status = status; text = line.now; trail = Trail.Nothing }) }
    ensures unmade { IfErr result (λ e. e ≡ Unmade.Memory) }
{
    match Vec::from_slice(alloc, line) {
        Ok(text) => Ok(Report::new(status, Row::from_vec(text))),
        Err(_) => Err(Unmade::Memory),
    }
}
