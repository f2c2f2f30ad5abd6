//! The report of an analysis: its dossier, and the status that this has.
ghost use Rattle.std.specs.Prelude.{◌≡◌, IfErr, IfOk};
ghost use Rattle.drt_claims.specs.Ranges.{IsEvidenceInRange};
ghost use Rattle.drt_evidence.specs.Text.{text};
ghost use Rattle.drt_command_files.specs.Dossiers.{evidence_status};

use drt_claims::{Dossier, Evidence};
use drt_command::{Report, Unmade};
use drt_model::{Policy, TaskSet};
use drt_outcome::Trail;
use drt_outcome::outcome::{NO, ONE, UNDECIDED, YES};
use std::alloc::Global;

/// The report of a set under this policy with this evidence.
pub fn make_report(
    alloc: Global,
    policy: Policy,
    set: TaskSet,
    evidence: Evidence,
    trail: Trail,
) -> Result<Report, Unmade>
    requires { IsEvidenceInRange evidence }
    ensures report { IfOk result (λ m. m ≡ record { status = evidence_status evidence; text = text (record { policy = policy; set = set; evidence = evidence }); trail = trail }) }
    ensures unmade { IfErr result (λ e. e ≡ Unmade.Memory) }
{
    let status = status_of(&evidence);
    let dossier = Dossier {
        policy,
        set,
        evidence,
    };
    let text = drt_evidence::print(alloc, &dossier)?;
    Ok(Report {
        status,
        text,
        trail,
    })
}

// The status of an answer with this evidence.
fn status_of(evidence: &Evidence) -> u8
    ensures { result ≡ evidence_status evidence.now }
{
    match evidence {
        Evidence::EdfYes { .. } | Evidence::FixedYes { .. } | Evidence::FixedStates { .. } => YES,
        Evidence::EdfNo { .. } | Evidence::FixedNo { .. } => NO,
        Evidence::UtilisationOne { .. } => ONE,
        Evidence::Undecided => UNDECIDED,
    }
}
