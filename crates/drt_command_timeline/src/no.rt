//! `timeline` of a dossier: its releases that miss, drawn up to the deadline that is missed.
ghost use Rattle.std.specs.Prelude.{◌≡◌, ◌≤◌, IfErr, IfOk, MatchOption, length};
ghost use Rattle.drt_model.specs.Numbers.{most_text};
ghost use Rattle.drt_claims.specs.Kinds.{HasReleases, stated_miss, stated_releases};
ghost use Rattle.drt_command.specs.Rules.{IsUnmadeCause};
ghost use Rattle.drt_command_check.specs.Check.{IsDossierFault};
ghost use Rattle.drt_command_timeline.specs.Timeline.{DrawsNo, IsJudgedDossier, IsTimelineFault, timeline_rules};

use crate::drawing::draw;
use drt_check::{Judgement, judged_once};
use drt_claims::{Dossier, Evidence};
use drt_command::{Command, Input, Promised, Report, Unmade};
use drt_evidence::{DossierError, DossierFault};
use drt_model::Release;
use drt_outcome::fault::{DOSSIER_TOO_LONG, Fault};
use drt_outcome::outcome::NO;
use std::alloc::Global;

/// The most bytes of an input.
pub(crate) const MOST_BYTES: u64 = 1_073_741_824;

/// The code of a dossier that has no releases to draw.
pub const NO_RELEASES: u8 = 5;

/// The command `timeline` of a dossier, as text, or as a picture.
#[derive(Debug, Drop)]
pub struct Timeline {
    pub svg: bool,
}

impl Promised for Timeline {
    ghost rules = { λ t. timeline_rules t.svg };

    fn laws(&self) {
        judged_once();
    }

    fn input(&self) -> Input {
        Input::AtMost {
            bytes: MOST_BYTES,
            longer: Fault::Dossier {
                line: 0,
                code: DOSSIER_TOO_LONG,
            },
        }
    }
}

impl Command for Timeline {
    fn make(&self, alloc: Global, bytes: &[u8]) -> Result<Report, Unmade> {
        let (dossier, judgement) = judge(alloc, bytes)?;
        draw_no(alloc, bytes, self.svg, &dossier, judgement)
    }
}

// The dossier and its judgement.
fn judge(alloc: Global, bytes: &[u8]) -> Result<(Dossier, Judgement), Unmade>
    requires { length bytes.now ≤ most_text }
    ensures judged { IfOk result (λ p. IsJudgedDossier bytes.now p.0 p.1) }
    ensures unmade { IfErr result (IsUnmadeCause IsDossierFault bytes.now) }
{
    match drt_evidence::read(alloc, bytes) {
        Ok(dossier) => match drt_check::check(alloc, &dossier) {
            Ok(judgement) => Ok((dossier, judgement)),
            Err(_) => Err(Unmade::Memory),
        },
        Err(DossierError::Fault(DossierFault { line, code })) => {
            Err(Unmade::Refused(Fault::Dossier { line, code }))
        }
        Err(DossierError::Memory) => Err(Unmade::Memory),
    }
}

// The report of a dossier that was judged.
fn draw_no(
    alloc: Global,
    bytes: &[u8],
    svg: bool,
    dossier: &Dossier,
    judgement: Judgement,
) -> Result<Report, Unmade>
    requires { IsJudgedDossier bytes.now dossier.now judgement }
    ensures draws { IfOk result (DrawsNo svg bytes.now) }
    ensures unmade { IfErr result (IsUnmadeCause IsTimelineFault bytes.now) }
{
    if let Judgement::Rejected { number } = judgement {
        return Err(Unmade::Refused(Fault::Rule { number }));
    }
    match releases_in(&dossier.evidence) {
        Some((releases, until)) => {
            let text = draw(alloc, svg, &dossier.set, dossier.policy, releases, until)?;
            Ok(Report::new(NO, text))
        }
        None => Err(Unmade::Refused(Fault::Dossier {
            line: 0,
            code: NO_RELEASES,
        })),
    }
}

// The releases of evidence that has some, and the deadline that is missed.
fn releases_in(evidence: &Evidence) -> Option<(&[Release], u64)>
    ensures { MatchOption result
        (¬ HasReleases evidence.now)
        (λ p. HasReleases evidence.now × (p.0.now ≡ stated_releases evidence.now) × (p.1 ≡ (stated_miss evidence.now).deadline)) }
{
    match evidence {
        Evidence::EdfNo { releases, miss } | Evidence::FixedNo { releases, miss } => {
            Some((releases.as_slice(), miss.deadline))
        }
        _ => None,
    }
}
