//! Texts of dossiers that are read back, and what stands above their evidence.
use crate::evidence::is_claim;
use drt_claims::{Dossier, Evidence};
use drt_evidence::{DossierError, print, read};
use drt_model::{Memory, Policy};
use std::alloc::Global;
use std::test::Fail;

// A yes for the task of one vertex.
const YES: &[u8] =
    b"drt-dossier 1\npolicy edf\ndrt 1\ntask T\nvertex a 2 5\nedge a a 5\nend\nevidence edf-yes\nratios 1\nratio 2 5\ncycle 1 0\npotentials 1 0\nfronts 1\nfront 0\nclose\n";

// The lines of a set, with those above it.
const OPENING: &[u8] =
    b"drt-dossier 1\npolicy fixed\ndrt 2\ntask T\npriority 7\nvertex a 2 5\nend\n";

// The dossier whose text bytes are, if it is printed as they were.
fn dossier_of(alloc: Global, bytes: &[u8]) -> Result<Option<Dossier>, DossierError> {
    if bytes.len() > 1_000_000 {
        return Ok(None);
    }
    let dossier = read(alloc, bytes)?;
    if is_printed(alloc, &dossier, bytes)? {
        Ok(Some(dossier))
    } else {
        Ok(None)
    }
}

fn is_printed(alloc: Global, dossier: &Dossier, bytes: &[u8]) -> Result<bool, Memory> {
    Ok(print(alloc, dossier)?.as_slice() == bytes)
}

fn below_opening(alloc: Global, lines: &[u8]) -> Result<Vec<u8>, Memory> {
    let mut bytes = Vec::from_slice(alloc, OPENING)?;
    bytes.extend_from_slice(lines)?;
    Ok(bytes)
}

// The same of the opening with these lines behind it.
pub(crate) fn dossier_below(alloc: Global, lines: &[u8]) -> Result<Option<Dossier>, Fail> {
    let bytes = below_opening(alloc, lines)?;
    Ok(dossier_of(alloc, bytes.as_slice())?)
}

fn is_set_text(alloc: Global, dossier: &Dossier, text: &[u8]) -> Result<bool, Memory> {
    Ok(drt_file::print(alloc, &dossier.set)?.as_slice() == text)
}

// Whether bytes are the text of a dossier for the policy and the set of that text.
fn is_for(alloc: Global, bytes: &[u8], policy: Policy, set: &[u8]) -> Result<bool, Fail> {
    match dossier_of(alloc, bytes)? {
        Some(dossier) => Ok(dossier.policy == policy && is_set_text(alloc, &dossier, set)?),
        None => Ok(false),
    }
}

#[test]
fn the_set_stands_between_the_policy_and_the_evidence(rt: HostRuntime) -> Result<(), Fail> {
    let cases = [
        (
            YES,
            Policy::Edf,
            b"drt 1\ntask T\nvertex a 2 5\nedge a a 5\nend\n".as_slice(),
        ),
        (
            b"drt-dossier 1\npolicy edf\ndrt 1\ntask T\nvertex a 2 5\nend\nevidence undecided\nclose\n",
            Policy::Edf,
            b"drt 1\ntask T\nvertex a 2 5\nend\n",
        ),
        (
            b"drt-dossier 1\npolicy fixed\ndrt 2\ntask T\npriority 7\nvertex a 2 5\nend\nevidence undecided\nclose\n",
            Policy::Fixed,
            b"drt 2\ntask T\npriority 7\nvertex a 2 5\nend\n",
        ),
    ];
    for (bytes, policy, set) in cases {
        assert!(rt; is_for(rt.alloc(), bytes, policy, set)?);
    }
    Ok(())
}

// Whether the yes has the ratio 2/5 of the cycle of vertex 0, and a front without a label.
fn is_yes_of_one_task(alloc: Global) -> Result<bool, Fail> {
    match dossier_of(alloc, YES)? {
        Some(dossier) => Ok(has_ratio_and_empty_front(&dossier.evidence)),
        None => Ok(false),
    }
}

fn has_ratio_and_empty_front(evidence: &Evidence) -> bool {
    match evidence {
        Evidence::EdfYes { ratios, fronts } => match (ratios.as_slice(), fronts.as_slice()) {
            ([claim], [front]) => is_claim(claim, 2, 5, &[0], &[0]) && front.as_slice().is_empty(),
            _ => false,
        },
        _ => false,
    }
}

#[test]
fn a_yes_has_the_ratios_and_the_fronts_of_its_tasks(rt: HostRuntime) -> Result<(), Fail> {
    assert!(rt; is_yes_of_one_task(rt.alloc())?);
    Ok(())
}
