//! The values that lines of evidence are read as, each below one set and printed again as it was.
use crate::texts::dossier_below;
use drt_claims::{Evidence, Item, Pair, ProofClaim, RatioClaim, TreeClaim};
use drt_graph::FrontEntry;
use drt_model::{Miss, Release, Row};
use drt_states::{Jump, StateClaim, StateEnd, StateEntry};
use std::alloc::Global;
use std::test::Fail;

// A kind of evidence.
#[derive(Debug, Clone, Copy, PartialEq, Eq)]
enum Kind {
    EdfYes,
    EdfNo,
    UtilisationOne,
    FixedYes,
    FixedStates,
    FixedNo,
    Undecided,
}

// Whether evidence is of that kind and has no part but the miss of a no.
fn is_bare(evidence: &Evidence, kind: Kind) -> bool {
    match evidence {
        Evidence::EdfYes { ratios, fronts } => {
            kind == Kind::EdfYes && ratios.as_slice().is_empty() && fronts.as_slice().is_empty()
        }
        Evidence::EdfNo { releases, .. } => {
            kind == Kind::EdfNo && releases.as_slice().is_empty()
        }
        Evidence::UtilisationOne { ratios } => {
            kind == Kind::UtilisationOne && ratios.as_slice().is_empty()
        }
        Evidence::FixedYes { trees, proofs } => {
            kind == Kind::FixedYes && trees.as_slice().is_empty() && proofs.as_slice().is_empty()
        }
        Evidence::FixedStates { tails, searches } => {
            kind == Kind::FixedStates
                && tails.as_slice().is_empty()
                && searches.as_slice().is_empty()
        }
        Evidence::FixedNo { releases, .. } => {
            kind == Kind::FixedNo && releases.as_slice().is_empty()
        }
        Evidence::Undecided => kind == Kind::Undecided,
    }
}

fn is_of_kind(alloc: Global, lines: &[u8], kind: Kind) -> Result<bool, Fail> {
    match dossier_below(alloc, lines)? {
        Some(dossier) => Ok(is_bare(&dossier.evidence, kind)),
        None => Ok(false),
    }
}

#[test]
fn a_kind_is_named_by_its_keyword(rt: HostRuntime) -> Result<(), Fail> {
    let cases = [
        (
            b"evidence edf-yes\nratios 0\nfronts 0\nclose\n".as_slice(),
            Kind::EdfYes,
        ),
        (
            b"evidence edf-no\nreleases 0\nmiss 0 0 0\nclose\n",
            Kind::EdfNo,
        ),
        (
            b"evidence utilisation-one\nratios 0\nclose\n",
            Kind::UtilisationOne,
        ),
        (
            b"evidence fixed-yes\ntrees 0\nproofs 0\nclose\n",
            Kind::FixedYes,
        ),
        (
            b"evidence fixed-states\ntails 0\nsearches 0\nclose\n",
            Kind::FixedStates,
        ),
        (
            b"evidence fixed-no\nreleases 0\nmiss 0 0 0\nclose\n",
            Kind::FixedNo,
        ),
        (b"evidence undecided\nclose\n", Kind::Undecided),
    ];
    for (lines, kind) in cases {
        assert!(rt; is_of_kind(rt.alloc(), lines, kind)?);
    }
    Ok(())
}

pub(crate) fn is_claim(
    claim: &RatioClaim,
    num: u64,
    den: u64,
    cycle: &[u32],
    heights: &[i64],
) -> bool {
    claim.num == num
        && claim.den == den
        && claim.cycle.as_slice() == cycle
        && claim.potentials.as_slice() == heights
}

// Whether evidence is a utilisation of one with one ratio, of that cycle and with those potentials.
fn is_one_ratio(
    evidence: &Evidence,
    (num, den): (u64, u64),
    cycle: &[u32],
    heights: &[i64],
) -> bool {
    match evidence {
        Evidence::UtilisationOne { ratios } => match ratios.as_slice() {
            [claim] => is_claim(claim, num, den, cycle, heights),
            _ => false,
        },
        _ => false,
    }
}

// Whether these lines are such a utilisation.
fn has_ratio(
    alloc: Global,
    lines: &[u8],
    ratio: (u64, u64),
    cycle: &[u32],
    heights: &[i64],
) -> Result<bool, Fail> {
    match dossier_below(alloc, lines)? {
        Some(dossier) => Ok(is_one_ratio(&dossier.evidence, ratio, cycle, heights)),
        None => Ok(false),
    }
}

#[test]
fn a_ratio_has_its_cycle_and_its_potentials(rt: HostRuntime) -> Result<(), Fail> {
    let heights = [0, -6, -10_000_000_000_000_000, 10_000_000_000_000_000];
    let cases = [
        (
            b"evidence utilisation-one\nratios 1\nratio 0 1\ncycle 0\npotentials 0\nclose\n".as_slice(),
            (0, 1),
            [].as_slice(),
            [].as_slice(),
        ),
        (
            b"evidence utilisation-one\nratios 1\nratio 1000000000 1000000000\ncycle 0\npotentials 0\nclose\n",
            (1_000_000_000, 1_000_000_000),
            [].as_slice(),
            [].as_slice(),
        ),
        (
            b"evidence utilisation-one\nratios 1\nratio 0 1\ncycle 1 0\npotentials 0\nclose\n",
            (0, 1),
            [0].as_slice(),
            [].as_slice(),
        ),
        (
            b"evidence utilisation-one\nratios 1\nratio 0 1\ncycle 3 0 2 4294967295\npotentials 0\nclose\n",
            (0, 1),
            [0, 2, 4_294_967_295].as_slice(),
            [].as_slice(),
        ),
        (
            b"evidence utilisation-one\nratios 1\nratio 0 1\ncycle 0\npotentials 4 0 -6 -10000000000000000 10000000000000000\nclose\n",
            (0, 1),
            [].as_slice(),
            heights.as_slice(),
        ),
        (
            b"evidence utilisation-one\nratios 1\nratio 1 1\ncycle 3 0 2 1\npotentials 4 0 -6 -10000000000000000 10000000000000000\nclose\n",
            (1, 1),
            [0, 2, 1].as_slice(),
            heights.as_slice(),
        ),
    ];
    for (lines, ratio, cycle, heights) in cases {
        assert!(rt; has_ratio(rt.alloc(), lines, ratio, cycle, heights)?);
    }
    Ok(())
}

// Whether evidence is a yes with one front, of those labels, and no ratio.
fn is_one_front(evidence: &Evidence, labels: &[FrontEntry]) -> bool {
    match evidence {
        Evidence::EdfYes { ratios, fronts } => match fronts.as_slice() {
            [front] => ratios.as_slice().is_empty() && front.as_slice() == labels,
            _ => false,
        },
        _ => false,
    }
}

// Whether these lines are such a yes.
fn has_labels(alloc: Global, lines: &[u8], labels: &[FrontEntry]) -> Result<bool, Fail> {
    match dossier_below(alloc, lines)? {
        Some(dossier) => Ok(is_one_front(&dossier.evidence, labels)),
        None => Ok(false),
    }
}

#[test]
fn a_label_has_its_vertex_its_offset_and_its_work(rt: HostRuntime) -> Result<(), Fail> {
    let small = FrontEntry {
        vertex: 0,
        offset: 5,
        work: 2,
    };
    let greatest = FrontEntry {
        vertex: 4_294_967_295,
        offset: 1_000_000_000_000_000_000,
        work: 2_000_000_000_000_000_000,
    };
    let last = [greatest];
    let both = [small, greatest];
    let cases = [
        (
            b"evidence edf-yes\nratios 0\nfronts 1\nfront 1\nlabel 4294967295 1000000000000000000 2000000000000000000\nclose\n".as_slice(),
            last.as_slice(),
        ),
        (
            b"evidence edf-yes\nratios 0\nfronts 1\nfront 2\nlabel 0 5 2\nlabel 4294967295 1000000000000000000 2000000000000000000\nclose\n",
            both.as_slice(),
        ),
    ];
    for (lines, labels) in cases {
        assert!(rt; has_labels(rt.alloc(), lines, labels)?);
    }
    Ok(())
}

fn release(task: u32, vertex: u32, time: u64, need: u64) -> Release {
    Release {
        task,
        vertex,
        time,
        need,
    }
}

fn miss(task: u32, index: u32, deadline: u64) -> Miss {
    Miss {
        task,
        index,
        deadline,
    }
}

// Whether evidence is a no of that kind, of these releases and that miss.
fn is_no(evidence: &Evidence, kind: Kind, wanted: &[Release], late: Miss) -> bool {
    match evidence {
        Evidence::EdfNo { releases, miss } => {
            kind == Kind::EdfNo && releases.as_slice() == wanted && *miss == late
        }
        Evidence::FixedNo { releases, miss } => {
            kind == Kind::FixedNo && releases.as_slice() == wanted && *miss == late
        }
        _ => false,
    }
}

// Whether these lines are such a no.
fn has_releases(
    alloc: Global,
    lines: &[u8],
    kind: Kind,
    releases: &[Release],
    late: Miss,
) -> Result<bool, Fail> {
    match dossier_below(alloc, lines)? {
        Some(dossier) => Ok(is_no(&dossier.evidence, kind, releases, late)),
        None => Ok(false),
    }
}

#[test]
fn a_no_has_its_releases_in_their_order_and_then_the_miss(rt: HostRuntime) -> Result<(), Fail> {
    let one = [release(0, 1, 2, 3)];
    let two = [release(0, 1, 0, 4), release(1, 0, 2, 3)];
    let at_once = [release(0, 0, 0, 3), release(1, 0, 0, 2)];
    let cases = [
        (
            b"evidence edf-no\nreleases 2\nrelease 0 1 0 4\nrelease 1 0 2 3\nmiss 0 7 6\nclose\n".as_slice(),
            Kind::EdfNo,
            two.as_slice(),
            miss(0, 7, 6),
        ),
        (
            b"evidence edf-no\nreleases 1\nrelease 0 1 2 3\nmiss 0 0 0\nclose\n",
            Kind::EdfNo,
            one.as_slice(),
            miss(0, 0, 0),
        ),
        (
            b"evidence edf-no\nreleases 0\nmiss 0 7 6\nclose\n",
            Kind::EdfNo,
            [].as_slice(),
            miss(0, 7, 6),
        ),
        (
            b"evidence fixed-no\nreleases 2\nrelease 0 0 0 3\nrelease 1 0 0 2\nmiss 1 0 4\nclose\n",
            Kind::FixedNo,
            at_once.as_slice(),
            miss(1, 0, 4),
        ),
        (
            b"evidence fixed-no\nreleases 0\nmiss 1 0 4\nclose\n",
            Kind::FixedNo,
            [].as_slice(),
            miss(1, 0, 4),
        ),
    ];
    for (lines, kind, releases, late) in cases {
        assert!(rt; has_releases(rt.alloc(), lines, kind, releases, late)?);
    }
    Ok(())
}

fn are_walks(own: &[Row<u32>], wanted: &[&[u32]]) -> bool {
    if own.len() != wanted.len() {
        return false;
    }
    for i in 0..own.len() {
        if own[i].as_slice() != wanted[i] {
            return false;
        }
    }
    true
}

fn is_tree(own: &TreeClaim, walks: &[&[u32]], pairs: &[Pair]) -> bool {
    are_walks(own.walks.as_slice(), walks) && own.pairs.as_slice() == pairs
}

// Whether evidence is a yes of fixed priorities with one tree, of those walks and pairs, and so many proofs.
fn is_one_tree(evidence: &Evidence, walks: &[&[u32]], pairs: &[Pair], count: usize) -> bool {
    match evidence {
        Evidence::FixedYes { trees, proofs } => match trees.as_slice() {
            [tree] => proofs.as_slice().len() == count && is_tree(tree, walks, pairs),
            _ => false,
        },
        _ => false,
    }
}

// Whether these lines are such a yes.
fn has_tree(
    alloc: Global,
    lines: &[u8],
    walks: &[&[u32]],
    pairs: &[Pair],
    count: usize,
) -> Result<bool, Fail> {
    match dossier_below(alloc, lines)? {
        Some(dossier) => Ok(is_one_tree(&dossier.evidence, walks, pairs, count)),
        None => Ok(false),
    }
}

// A yes of fixed priorities with a tree and three proofs.
const TREE_AND_PROOFS: &[u8] =
    b"evidence fixed-yes\ntrees 1\ntree 3\nwalk 1 1\nwalk 1 0\nwalk 2 1 1\npairs 2\npair 0 1\npair 3 2\nproofs 3\nproof 0 0 1 p3\nproof 0 1 1 p2\nproof 1 0 3 s0 p5 p4\nclose\n";

// One whose tree and proof are empty.
const EMPTY_TREE_AND_PROOF: &[u8] =
    b"evidence fixed-yes\ntrees 1\ntree 0\npairs 0\nproofs 1\nproof 0 3 0\nclose\n";

#[test]
fn a_tree_has_its_walks_and_then_its_pairs(rt: HostRuntime) -> Result<(), Fail> {
    let first = Pair { left: 0, right: 1 };
    let second = Pair { left: 3, right: 2 };
    let walks = [[1].as_slice(), [0].as_slice(), [1, 1].as_slice()];
    let pairs = [first, second];
    let cases = [
        (TREE_AND_PROOFS, walks.as_slice(), pairs.as_slice(), 3),
        (EMPTY_TREE_AND_PROOF, [].as_slice(), [].as_slice(), 1),
        (
            b"evidence fixed-yes\ntrees 1\ntree 0\npairs 1\npair 3 2\nproofs 0\nclose\n",
            [].as_slice(),
            &pairs[1..],
            0,
        ),
    ];
    for (lines, walks, pairs, count) in cases {
        assert!(rt; has_tree(rt.alloc(), lines, walks, pairs, count)?);
    }
    Ok(())
}

// Whether a proof of this place has this task, vertex and items.
fn is_proof(
    proofs: &[ProofClaim],
    place: usize,
    (task, vertex): (u32, u32),
    items: &[Item],
) -> bool {
    if place >= proofs.len() {
        return false;
    }
    proofs[place].task == task
        && proofs[place].vertex == vertex
        && proofs[place].items.as_slice() == items
}

// Whether evidence is a yes of fixed priorities with so many trees and proofs, and that proof at this place.
fn is_proved_by(
    evidence: &Evidence,
    (all_trees, all_proofs): (usize, usize),
    place: usize,
    of: (u32, u32),
    items: &[Item],
) -> bool {
    match evidence {
        Evidence::FixedYes { trees, proofs } => {
            trees.as_slice().len() == all_trees
                && proofs.as_slice().len() == all_proofs
                && is_proof(proofs.as_slice(), place, of, items)
        }
        _ => false,
    }
}

// Whether these lines are such a yes.
fn has_proof(
    alloc: Global,
    lines: &[u8],
    counts: (usize, usize),
    place: usize,
    of: (u32, u32),
    items: &[Item],
) -> Result<bool, Fail> {
    match dossier_below(alloc, lines)? {
        Some(dossier) => Ok(is_proved_by(&dossier.evidence, counts, place, of, items)),
        None => Ok(false),
    }
}

#[test]
fn a_proof_has_its_items_behind_their_count(rt: HostRuntime) -> Result<(), Fail> {
    let three = [Item::Split(0), Item::Pass(5), Item::Pass(4)];
    let greatest = [
        Item::Pass(1_000_000_000_000_000_000),
        Item::Split(4_294_967_295),
    ];
    let cases = [
        (
            TREE_AND_PROOFS,
            (1, 3),
            0,
            (0, 0),
            [Item::Pass(3)].as_slice(),
        ),
        (
            TREE_AND_PROOFS,
            (1, 3),
            1,
            (0, 1),
            [Item::Pass(2)].as_slice(),
        ),
        (TREE_AND_PROOFS, (1, 3), 2, (1, 0), three.as_slice()),
        (EMPTY_TREE_AND_PROOF, (1, 1), 0, (0, 3), [].as_slice()),
        (
            b"evidence fixed-yes\ntrees 0\nproofs 1\nproof 1 0 3 s0 p5 p4\nclose\n",
            (0, 1),
            0,
            (1, 0),
            three.as_slice(),
        ),
        (
            b"evidence fixed-yes\ntrees 0\nproofs 1\nproof 0 3 0\nclose\n",
            (0, 1),
            0,
            (0, 3),
            [].as_slice(),
        ),
        (
            b"evidence fixed-yes\ntrees 0\nproofs 1\nproof 0 3 2 p1000000000000000000 s4294967295\nclose\n",
            (0, 1),
            0,
            (0, 3),
            greatest.as_slice(),
        ),
    ];
    for (lines, counts, place, of, items) in cases {
        assert!(rt; has_proof(rt.alloc(), lines, counts, place, of, items)?);
    }
    Ok(())
}

// Whether evidence is by tails and states, with one tail of one function, of those jumps.
fn has_jumps(alloc: Global, lines: &[u8], jumps: &[Jump]) -> Result<bool, Fail> {
    let Some(dossier) = dossier_below(alloc, lines)? else {
        return Ok(false);
    };
    match &dossier.evidence {
        Evidence::FixedStates { tails, .. } => match tails.as_slice() {
            [tail] => match tail.curves.as_slice() {
                [curve] => Ok(curve.as_slice() == jumps),
                _ => Ok(false),
            },
            _ => Ok(false),
        },
        _ => Ok(false),
    }
}

#[test]
fn a_tail_has_its_jumps_behind_their_count(rt: HostRuntime) -> Result<(), Fail> {
    let two = [
        Jump { offset: 0, work: 2 },
        Jump {
            offset: 1_000_000_000_000_000_000,
            work: 2_000_000_000_000_000_000,
        },
    ];
    let cases = [
        (
            b"evidence fixed-states\ntails 1\ntail 1\njumps 2 0 2 1000000000000000000 2000000000000000000\nsearches 0\nclose\n".as_slice(),
            two.as_slice(),
        ),
        (
            b"evidence fixed-states\ntails 1\ntail 1\njumps 1 0 2\nsearches 0\nclose\n",
            &two[..1],
        ),
        (
            b"evidence fixed-states\ntails 1\ntail 1\njumps 0\nsearches 0\nclose\n",
            &[],
        ),
    ];
    for (lines, jumps) in cases {
        assert!(rt; has_jumps(rt.alloc(), lines, jumps)?);
    }
    Ok(())
}

// What a state is to have: its entries, its work, the time at which it passes, or the place and the numbers of its children.
#[derive(Clone, Copy)]
struct Wanted<'a> {
    entries: &'a [StateEntry],
    work: u64,
    time: Option<u64>,
    place: u32,
    children: &'a [u32],
}

fn is_state(state: &StateClaim, wanted: Wanted<'_>) -> bool {
    let ends = match &state.end {
        StateEnd::Passes(time) => wanted.time == Some(*time),
        StateEnd::Splits { place, children } => {
            wanted.time.is_none()
                && *place == wanted.place
                && children.as_slice() == wanted.children
        }
    };
    ends && state.entries.as_slice() == wanted.entries && state.work == wanted.work
}

// Whether evidence is by tails and states, with one search, of this task and vertex, whose last one of so many states is this.
fn has_state(alloc: Global, lines: &[u8], count: usize, wanted: Wanted<'_>) -> Result<bool, Fail> {
    let Some(dossier) = dossier_below(alloc, lines)? else {
        return Ok(false);
    };
    let Evidence::FixedStates { searches, .. } = &dossier.evidence else {
        return Ok(false);
    };
    let [search] = searches.as_slice() else {
        return Ok(false);
    };
    let states = search.states.as_slice();
    if states.is_empty() || search.task != 7 || search.vertex != 8 {
        return Ok(false);
    }
    Ok(states.len() == count && is_state(&states[states.len() - 1], wanted))
}

#[test]
fn a_state_has_its_entries_its_work_and_its_end(rt: HostRuntime) -> Result<(), Fail> {
    let entries = [
        StateEntry {
            place: 0,
            vertex: 3,
            offset: 1_000_000_000_000_000_000,
        },
        StateEntry {
            place: 4_294_967_295,
            vertex: 4_294_967_295,
            offset: 0,
        },
    ];
    let passing = Wanted {
        entries: &[],
        work: 0,
        time: Some(6),
        place: 0,
        children: &[],
    };
    let split = Wanted {
        entries: &entries,
        work: 2_000_000_000_000_000_000,
        time: None,
        place: 4_294_967_295,
        children: &[1, 4_294_967_295],
    };
    let childless = Wanted {
        entries: &entries[..1],
        work: 5,
        time: None,
        place: 2,
        children: &[],
    };
    let cases = [
        (
            b"evidence fixed-states\ntails 0\nsearches 1\nsearch 7 8 1\nstate 0 0 p6\nclose\n".as_slice(),
            1,
            passing,
        ),
        (
            b"evidence fixed-states\ntails 0\nsearches 1\nsearch 7 8 2\nstate 0 0 p6\nstate 2 0 3 1000000000000000000 4294967295 4294967295 0 2000000000000000000 s4294967295 1 4294967295\nclose\n",
            2,
            split,
        ),
        (
            b"evidence fixed-states\ntails 0\nsearches 1\nsearch 7 8 1\nstate 1 0 3 1000000000000000000 5 s2\nclose\n",
            1,
            childless,
        ),
    ];
    for (lines, count, wanted) in cases {
        assert!(rt; has_state(rt.alloc(), lines, count, wanted)?);
    }
    Ok(())
}
