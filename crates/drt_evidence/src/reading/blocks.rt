//! The blocks of single values.
ghost use Rattle.std.specs.Prelude.{ℕ, List, IfOk, IfErr};
ghost use Rattle.drt_file.specs.trusted.Canonical.{written, written_line};
ghost use Rattle.drt_evidence.specs.Blocks.{IsStop, ReadsBlock};
ghost use Rattle.drt_claims.specs.Ranges.{IsInRangeCurve, IsInRangeEntry, IsInRangeFront, IsInRangePair, IsInRangeProof, IsInRangeRatio, IsInRangeRelease};
ghost use Rattle.drt_claims.specs.Ranges.{IsInRangeSearch, IsInRangeState, IsInRangeTail, IsInRangeTree, IsInRangeWalk};
ghost use Rattle.drt_evidence.specs.Some.{some_curve, some_entry, some_front, some_pair, some_proof, some_ratio, some_release, some_search, some_state, some_tail, some_tree, some_walk};
ghost use Rattle.drt_evidence.specs.Text.{curve_line, entry_line, front_lines, pair_line, proof_line, ratio_lines, release_line, search_lines, state_line, tail_lines, tree_lines, walk_line};

use crate::reading::block::{Block, read_counted, read_each};
use crate::reading::forms::{
    read_entry, read_jumps, read_numbers, read_pair, read_potentials, read_proof, read_ratio_line,
    read_release, read_search_line, read_state,
};
use crate::reading::text::{Stop, Text};
use drt_claims::{Pair, ProofClaim, RatioClaim, TreeClaim};
use drt_graph::FrontEntry;
use drt_model::{Release, Row};
use drt_states::{Jump, SearchClaim, StateClaim, TailClaim};
use std::alloc::Global;

// A ratio, its cycle and its potentials.
fn read_ratio(alloc: Global, text: &mut Text) -> Result<RatioClaim, Stop>
    ensures read { IfOk result (λ x. ReadsBlock (λ c. written (ratio_lines c)) IsInRangeRatio text.old.rest.now x text.new.rest.now) }
    ensures stops { IfErr result (IsStop (λ c. written (ratio_lines c)) IsInRangeRatio text.old.rest.now) }
{
    let ratio = read_ratio_line(text)?;
    let cycle = read_numbers(alloc, text, b"cycle")?;
    let potentials = read_potentials(alloc, text)?;
    Ok(RatioClaim {
        num: ratio.num,
        den: ratio.den,
        cycle,
        potentials,
    })
}

impl Block for RatioClaim {
    ghost block = { λ c. written (ratio_lines c) };

    ghost is_stated = { IsInRangeRatio };

    ghost some = { some_ratio };

    fn read(alloc: Global, text: &mut Text) -> Result<RatioClaim, Stop> {
        read_ratio(alloc, text)
    }
}

impl Block for FrontEntry {
    ghost block = { λ e. written_line (entry_line e) };

    ghost is_stated = { IsInRangeEntry };

    ghost some = { some_entry };

    fn read(_alloc: Global, text: &mut Text) -> Result<FrontEntry, Stop> {
        read_entry(text)
    }
}

// A front: how many labels, and the line of each.
fn read_front(alloc: Global, text: &mut Text) -> Result<Row<FrontEntry>, Stop>
    ensures read { IfOk result (λ x. ReadsBlock (λ f. written (front_lines f)) IsInRangeFront text.old.rest.now x text.new.rest.now) }
    ensures stops { IfErr result (IsStop (λ f. written (front_lines f)) IsInRangeFront text.old.rest.now) }
{
    read_counted(alloc, text, b"front")
}

impl Block for Row<FrontEntry> {
    ghost block = { λ f. written (front_lines f) };

    ghost is_stated = { IsInRangeFront };

    ghost some = { some_front };

    fn read(alloc: Global, text: &mut Text) -> Result<Row<FrontEntry>, Stop> {
        read_front(alloc, text)
    }
}

impl Block for Release {
    ghost block = { λ r. written_line (release_line r) };

    ghost is_stated = { IsInRangeRelease };

    ghost some = { some_release };

    fn read(_alloc: Global, text: &mut Text) -> Result<Release, Stop> {
        read_release(text)
    }
}

impl Block for Row<u32> {
    ghost block = { λ w. written_line (walk_line w) };

    ghost is_stated = { IsInRangeWalk };

    ghost some = { some_walk };

    fn read(alloc: Global, text: &mut Text) -> Result<Row<u32>, Stop> {
        read_numbers(alloc, text, b"walk")
    }
}

impl Block for Pair {
    ghost block = { λ p. written_line (pair_line p) };

    ghost is_stated = { IsInRangePair };

    ghost some = { some_pair };

    fn read(_alloc: Global, text: &mut Text) -> Result<Pair, Stop> {
        read_pair(text)
    }
}

// A tree: how many walks, the line of each, how many pairs, and the line of each.
fn read_tree(alloc: Global, text: &mut Text) -> Result<TreeClaim, Stop>
    ensures read { IfOk result (λ x. ReadsBlock (λ t. written (tree_lines t)) IsInRangeTree text.old.rest.now x text.new.rest.now) }
    ensures stops { IfErr result (IsStop (λ t. written (tree_lines t)) IsInRangeTree text.old.rest.now) }
{
    let walks = read_counted(alloc, text, b"tree")?;
    let pairs = read_counted(alloc, text, b"pairs")?;
    Ok(TreeClaim { walks, pairs })
}

impl Block for TreeClaim {
    ghost block = { λ t. written (tree_lines t) };

    ghost is_stated = { IsInRangeTree };

    ghost some = { some_tree };

    fn read(alloc: Global, text: &mut Text) -> Result<TreeClaim, Stop> {
        read_tree(alloc, text)
    }
}

impl Block for ProofClaim {
    ghost block = { λ p. written_line (proof_line p) };

    ghost is_stated = { IsInRangeProof };

    ghost some = { some_proof };

    fn read(alloc: Global, text: &mut Text) -> Result<ProofClaim, Stop> {
        read_proof(alloc, text)
    }
}

impl Block for Row<Jump> {
    ghost block = { λ c. written_line (curve_line c) };

    ghost is_stated = { IsInRangeCurve };

    ghost some = { some_curve };

    fn read(alloc: Global, text: &mut Text) -> Result<Row<Jump>, Stop> {
        read_jumps(alloc, text)
    }
}

// A tail: how many vertices, and the line of each.
fn read_tail(alloc: Global, text: &mut Text) -> Result<TailClaim, Stop>
    ensures read { IfOk result (λ x. ReadsBlock (λ t. written (tail_lines t)) IsInRangeTail text.old.rest.now x text.new.rest.now) }
    ensures stops { IfErr result (IsStop (λ t. written (tail_lines t)) IsInRangeTail text.old.rest.now) }
{
    let curves = read_counted(alloc, text, b"tail")?;
    Ok(TailClaim { curves })
}

impl Block for TailClaim {
    ghost block = { λ t. written (tail_lines t) };

    ghost is_stated = { IsInRangeTail };

    ghost some = { some_tail };

    fn read(alloc: Global, text: &mut Text) -> Result<TailClaim, Stop> {
        read_tail(alloc, text)
    }
}

impl Block for StateClaim {
    ghost block = { λ s. written_line (state_line s) };

    ghost is_stated = { IsInRangeState };

    ghost some = { some_state };

    fn read(alloc: Global, text: &mut Text) -> Result<StateClaim, Stop> {
        read_state(alloc, text)
    }
}

// A search: its task, its vertex, how many states, and the line of each.
fn read_search(alloc: Global, text: &mut Text) -> Result<SearchClaim, Stop>
    ensures read { IfOk result (λ x. ReadsBlock (λ s. written (search_lines s)) IsInRangeSearch text.old.rest.now x text.new.rest.now) }
    ensures stops { IfErr result (IsStop (λ s. written (search_lines s)) IsInRangeSearch text.old.rest.now) }
{
    let opening = read_search_line(text)?;
    let states = read_each(alloc, text, opening.count)?;
    Ok(SearchClaim {
        task: opening.task,
        vertex: opening.vertex,
        states: Row::from_vec(states),
    })
}

impl Block for SearchClaim {
    ghost block = { λ s. written (search_lines s) };

    ghost is_stated = { IsInRangeSearch };

    ghost some = { some_search };

    fn read(alloc: Global, text: &mut Text) -> Result<SearchClaim, Stop> {
        read_search(alloc, text)
    }
}
