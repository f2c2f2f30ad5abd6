//! Walks of a tree in order, as many as dominate all of its walks, and the search for one that dominates a given walk.
ghost use Rattle.std.specs.Prelude.{◌≡◌, ℕ, ◌↔◌, ◌<◌, ◌≤◌, [], Any, IfOk, IsTrue, length, slice_index_or};
ghost use Rattle.drt_model.specs.Walk.{work, span_of};
ghost use Rattle.drt_claims.specs.Trees.{HasShortWalks, IsShortWalk};
ghost use Rattle.drt_check_trees.specs.Asking.{AsksNoLess, AreWalkVertices};
ghost use Rattle.drt_check_trees.specs.Entries.{AreInOrder, AreWalkEntries, IsCatalogue, IsEntryOf, IsListed, IsWalkOver, is_up_to, last_in};
ghost use Rattle.drt_check_trees.specs.Gaps.{AreGaps, IsBoundedGraph};
ghost use Rattle.drt_check_trees.specs.declared.entries.Entry.{Entry};

use crate::asking::{Extent, asks_no_less, measure};
use crate::gaps::{Bounded, next_offset};
use drt_claims::TreeClaim;
use drt_graph::Graph;
use drt_model::Memory;
use std::alloc::Global;
use std::cmp::Reverse;

/// A walk by its number. Entries stand in order of the last vertices, then from the greatest work on, then in order of the spans, and
/// then by a digest of the releases, so that walks of the same releases stand together.
#[derive(Clone, Copy, PartialEq, Eq, PartialOrd, Ord)]
pub struct Entry {
    pub last: u32,
    pub work: Reverse<u64>,
    pub span: u32,
    pub digest: u32,
    pub number: usize,
}

/// A tree with entries of walks that dominate all of its walks, in order.
#[derive(Clone, Copy)]
pub struct Catalogue<'a> {
    pub tree: &'a TreeClaim,
    pub entries: &'a [Entry],
}

/// The last vertex of a walk.
pub(crate) fn last_in(walk: &[u32]) -> u32
    requires { 0 < length walk.now }
    ensures { result ≡ last_in walk.now }
{
    walk[walk.len() - 1]
}

/// The walk of the tree that has this number.
pub(crate) fn walk_at(tree: &TreeClaim, number: usize) -> &[u32]
    requires { number < length tree.now.walks }
    ensures { result.now ≡ slice_index_or tree.now.walks number [] }
{
    tree.walks.as_slice()[number].as_slice()
}

/// Entries of walks that dominate all walks, in order. A walk has none where the walk kept before it dominates it: so of walks of the
/// same releases, which stand together by their digests, one is looked at and not all.
pub(crate) fn entries_of(
    alloc: Global,
    bounded: &Bounded<'_>,
    tree: &TreeClaim,
) -> Result<Vec<Entry>, Memory>
    requires bounded { IsBoundedGraph bounded.now }
    requires short { HasShortWalks bounded.now.bound bounded.now.graph.now tree.now }
    ensures { IfOk result (λ entries. AreWalkEntries bounded.now.bound bounded.now.graph.now tree.now.walks entries.items) }
{
    let mut entries = listed(alloc, bounded, tree)?;
    entries.sort_unstable();
    Ok(thinned(bounded, tree, entries))
}

// The entries without those whose walk the one kept before it dominates.
fn thinned(bounded: &Bounded<'_>, tree: &TreeClaim, all: Vec<Entry>) -> Vec<Entry>
    requires bounded { IsBoundedGraph bounded.now }
    requires short { HasShortWalks bounded.now.bound bounded.now.graph.now tree.now }
    requires all { AreWalkEntries bounded.now.bound bounded.now.graph.now tree.now.walks all.items }
    ensures { AreWalkEntries bounded.now.bound bounded.now.graph.now tree.now.walks result.items }
{
    let mut entries = all;
    let mut kept = 1;
    for i in 1..entries.len() {
        let entry = entries[i];
        let walk = walk_at(tree, entry.number);
        let last = entries[kept - 1];
        if !is_over(bounded, tree, last, walk, entry.span as u64) {
            entries[kept] = entry;
            kept += 1;
        }
    }
    entries.truncate(kept);
    entries
}

// Whether the walk of the entry dominates this one, of this span.
fn is_over(bounded: &Bounded<'_>, tree: &TreeClaim, entry: Entry, walk: &[u32], span: u64) -> bool
    requires bounded { IsBoundedGraph bounded.now }
    requires short { HasShortWalks bounded.now.bound bounded.now.graph.now tree.now }
    requires entry { IsEntryOf bounded.now.graph.now tree.now.walks entry }
    requires walk { IsShortWalk bounded.now.bound bounded.now.graph.now walk.now }
    requires span { span ≡ span_of bounded.now.graph.now walk.now }
    ensures { IsTrue result ↔ IsWalkOver bounded.now.bound bounded.now.graph.now walk.now (slice_index_or tree.now.walks entry.number []) }
{
    if entry.last != last_in(walk) {
        return false;
    }
    is_no_less(bounded, tree, entry, walk, span)
}

// An entry for each walk, by their numbers.
fn listed(alloc: Global, bounded: &Bounded<'_>, tree: &TreeClaim) -> Result<Vec<Entry>, Memory>
    requires bounded { IsBoundedGraph bounded.now }
    requires short { HasShortWalks bounded.now.bound bounded.now.graph.now tree.now }
    ensures { IfOk result (λ entries. IsListed bounded.now.graph.now tree.now.walks entries.items (length tree.now.walks)) }
{
    let count = tree.walks.as_slice().len();
    let mut entries = Vec::with_capacity(alloc, count)?;
    for i in 0..count {
        entries.push(entry_of(bounded, walk_at(tree, i), i))?;
    }
    Ok(entries)
}

// The entry of a walk that has this number.
fn entry_of(bounded: &Bounded<'_>, walk: &[u32], number: usize) -> Entry
    requires bounded { IsBoundedGraph bounded.now }
    requires short { IsShortWalk bounded.now.bound bounded.now.graph.now walk.now }
    ensures number { result.number ≡ number }
    ensures last { result.last ≡ last_in walk.now }
    ensures work { result.work.0 ≡ work bounded.now.graph.now walk.now }
    ensures span { result.span ≡ span_of bounded.now.graph.now walk.now }
{
    bounded.graph.keep_limits();
    let extent = measure(bounded.graph, bounded.gaps, walk);
    Entry {
        last: last_in(walk),
        work: Reverse(extent.work),
        span: extent.span as u32,
        digest: digest_of(bounded.graph, bounded.gaps, walk),
        number,
    }
}

// A number that walks of the same releases share, and that few others share with them.
fn digest_of(graph: &Graph, gaps: &[u32], walk: &[u32]) -> u32
    requires gaps { AreGaps graph.now gaps.now }
    requires within { AreWalkVertices graph.now walk.now }
{
    graph.keep_limits();
    let mut digest = 2166136261;
    for i in 0..walk.len() {
        let gap = next_offset(graph, gaps, walk, i, 0) as u32;
        digest = mixed(mixed(digest, graph.vertex(walk[i]).wcet), gap);
    }
    digest
}

// The digest with one more number mixed in (FNV-1a, by words).
fn mixed(digest: u32, value: u32) -> u32 {
    (digest ^ value).wrapping_mul(16777619)
}

// How many entries are of walks to lower vertices.
fn first_to(entries: &[Entry], last: u32) -> usize
    requires { AreInOrder entries.now }
    ensures within { result ≤ length entries.now }
    ensures before { (k : ℕ) (d : Entry) → k < result → (slice_index_or entries.now k d).last < last }
    ensures after { (k : ℕ) (d : Entry) → result ≤ k → k < length entries.now → last ≤ (slice_index_or entries.now k d).last }
{
    entries.partition_point(|entry| entry.last < last)
}

// How many entries are of walks to lower vertices, or to this one with at least this work.
fn first_below(entries: &[Entry], last: u32, work: u64) -> usize
    requires { AreInOrder entries.now }
    ensures within { result ≤ length entries.now }
    ensures before { (k : ℕ) (d : Entry) → k < result → (slice_index_or entries.now k d).last ≤ last }
    ensures after { (k : ℕ) (d : Entry) → result ≤ k → k < length entries.now → (slice_index_or entries.now k d).last ≡ last → (slice_index_or entries.now k d).work.0 < work }
{
    entries.partition_point(
        |entry: &Entry| -> bool
            ensures { result ≡ is_up_to last work entry.now }
        { is_up_to(entry, last, work) },
    )
}

// Whether the entry is of a walk to a lower vertex, or to this one with at least this work.
fn is_up_to(entry: &Entry, last: u32, work: u64) -> bool
    ensures { result ≡ is_up_to last work entry.now }
{
    if entry.last == last {
        entry.work.0 >= work
    } else {
        entry.last < last
    }
}

// Whether the walk of the entry spans no more than the other one, and asks at no time for less.
fn is_no_less(
    bounded: &Bounded<'_>,
    tree: &TreeClaim,
    entry: Entry,
    other: &[u32],
    span: u64,
) -> bool
    requires bounded { IsBoundedGraph bounded.now }
    requires short { HasShortWalks bounded.now.bound bounded.now.graph.now tree.now }
    requires entry { IsEntryOf bounded.now.graph.now tree.now.walks entry }
    requires other { IsShortWalk bounded.now.bound bounded.now.graph.now other.now }
    ensures { IsTrue result ↔ (entry.span ≤ span) × AsksNoLess bounded.now.bound bounded.now.graph.now other.now (slice_index_or tree.now.walks entry.number []) }
{
    bounded.graph.keep_limits();
    if entry.span as u64 > span {
        return false;
    }
    let walk = walk_at(tree, entry.number);
    asks_no_less(bounded.graph, bounded.gaps, bounded.bound, walk, other)
}

// Whether there is an entry at this place whose walk dominates this one, of this span.
fn is_over_at(
    bounded: &Bounded<'_>,
    catalogue: &Catalogue<'_>,
    place: usize,
    walk: &[u32],
    span: u64,
) -> bool
    requires bounded { IsBoundedGraph bounded.now }
    requires catalogue { IsCatalogue bounded.now catalogue.now }
    requires walk { IsShortWalk bounded.now.bound bounded.now.graph.now walk.now }
    requires span { span ≡ span_of bounded.now.graph.now walk.now }
    ensures { IsTrue result → Any (IsWalkOver bounded.now.bound bounded.now.graph.now walk.now) catalogue.now.tree.now.walks }
{
    let entries = catalogue.entries;
    place < entries.len() && is_over(bounded, catalogue.tree, entries[place], walk, span)
}

// The place of the last entry that stands no later than this one. If a walk of the same releases is among those of a tree, the entry
// there is its own, or it was left out for that one.
fn last_until(entries: &[Entry], own: &Entry) -> usize {
    entries
        .partition_point(|entry| entry <= own)
        .saturating_sub(1)
}

/// Whether a walk dominates this one, of this extent. It first tries the entry that was found for the last walk to the same vertex,
/// by the hint at that vertex: extensions that come one after another are often alike. Then it tries the entry of a walk with the same
/// releases, which is there where the walk itself is among the others. At last, of those with its last vertex and at least its work, it
/// looks at those with the least work first.
pub(crate) fn has_above(
    bounded: &Bounded<'_>,
    catalogue: &Catalogue<'_>,
    hints: &mut [usize; 96],
    walk: &[u32],
    extent: Extent,
) -> bool
    requires bounded { IsBoundedGraph bounded.now }
    requires catalogue { IsCatalogue bounded.now catalogue.now }
    requires walk { IsShortWalk bounded.now.bound bounded.now.graph.now walk.now }
    requires span { extent.span ≡ span_of bounded.now.graph.now walk.now }
    requires work { extent.work ≡ work bounded.now.graph.now walk.now }
    ensures { IsTrue result ↔ Any (IsWalkOver bounded.now.bound bounded.now.graph.now walk.now) catalogue.now.tree.now.walks }
{
    bounded.graph.keep_limits();
    let entries = catalogue.entries;
    let last = last_in(walk);
    let span = extent.span;
    if is_over_at(bounded, catalogue, hints[last as usize], walk, span) {
        return true;
    }
    let own = Entry {
        last,
        work: Reverse(extent.work),
        span: span as u32,
        digest: digest_of(bounded.graph, bounded.gaps, walk),
        number: usize::MAX,
    };
    let alike = last_until(entries, &own);
    if is_over_at(bounded, catalogue, alike, walk, span) {
        hints[last as usize] = alike;
        return true;
    }
    let from = first_to(entries, last);
    let mut k = first_below(entries, last, extent.work);
    while k > from {
        k -= 1;
        if is_no_less(bounded, catalogue.tree, entries[k], walk, span) {
            hints[last as usize] = k;
            return true;
        }
    }
    false
}
