//! Whether the walks of trees cover those that extend them.
ghost use Rattle.std.specs.Prelude.{◌≡◌, ℕ, ◌++◌, ◌∷◌, [], ◌↔◌, ◌<◌, ◌≤◌, All, IfOk, IsTrue};
ghost use Rattle.drt_model.specs.Numbers.{most_time};
ghost use Rattle.drt_model.specs.Digraph.{out_degree};
ghost use Rattle.drt_model.specs.Walk.{work, span_of};
ghost use Rattle.drt_claims.specs.Claims.{graphs_of};
ghost use Rattle.drt_claims.specs.Trees.{CoversWalks, HasOpeningWalks, HasShortWalks, IsClosedWalk, IsShortWalk, IsTreePerHigherTask, greatest_deadline};
ghost use Rattle.drt_claims.specs.Sorting.{sorted_graphs};
ghost use Rattle.drt_check_trees.specs.Entries.{IsCatalogue, IsExtendedBy, last_in};
ghost use Rattle.drt_check_trees.specs.Gaps.{IsBoundedGraph};
ghost use Rattle.drt_check_trees.specs.Order.{IsPriorityOrder};
ghost use Rattle.drt_model.specs.Each.{Each};

use crate::asking::{Extent, measure};
use crate::deadlines::greatest_deadline;
use crate::entries::{Catalogue, entries_of, has_above, last_in, walk_at};
use crate::gaps::{Bounded, gaps_of};
use crate::order::tree_graph;
use drt_claims::TreeClaim;
use drt_graph::{Graph, Graphs};
use drt_model::{Memory, Row, TaskSet};
use std::alloc::Global;

/// Whether in each tree the walks of single vertices and the walks of the tree extended by an edge are dominated by walks of the
/// tree, as far as they span less than the greatest deadline. It looks at no walk of another tree, and takes some 32 bytes for each
/// walk of a tree at a time.
pub fn cover_walks(
    alloc: Global,
    set: &TaskSet,
    graphs: &Graphs,
    order: &[u32],
    trees: &[TreeClaim],
) -> Result<bool, Memory>
    requires graphs { graphs.now ≡ graphs_of set.now.tasks }
    requires order { IsPriorityOrder set.now.tasks order.now }
    requires per_task { IsTreePerHigherTask set.now.tasks trees.now }
    requires short { Each (HasShortWalks (greatest_deadline set.now.tasks)) (sorted_graphs set.now.tasks trees.now) trees.now }
    ensures { IfOk result (λ covers. IsTrue covers ↔ Each (CoversWalks (greatest_deadline set.now.tasks)) (sorted_graphs set.now.tasks trees.now) trees.now) }
{
    let bound = greatest_deadline(set);
    for i in 0..trees.len() {
        let graph = tree_graph(set, graphs, order, trees, i);
        if !covers(alloc, graph, bound, &trees[i])? {
            return Ok(false);
        }
    }
    Ok(true)
}

// Whether the tree covers its openings and extensions.
fn covers(alloc: Global, graph: &Graph, bound: u32, tree: &TreeClaim) -> Result<bool, Memory>
    requires from { 1 ≤ bound }
    requires to { bound ≤ most_time }
    requires short { HasShortWalks bound graph.now tree.now }
    ensures { IfOk result (λ covers. IsTrue covers ↔ CoversWalks bound graph.now tree.now) }
{
    let gaps = gaps_of(alloc, graph)?;
    let bounded = Bounded {
        graph,
        gaps: gaps.as_slice(),
        bound,
    };
    let entries = entries_of(alloc, &bounded, tree)?;
    let catalogue = Catalogue {
        tree,
        entries: entries.as_slice(),
    };
    let mut hints = [0; 96];
    if !has_openings(&bounded, &catalogue, &mut hints) {
        return Ok(false);
    }
    are_closed(alloc, &bounded, &catalogue, &mut hints)
}

// Whether the walk of each single vertex is dominated.
fn has_openings(bounded: &Bounded<'_>, catalogue: &Catalogue<'_>, hints: &mut [usize; 96]) -> bool
    requires bounded { IsBoundedGraph bounded.now }
    requires from { 1 ≤ bounded.now.bound }
    requires catalogue { IsCatalogue bounded.now catalogue.now }
    ensures { IsTrue result ↔ HasOpeningWalks bounded.now.bound bounded.now.graph.now catalogue.now.tree.now }
{
    for v in 0..bounded.graph.vertex_count() {
        let opening = [v];
        let extent = Extent {
            span: 0,
            work: bounded.graph.vertex(v).wcet as u64,
        };
        if !has_above(bounded, catalogue, hints, &opening, extent) {
            return false;
        }
    }
    true
}

// Whether each walk's extensions are dominated, or span as much as the bound. It looks at the walks of entries alone: the extensions
// of a walk that another one dominates are dominated by those of the other one.
fn are_closed(
    alloc: Global,
    bounded: &Bounded<'_>,
    catalogue: &Catalogue<'_>,
    hints: &mut [usize; 96],
) -> Result<bool, Memory>
    requires bounded { IsBoundedGraph bounded.now }
    requires catalogue { IsCatalogue bounded.now catalogue.now }
    ensures { IfOk result (λ closed. IsTrue closed ↔ All (IsClosedWalk bounded.now.bound bounded.now.graph.now catalogue.now.tree.now) catalogue.now.tree.now.walks) }
{
    for i in 0..catalogue.entries.len() {
        let walk = walk_at(catalogue.tree, catalogue.entries[i].number);
        if !is_closed(alloc, bounded, catalogue, hints, walk)? {
            return Ok(false);
        }
    }
    Ok(true)
}

// Whether the walk's extension by each edge out of its last vertex is dominated, or spans as much as the bound.
fn is_closed(
    alloc: Global,
    bounded: &Bounded<'_>,
    catalogue: &Catalogue<'_>,
    hints: &mut [usize; 96],
    walk: &[u32],
) -> Result<bool, Memory>
    requires bounded { IsBoundedGraph bounded.now }
    requires catalogue { IsCatalogue bounded.now catalogue.now }
    requires walk { IsShortWalk bounded.now.bound bounded.now.graph.now walk.now }
    ensures { IfOk result (λ closed. IsTrue closed ↔ IsClosedWalk bounded.now.bound bounded.now.graph.now catalogue.now.tree.now walk.now) }
{
    bounded.graph.keep_limits();
    let last = last_in(walk);
    let extent = measure(bounded.graph, bounded.gaps, walk);
    for k in 0..bounded.graph.out_degree(last) {
        if !is_extended(alloc, bounded, catalogue, hints, walk, extent, k)? {
            return Ok(false);
        }
    }
    Ok(true)
}

// Whether the walk's extension by the edge of that number is dominated, or spans as much as the bound.
fn is_extended(
    alloc: Global,
    bounded: &Bounded<'_>,
    catalogue: &Catalogue<'_>,
    hints: &mut [usize; 96],
    walk: &[u32],
    extent: Extent,
    k: u32,
) -> Result<bool, Memory>
    requires bounded { IsBoundedGraph bounded.now }
    requires catalogue { IsCatalogue bounded.now catalogue.now }
    requires walk { IsShortWalk bounded.now.bound bounded.now.graph.now walk.now }
    requires span { extent.span ≡ span_of bounded.now.graph.now walk.now }
    requires work { extent.work ≡ work bounded.now.graph.now walk.now }
    requires edge { k < out_degree bounded.now.graph.now (last_in walk.now) }
    ensures { IfOk result (λ is. IsTrue is ↔ IsExtendedBy bounded.now.bound bounded.now.graph.now catalogue.now.tree.now walk.now k) }
{
    bounded.graph.keep_limits();
    let edge = *bounded.graph.out_edge(last_in(walk), k);
    let span = extent.span + edge.sep as u64;
    if span >= bounded.bound as u64 {
        return Ok(true);
    }
    let work = extent.work + bounded.graph.vertex(edge.to).wcet as u64;
    let longer = extended(alloc, walk, edge.to)?;
    Ok(has_above(
        bounded,
        catalogue,
        hints,
        longer.as_slice(),
        Extent { span, work },
    ))
}

// The walk with one more vertex.
fn extended(alloc: Global, walk: &[u32], to: u32) -> Result<Vec<u32>, Memory>
    ensures { IfOk result (λ longer. longer.items ≡ walk.now ++ to ∷ []) }
{
    let mut longer = Vec::with_capacity(alloc, walk.len() + 1)?;
    longer.extend_from_slice(walk)?;
    longer.push(to)?;
    Ok(longer)
}
