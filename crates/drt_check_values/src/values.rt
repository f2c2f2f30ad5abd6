//! The values of nodes at times, taken from rooms.
ghost use Rattle.std.specs.Prelude.{◌≡◌, ◌+◌, ◌<◌, ◌≤◌, ◌↔◌, All, IfOk, IsTrue, length};
ghost use Rattle.drt_model.specs.Numbers.{most_time};
ghost use Rattle.drt_model.specs.Digraph.{IsSoundGraph};
ghost use Rattle.drt_claims.specs.Ranges.{IsInRangeTree};
ghost use Rattle.drt_claims.specs.Trees.{HasShortWalks, IsTree};
ghost use Rattle.drt_check_values.specs.Values.{AreLeft, AreValuesWithin, query_values};

use crate::places::places_of;
use crate::query::Query;
use crate::rises::{put_in_order, rises_of};
use crate::sweeping::{in_order, sweep};
use drt_claims::TreeClaim;
use drt_graph::Graph;
use drt_model::Memory;
use std::alloc::Global;

/// Takes the value of each query's node at its time from the room at the query's place, and says whether each fits. The rooms are
/// of use only where all fit.
///
/// It takes time in proportion to the vertices of all walks and the queries, times a logarithm of their number, however deep the
/// tree is, and nothing recurses. At its most it keeps 12 bytes for each vertex of a walk, some 32 for each walk with its pair, and
/// 4 for each query. More than 4,294,967,295 queries are want of memory.
pub fn take_values(
    alloc: Global,
    graph: &Graph,
    tree: &TreeClaim,
    bound: u32,
    queries: &[Query],
    rooms: &mut [u32],
) -> Result<bool, Memory>
    requires bound { bound ≤ most_time }
    requires short { HasShortWalks bound graph.now tree.now }
    requires tree { IsTree tree.now }
    requires ranges { IsInRangeTree tree.now }
    requires nodes { All (λ q. q.node < length tree.now.walks + length tree.now.pairs) queries.now }
    requires count { length rooms.old ≡ length queries.now }
    ensures fits { IfOk result (λ fit. IsTrue fit ↔ AreValuesWithin (query_values graph.now tree.now queries.now) rooms.old) }
    ensures left { IfOk result (λ fit. IsTrue fit → AreLeft (query_values graph.now tree.now queries.now) rooms.old rooms.new) }
    ensures count { length rooms.new ≡ length rooms.old }
{
    graph.keep_limits();
    let places = places_of(alloc, tree)?;
    let mut rises = rises_of(alloc, graph, tree, bound, places.firsts.as_slice())?;
    put_in_order(&mut rises);
    let order = in_order(alloc, queries)?;
    let count = tree.walks.as_slice().len();
    let fit = sweep(
        alloc,
        queries,
        order.as_slice(),
        &places,
        rises.as_slice(),
        count,
        rooms,
    )?;
    Ok(fit)
}
