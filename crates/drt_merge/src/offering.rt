//! Marks that are offered to a vertex.
ghost use Rattle.std.specs.Prelude.{◌≡◌, ◌<◌, ◌≤◌, ◌↔◌, ◌*◌, ◌+◌, IfOk, IsTrue};
ghost use Rattle.drt_model.specs.Digraph.{vertex_count};
ghost use Rattle.drt_wave.specs.Fronts.{IsWalkEntry};
ghost use Rattle.drt_merge.specs.Marks.{row, IsMarkOver, IsSmallMark, AreRows, AreMarksGrown, entry_of};
ghost use Rattle.drt_merge.specs.Offers.{IsOfferJudged, IsOffered};

use crate::lists::Lists;
use crate::mark::Mark;
use drt_graph::Graph;
use drt_model::Memory;

/// What becomes of a mark that is offered to a vertex.
#[derive(Debug, Drop, Clone, Copy, PartialEq, Eq)]
pub enum Offered {
    /// It is added.
    Kept,
    /// A mark of the vertex covers it.
    Covered,
    /// It comes out of order, and nothing is known of it.
    Astray,
}

// Whether the first mark covers the second.
pub(crate) fn is_over(a: Mark, b: Mark) -> bool
    ensures { IsTrue result ↔ IsMarkOver a b }
{
    a.offset <= b.offset && b.work <= a.work
}

// What becomes of a mark that is offered to a vertex.
fn judge(graph: &Graph, bound: u64, lists: &Lists, vertex: u32, mark: Mark) -> Offered
    requires vertex { vertex < vertex_count graph.now }
    requires rows { AreRows graph.now bound lists.now }
    ensures { IsOfferJudged (row lists.now vertex) mark result }
{
    match lists.last(vertex) {
        Some(last) => {
            if is_over(last, mark) {
                return Offered::Covered;
            }
            if last.offset < mark.offset && last.work < mark.work {
                return Offered::Kept;
            }
            Offered::Astray
        }
        None => Offered::Kept,
    }
}

/// Adds a mark to those of a vertex, unless they cover it.
pub fn offer(
    graph: &Graph,
    bound: u64,
    lists: &mut Lists,
    vertex: u32,
    mark: Mark,
) -> Result<Offered, Memory>
    requires vertex { vertex < vertex_count graph.now }
    requires walk { IsWalkEntry graph.now bound (entry_of vertex mark) }
    requires small { IsSmallMark mark }
    requires rows { AreRows graph.now bound lists.old }
    ensures rows { IfOk result (λ outcome. AreRows graph.now bound lists.new) }
    ensures grown { IfOk result (λ outcome. AreMarksGrown lists.old lists.new) }
    ensures offered { IfOk result (λ outcome. IsOffered (row lists.new vertex) mark outcome) }
{
    match judge(graph, bound, lists, vertex, mark) {
        Offered::Kept => {
            lists.push(vertex, mark)?;
            Ok(Offered::Kept)
        }
        Offered::Covered => Ok(Offered::Covered),
        Offered::Astray => Ok(Offered::Astray),
    }
}
