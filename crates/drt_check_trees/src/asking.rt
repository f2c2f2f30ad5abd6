//! What two walks ask for, compared.
ghost use Rattle.std.specs.Prelude.{◌≡◌, ℕ, ◌↔◌, ◌<◌, ◌≤◌, IsTrue, length};
ghost use Rattle.drt_model.specs.Numbers.{most_work};
ghost use Rattle.drt_model.specs.Walk.{work, span_of};
ghost use Rattle.drt_check_trees.specs.Asking.{AsksNoLess, IsCursorPlaced, AreWalkVertices, asked_at};
ghost use Rattle.drt_check_trees.specs.Gaps.{AreGaps};

use crate::gaps::next_offset;
use drt_graph::Graph;

/// A place in a walk, the offset of the release there, and the work of those before it.
#[derive(Clone, Copy)]
pub struct Cursor {
    pub place: usize,
    pub offset: u64,
    pub work: u64,
}

/// The span and the work of a walk.
#[derive(Clone, Copy)]
pub struct Extent {
    pub span: u64,
    pub work: u64,
}

/// The span and the work of the walk.
pub(crate) fn measure(graph: &Graph, gaps: &[u32], walk: &[u32]) -> Extent
    requires gaps { AreGaps graph.now gaps.now }
    requires within { AreWalkVertices graph.now walk.now }
    ensures span { result.span ≡ span_of graph.now walk.now }
    ensures work { result.work ≡ work graph.now walk.now }
    ensures few { result.work ≤ most_work }
{
    graph.keep_limits();
    let mut span = 0;
    let mut work = 0;
    for i in 0..walk.len() {
        work += graph.vertex(walk[i]).wcet as u64;
        span = next_offset(graph, gaps, walk, i, span);
    }
    Extent { span, work }
}

/// Whether the walk asks at no time from 1 to the bound for less than the other one. It goes once along both, and looks just after
/// each release of the other one.
pub(crate) fn asks_no_less(
    graph: &Graph,
    gaps: &[u32],
    bound: u32,
    walk: &[u32],
    other: &[u32],
) -> bool
    requires gaps { AreGaps graph.now gaps.now }
    requires walk { AreWalkVertices graph.now walk.now }
    requires other { AreWalkVertices graph.now other.now }
    ensures { IsTrue result ↔ AsksNoLess bound graph.now other.now walk.now }
{
    graph.keep_limits();
    let mut cursor = Cursor {
        place: 0,
        offset: 0,
        work: 0,
    };
    let mut offset = 0;
    let mut work = 0;
    for i in 0..other.len() {
        if offset >= bound as u64 {
            return true;
        }
        cursor = advance(graph, gaps, walk, cursor, offset);
        work += graph.vertex(other[i]).wcet as u64;
        if cursor.work < work {
            return false;
        }
        offset = next_offset(graph, gaps, other, i, offset);
    }
    true
}

// The cursor past the releases up to the offset.
fn advance(graph: &Graph, gaps: &[u32], walk: &[u32], from: Cursor, offset: u64) -> Cursor
    requires gaps { AreGaps graph.now gaps.now }
    requires walk { AreWalkVertices graph.now walk.now }
    requires from { IsCursorPlaced walk.now from }
    ensures placed { IsCursorPlaced walk.now result }
    ensures same { (t : ℕ) → offset < t → asked_at graph.now walk.now result t ≡ asked_at graph.now walk.now from t }
    ensures past { result.place < length walk.now → offset < result.offset }
{
    graph.keep_limits();
    let mut cursor = from;
    while cursor.place < walk.len() && cursor.offset <= offset {
        cursor = Cursor {
            place: cursor.place + 1,
            offset: next_offset(graph, gaps, walk, cursor.place, cursor.offset),
            work: cursor.work + graph.vertex(walk[cursor.place]).wcet as u64,
        };
    }
    cursor
}
