//! Whether claimed tails are tails, and bound what walks ask for.
ghost use Rattle.std.specs.Prelude.{◌≡◌, ◌+◌, ◌<◌, ◌≤◌, ◌↔◌, All, IsTrue, length};
ghost use Rattle.drt_model.specs.Digraph.{edge_of, out_degree, vertex_count};
ghost use Rattle.drt_model.specs.Walk.{wcet};
ghost use Rattle.drt_states.specs.Tails.{BoundsWalks, IsAboveJump, IsCurve, IsTail, curve_of, no_jump};
ghost use Rattle.drt_check_states.specs.Curves.{IsAboveAll, IsFunctionOpened, IsJumpOver};

use crate::curves::{is_curve, value_before};
use drt_graph::Graph;
use drt_states::{Jump, TailClaim};

/// Whether the tail has a rising function for each vertex of the graph, whose jumps lie below the bound. It takes no memory.
pub fn is_tail(graph: &Graph, bound: u32, tail: &TailClaim) -> bool
    ensures { IsTrue result ↔ IsTail bound graph.now tail.now }
{
    let curves = tail.curves.as_slice();
    if curves.len() != graph.vertex_count() as usize {
        return false;
    }
    for i in 0..curves.len() {
        if !is_curve(bound, curves[i].as_slice()) {
            return false;
        }
    }
    true
}

/// Whether the functions bound what walks ask for: each begins with the execution time of its vertex or more, and is no less than the
/// execution time followed by the function of the target of each edge. It looks at each jump once for each edge to its vertex.
pub fn bounds_walks(graph: &Graph, bound: u32, tail: &TailClaim) -> bool
    requires { IsTail bound graph.now tail.now }
    ensures { IsTrue result ↔ BoundsWalks bound graph.now tail.now }
{
    for u in 0..graph.vertex_count() {
        if !is_opened(graph, bound, tail, u) || !is_above(graph, bound, tail, u) {
            return false;
        }
    }
    true
}

// The function of the vertex.
fn curve<'a>(graph: &Graph, bound: u32, tail: &'a TailClaim, u: u32) -> &'a [Jump]
    requires tail { IsTail bound graph.now tail.now }
    requires vertex { u < vertex_count graph.now }
    ensures value { result.now ≡ curve_of tail.now u }
    ensures is { IsCurve bound result.now }
{
    tail.curves.as_slice()[u as usize].as_slice()
}

// Whether the function of the vertex begins with its execution time or more.
fn is_opened(graph: &Graph, bound: u32, tail: &TailClaim, u: u32) -> bool
    requires tail { IsTail bound graph.now tail.now }
    requires vertex { u < vertex_count graph.now }
    ensures { IsTrue result ↔ IsFunctionOpened graph.now tail.now u }
{
    graph.vertex(u).wcet as u64 <= curve(graph, bound, tail, u)[0].work
}

// Whether the function of the vertex is no less than what its edges ask for.
fn is_above(graph: &Graph, bound: u32, tail: &TailClaim, u: u32) -> bool
    requires tail { IsTail bound graph.now tail.now }
    requires vertex { u < vertex_count graph.now }
    ensures { IsTrue result ↔ IsAboveAll bound graph.now tail.now u }
{
    for k in 0..graph.out_degree(u) {
        if !is_above_edge(graph, bound, tail, u, k) {
            return false;
        }
    }
    true
}

// Whether the function of the vertex is no less than what the edge of that number asks for.
fn is_above_edge(graph: &Graph, bound: u32, tail: &TailClaim, u: u32, k: u32) -> bool
    requires tail { IsTail bound graph.now tail.now }
    requires vertex { u < vertex_count graph.now }
    requires edge { k < out_degree graph.now u }
    ensures { IsTrue result ↔ All (IsAboveJump bound graph.now tail.now u k) (curve_of tail.now (edge_of graph.now u k).to) }
{
    graph.keep_limits();
    let wcet = graph.vertex(u).wcet;
    let edge = *graph.out_edge(u, k);
    let own = curve(graph, bound, tail, u);
    let other = curve(graph, bound, tail, edge.to);
    is_over(bound, wcet, edge.sep, own, other)
}

// Whether the first function is no less than the execution time followed by the second one after the separation.
fn is_over(bound: u32, wcet: u32, sep: u32, own: &[Jump], other: &[Jump]) -> bool
    requires own { IsCurve bound own.now }
    requires other { IsCurve bound other.now }
    ensures { IsTrue result ↔ All (IsJumpOver bound wcet sep own.now) other.now }
{
    for jump in other {
        if jump.offset + sep as u64 >= bound as u64 {
            return true;
        }
        let room = value_before(own, jump.offset + sep as u64 + 1);
        if room < wcet as u64 || room - (wcet as u64) < jump.work {
            return false;
        }
    }
    true
}
