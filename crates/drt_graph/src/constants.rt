//! The constant of a task: how far the work of its walks may be above its ratio's share.
ghost use Rattle.std.specs.Prelude.{◌≡◌, ℕ, ◌*◌, ◌<◌, ◌≤◌, ℤ, pos, negsuc, ◌-ℤ◌, ◌≤ℤ◌, length};
ghost use Rattle.std.specs.Int.{int_max};
ghost use Rattle.drt_model.specs.Numbers.{most_term, most_height};
ghost use Rattle.drt_model.specs.Digraph.{vertex_count};
ghost use Rattle.drt_model.specs.Walk.{wcet, deadline};
ghost use Rattle.drt_graph.specs.Potential.{potential_of};
ghost use Rattle.drt_graph.specs.Horizon.{most_over, constant_of, above_zero};
ghost use Rattle.drt_graph.specs.Fits.{AreNear};

use crate::graph::Graph;
use crate::potentials::potential_at;

// The larger of two numbers.
fn larger(a: i64, b: i64) -> i64
    ensures { result ≡ int_max a b }
{
    if b < a { a } else { b }
}

// The share of one vertex as the first of a walk.
fn opening(graph: &Graph, den: u64, potentials: &[i64], v: u32) -> i64
    requires den { den ≤ most_term }
    requires near { AreNear graph.now potentials.now }
    requires vertex { v < vertex_count graph.now }
    ensures value { result ≡ pos (den * wcet graph.now v) -ℤ potential_of potentials.now v }
    ensures low { negsuc 9999999999999999 ≤ℤ result }
    ensures high { result ≤ℤ pos 11000000000000000 }
{
    graph.keep_limits();
    let work = den * graph.vertex(v).wcet as u64;
    work as i64 - potential_at(potentials, v)
}

// The greatest share of a vertex as the first of a walk.
fn greatest_opening(graph: &Graph, den: u64, potentials: &[i64]) -> i64
    requires den { den ≤ most_term }
    requires near { AreNear graph.now potentials.now }
    ensures value { result ≡ most_over graph.now (λ u. pos (den * wcet graph.now u) -ℤ potential_of potentials.now u) }
    ensures low { negsuc 9999999999999999 ≤ℤ result }
    ensures high { result ≤ℤ pos 11000000000000000 }
{
    let count = graph.vertex_count();
    let mut most = opening(graph, den, potentials, 0);
    'vertices: for v in 1..count {
        most = larger(most, opening(graph, den, potentials, v));
    }
    most
}

// The share of one vertex as the last of a walk.
fn closing(graph: &Graph, num: u64, potentials: &[i64], v: u32) -> i64
    requires num { num ≤ most_term }
    requires near { AreNear graph.now potentials.now }
    requires vertex { v < vertex_count graph.now }
    ensures value { result ≡ potential_of potentials.now v -ℤ pos (num * deadline graph.now v) }
    ensures low { negsuc 10999999999999999 ≤ℤ result }
    ensures high { result ≤ℤ pos most_height }
{
    graph.keep_limits();
    let time = num * graph.vertex(v).deadline as u64;
    potential_at(potentials, v) - time as i64
}

// The greatest share of a vertex as the last of a walk.
fn greatest_closing(graph: &Graph, num: u64, potentials: &[i64]) -> i64
    requires num { num ≤ most_term }
    requires near { AreNear graph.now potentials.now }
    ensures value { result ≡ most_over graph.now (λ w. potential_of potentials.now w -ℤ pos (num * deadline graph.now w)) }
    ensures low { negsuc 10999999999999999 ≤ℤ result }
    ensures high { result ≤ℤ pos most_height }
{
    let count = graph.vertex_count();
    let mut most = closing(graph, num, potentials, 0);
    'vertices: for v in 1..count {
        most = larger(most, closing(graph, num, potentials, v));
    }
    most
}

// The number, or 0 where it is negative.
fn positive(z: i64) -> u64
    ensures { result ≡ above_zero z }
{
    if z > 0 { z as u64 } else { 0 }
}

/// The constant of a graph at the ratio `num / den` where it is above 0, and else 0: what the work of a walk, times `den`, can be above
/// its last deadline, times `num`, where the potentials fit. It takes no memory.
pub fn constant(graph: &Graph, num: u64, den: u64, potentials: &[i64]) -> u64
    requires num { num ≤ most_term }
    requires den { den ≤ most_term }
    requires near { AreNear graph.now potentials.now }
    ensures value { result ≡ above_zero (constant_of graph.now num den potentials.now) }
    ensures most { result ≤ 21000000000000000 }
{
    positive(greatest_opening(graph, den, potentials) + greatest_closing(graph, num, potentials))
}
