//! How fast the greatest ratio is found: graphs of a chosen size, one after another.
//!
//! The arguments after the subject are a number of vertices, a number of edges and a number of graphs; without them 6, 12 and 3. A fourth
//! one says what the graphs are: `drawn`, or near ties that are `rising` or `halving`. The graphs are the same in each run. The answer has
//! no times in it: `bench/ratio` takes them from outside.
ghost use Rattle.std.specs.Prelude.{◌<◌, ◌≤◌};

use crate::input::number;
use drt_graph::check;
use drt_model::{Edge, Name, Row, Task, Vertex, task_set};
use drt_ratio::greatest;
use drt_test_tools::Draws;
use std::alloc::{AllocError, Global};
use std::env::Args;

/// The longest time that is drawn, in ticks.
const LONGEST: u32 = 1_000_000;

// What the graphs are.
#[derive(Drop, Clone, Copy)]
enum Kind {
    // Times by chance, a ring through all vertices and chords.
    Drawn,
    // Loops, each with the next greater ratio that times allow, and edges to later vertices.
    Rising,
    // Loops, each with about half the times of the one before and a ratio that is a little greater, and such edges.
    Halving,
}

// Half a million, halved once for each step up to 18.
fn halved(v: u32) -> u32
    ensures at_least_one { 1 ≤ result }
    ensures at_most_half_a_million { result ≤ 500000 }
{
    (500_000u32 >> (v % 19)).max(1)
}

// The execution time of a vertex.
fn wcet(kind: Kind, draws: &mut Draws, v: u32) -> u32
    ensures at_least_one { 1 ≤ result }
    ensures at_most_a_million { result ≤ 1000000 }
{
    match kind {
        Kind::Drawn => draws.below(LONGEST) + 1,
        Kind::Rising => 1,
        Kind::Halving => halved(v),
    }
}

// The edge of this number: in a drawn graph those of a ring and, beyond them, of chords one further each time round; in the
// others the loops and, beyond them, edges to a vertex that is one later each time round.
fn edge(kind: Kind, draws: &mut Draws, count: u32, k: u32) -> Edge
    requires some { 1 ≤ count }
    requires few { count ≤ 96 }
    requires edge { k < 256 }
{
    let from = k % count;
    let round = k / count;
    match kind {
        Kind::Drawn => Edge {
            from,
            to: (k + 1 + round) % count,
            sep: draws.below(LONGEST) + 1,
        },
        Kind::Rising => Edge {
            from,
            to: from + round,
            sep: 1_000_000 - from,
        },
        Kind::Halving => Edge {
            from,
            to: from + round,
            sep: (2 * halved(from)).saturating_sub(from % 19).max(1),
        },
    }
}

// A task of vertices and edges of that kind, without the edges past the last vertex.
fn task(
    alloc: Global,
    kind: Kind,
    draws: &mut Draws,
    count: u32,
    edge_count: u32,
) -> Result<Task, AllocError>
    requires some { 1 ≤ count }
    requires few { count ≤ 96 }
    requires edges { edge_count ≤ 256 }
{
    let mut vertices = Vec::new(alloc);
    for v in 0..count {
        let name = [b'a' + (v / 26) as u8, b'a' + (v % 26) as u8];
        vertices.push(Vertex {
            name: Name::from_vec(Vec::from_slice(alloc, &name)?),
            wcet: wcet(kind, draws, v),
            deadline: 1,
        })?;
    }
    let mut edges = Vec::new(alloc);
    for k in 0..edge_count {
        let edge = edge(kind, draws, count, k);
        if edge.to < count {
            edges.push(edge)?;
        }
    }
    Ok(Task {
        name: Name::from_vec(Vec::from_slice(alloc, b"T")?),
        priority: 1,
        vertices: Row::from_vec(vertices),
        edges: Row::from_vec(edges),
    })
}

// The greatest ratio of one graph; 0/1 where the numbers make no graph.
fn ratio(
    alloc: Global,
    kind: Kind,
    draws: &mut Draws,
    count: u32,
    edge_count: u32,
) -> anyhow::Result<(u64, u64)>
    requires some { 1 ≤ count }
    requires few { count ≤ 96 }
    requires edges { edge_count ≤ 256 }
{
    let mut tasks = Vec::new(alloc);
    tasks.push(task(alloc, kind, draws, count, edge_count)?)?;
    let Some(set) = task_set(2, Row::from_vec(tasks)) else {
        return Ok((0, 1));
    };
    let graphs = check(alloc, &set)?;
    graphs.keep_limits();
    let proof = greatest(alloc, graphs.graph(0))?;
    Ok((proof.num, proof.den))
}

// The kind of this name; drawn without one.
fn kind_of(argument: Option<String>) -> Kind {
    match argument {
        Some(text) => match text.as_str() {
            "rising" => Kind::Rising,
            "halving" => Kind::Halving,
            _ => Kind::Drawn,
        },
        None => Kind::Drawn,
    }
}

/// Runs the subject with these arguments, and writes what it comes to.
pub fn run(rt: &impl Print, alloc: Global, mut arguments: Args) -> anyhow::Result<()> {
    let count = number(arguments.next(), 6).clamp(1, 96);
    let edge_count = number(arguments.next(), 12).min(256);
    let graph_count = number(arguments.next(), 3);
    let kind = kind_of(arguments.next());
    let mut draws = Draws { state: 1 };
    for number in 0..graph_count {
        let best = ratio(alloc, kind, &mut draws, count, edge_count)?;
        if number + 1 == graph_count {
            println!(rt;
                "{} graphs of {} vertices and {} edges, the last with {}/{}",
                graph_count, count, edge_count, best.0, best.1
            )?;
        }
    }
    Ok(())
}
