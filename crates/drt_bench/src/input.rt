//! What the subjects share: the numbers among the program's arguments, and rings with chords.
ghost use Rattle.std.specs.Prelude.{◌+◌, ◌≤◌};

use drt_model::{Edge, Name, Row, Task, Vertex};
use drt_test_tools::Draws;
use std::alloc::{AllocError, Global};

/// The number that an argument is, or the other number.
pub fn number(argument: Option<String>, other: u32) -> u32 {
    match argument {
        Some(text) => text.as_str().parse::<u32>().unwrap_or(other),
        None => other,
    }
}

/// The times that are drawn for a ring, in ticks: execution times from 1 on, and separations of so many lengths from the least one on.
#[derive(Clone, Copy)]
pub struct RingTimes {
    pub longest_wcet: u32,
    pub least_separation: u32,
    pub separations: u32,
}

/// A task of a ring through all vertices and, beyond its edges, of chords one further each time round. It is the same for the same numbers.
pub fn ring(
    alloc: Global,
    count: u32,
    edge_count: u32,
    times: RingTimes,
) -> Result<Task, AllocError>
    requires some { 1 ≤ count }
    requires few { count ≤ 96 }
    requires edges { edge_count ≤ 256 }
    requires wcets { (1 ≤ times.longest_wcet) × (times.longest_wcet ≤ 1000000) }
    requires separations { (1 ≤ times.least_separation) × (1 ≤ times.separations) }
    requires at_most { times.least_separation + times.separations ≤ 1000001 }
{
    let mut draws = Draws { state: 1 };
    let mut vertices = Vec::new(alloc);
    for v in 0..count {
        let name = [b'a' + (v / 26) as u8, b'a' + (v % 26) as u8];
        vertices.push(Vertex {
            name: Name::from_vec(Vec::from_slice(alloc, &name)?),
            wcet: draws.below(times.longest_wcet) + 1,
            deadline: 1,
        })?;
    }
    let mut edges = Vec::new(alloc);
    for k in 0..edge_count {
        edges.push(Edge {
            from: k % count,
            to: (k + 1 + k / count) % count,
            sep: times.least_separation + draws.below(times.separations),
        })?;
    }
    Ok(Task {
        name: Name::from_vec(Vec::from_slice(alloc, b"T")?),
        priority: 1,
        vertices: Row::from_vec(vertices),
        edges: Row::from_vec(edges),
    })
}
