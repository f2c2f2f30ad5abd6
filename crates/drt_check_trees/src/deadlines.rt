//! The greatest deadline of a set.
ghost use Rattle.std.specs.Prelude.{◌≡◌, ◌≤◌, max};
ghost use Rattle.drt_model.specs.Numbers.{most_time};
ghost use Rattle.drt_claims.specs.Trees.{greatest_deadline, latest_deadline};

use drt_model::{TaskSet, Vertex};

/// The greatest relative deadline of the set, 1 to 1,000,000 ticks.
pub fn greatest_deadline(set: &TaskSet) -> u32
    ensures value { result ≡ greatest_deadline set.now.tasks }
    ensures some { 1 ≤ result }
    ensures most { result ≤ most_time }
{
    let mut greatest = 0;
    for task in set.tasks() {
        greatest = larger(greatest, latest_deadline(task.vertices.as_slice()));
    }
    greatest
}

/// The greatest relative deadline of some vertices, in ticks. It is 0 where there are none.
pub fn latest_deadline(vertices: &[Vertex]) -> u32
    ensures { result ≡ latest_deadline vertices.now }
{
    let mut latest = 0;
    for vertex in vertices {
        latest = larger(latest, vertex.deadline);
    }
    latest
}

// The larger of two numbers.
fn larger(a: u32, b: u32) -> u32
    ensures { result ≡ max a b }
{
    if a < b { b } else { a }
}
