//! The worked task and tree.
ghost use Rattle.std.specs.Prelude.{◌≡◌, ◌<◌, ◌∷◌, [], All, IfOk, length};
ghost use Rattle.drt_check_tests.specs.Worked.{task, task_graph, tree};

use drt_check_values::{Query, take_values};
use drt_claims::{Pair, TreeClaim};
use drt_graph::{Graphs, check};
use drt_model::{Edge, Memory, Name, Row, Task, Vertex, task_set};
use std::alloc::Global;
use std::test::Fail;

fn vertex(alloc: Global, letter: u8, wcet: u32, deadline: u32) -> Result<Vertex, Memory>
    ensures { IfOk result (λ v. v ≡ record { name = letter ∷ []; wcet = wcet; deadline = deadline }) }
{
    let name = Name::from_vec(Vec::from_slice(alloc, &[letter])?);
    Ok(Vertex {
        name,
        wcet,
        deadline,
    })
}

fn given_task(alloc: Global) -> Result<Task, Memory>
    ensures { IfOk result (λ t. t ≡ task) }
{
    let name = Name::from_vec(Vec::from_slice(alloc, b"T")?);
    let mut vertices = Vec::new(alloc);
    vertices.push(vertex(alloc, b'x', 3, 5)?)?;
    vertices.push(vertex(alloc, b'y', 2, 4)?)?;
    let edges = [
        Edge {
            from: 0,
            to: 0,
            sep: 20,
        },
        Edge {
            from: 1,
            to: 1,
            sep: 4,
        },
    ];
    Ok(Task {
        name,
        priority: 1,
        vertices: Row::from_vec(vertices),
        edges: Row::from_vec(Vec::from_slice(alloc, &edges)?),
    })
}

fn given_graphs(alloc: Global) -> Result<Graphs, Fail>
    ensures { IfOk result (λ graphs. graphs ≡ task_graph ∷ []) }
{
    let mut tasks = Vec::new(alloc);
    tasks.push(given_task(alloc)?)?;
    let set = task_set(1, Row::from_vec(tasks)).ok_or("within the limits")?;
    Ok(check(alloc, &set)?)
}

fn walk(alloc: Global, vertices: &[u32]) -> Result<Row<u32>, Memory>
    ensures { IfOk result (λ row. row ≡ vertices.now) }
{
    Ok(Row::from_vec(Vec::from_slice(alloc, vertices)?))
}

fn given_tree(alloc: Global) -> Result<TreeClaim, Memory>
    ensures { IfOk result (λ claim. claim ≡ tree) }
{
    let mut walks = Vec::new(alloc);
    walks.push(walk(alloc, &[1])?)?;
    walks.push(walk(alloc, &[0])?)?;
    walks.push(walk(alloc, &[1, 1])?)?;
    let pairs = [Pair { left: 0, right: 1 }, Pair { left: 3, right: 2 }];
    Ok(TreeClaim {
        walks: Row::from_vec(walks),
        pairs: Row::from_vec(Vec::from_slice(alloc, &pairs)?),
    })
}

// Whether the values of the worked tree's nodes fit into the rooms, and what they leave there.
pub(crate) fn are_taken(alloc: Global, queries: &[Query], rooms: &mut [u32]) -> Result<bool, Fail>
    requires nodes { All (λ q. q.node < 5) queries.now }
    requires count { length rooms.old ≡ length queries.now }
    ensures { length rooms.new ≡ length rooms.old }
{
    let graphs = given_graphs(alloc)?;
    let tree = given_tree(alloc)?;
    let graph = graphs.graph(0);
    Ok(take_values(alloc, graph, &tree, 5, queries, rooms)?)
}
