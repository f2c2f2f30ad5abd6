//! Trees that were worked by hand.
ghost use Rattle.std.specs.Prelude.{◌≡◌, ℕ, ◌+◌, ◌≤◌, List, length, true, []};
ghost use Rattle.std.specs.List.{All};

use crate::worked_trees::{Jobs, Worked, has_values, shared_label, tree, walk, worked_tree};
use drt_model::Row;
use drt_request::RequestLabel;
use drt_steps::{Steps, least_time};
use drt_tree::Forest;
use std::alloc::{AllocError as Memory, Global};
use std::process::Abort;
use std::sync::Arc;
use std::test::Fail;

// What a node is: a leaf with the walk of these vertices, or the pair of these nodes.
#[derive(Clone, Copy)]
enum Kind<'a> {
    Leaf(&'a [u32]),
    Pair(u32, u32),
}

// Whether a node is of this kind.
fn is_node(forest: &Forest, node: u32, kind: Kind<'_>) -> bool {
    if node as usize >= forest.all().len() {
        return false;
    }
    match forest.children(node) {
        Some(halves) => match kind {
            Kind::Pair(left, right) => halves == (left, right),
            Kind::Leaf(_) => false,
        },
        None => match kind {
            Kind::Pair(_, _) => false,
            Kind::Leaf(vertices) => forest.walk(node).as_slice() == vertices,
        },
    }
}

// Whether nodes are of these kinds.
fn are_nodes(forest: &Forest, nodes: &[(u32, Kind<'_>)]) -> bool {
    for (node, kind) in nodes {
        if !is_node(forest, *node, *kind) {
            return false;
        }
    }
    true
}

// Whether the function of a node has these values.
fn has_node_values(forest: &Forest, node: u32, values: &[u64]) -> bool {
    (node as usize) < forest.all().len() && has_values(forest.steps(node), values)
}

// Whether so many leaves are under a node.
fn has_leaves(forest: &Forest, node: u32, count: u32) -> bool {
    (node as usize) < forest.all().len() && forest.leaves_under(node) == count
}

fn least(rt: &impl Abort, wcet: u64, deadline: u64, pool: &[Steps], node: u32) -> Option<u64>
    requires { wcet ≤ 1000 }
{
    assert!(rt; (node as usize) < pool.len());
    assert!(rt; deadline <= pool[node as usize].bound());
    least_time(wcet, deadline, pool, &[node])
}

// Whether the nodes of three walks have these numbers of leaves and these values.
fn has_five(forest: &Forest, nodes: &[(u32, &[u64]); 5]) -> bool {
    for (node, (leaves, values)) in nodes.iter().enumerate() {
        if !has_leaves(forest, node as u32, *leaves)
            || !has_node_values(forest, node as u32, values)
        {
            return false;
        }
    }
    forest.all().len() == 5
}

#[test]
fn three_walks_are_put_in_order_and_paired(rt: HostRuntime) -> Result<(), Fail> {
    let walks: [Worked<'_>; 3] = [
        (Jobs::Two, &[1, 1]),
        (Jobs::One(0, 3), &[0]),
        (Jobs::One(1, 2), &[1]),
    ];
    let kinds = [
        (0, Kind::Leaf(&[1])),
        (1, Kind::Leaf(&[0])),
        (2, Kind::Leaf(&[1, 1])),
        (3, Kind::Pair(0, 1)),
        (4, Kind::Pair(3, 2)),
    ];
    let nodes: [(u32, &[u64]); 5] = [
        (1, &[2, 2, 2, 2, 2]),
        (1, &[3, 3, 3, 3, 3]),
        (1, &[2, 2, 2, 2, 4]),
        (2, &[3, 3, 3, 3, 3]),
        (3, &[3, 3, 3, 3, 4]),
    ];
    let (forest, root) = worked_tree(&rt, rt.alloc(), &walks)?;
    assert!(rt; root == 4 && are_nodes(&forest, &kinds) && has_five(&forest, &nodes));
    Ok(())
}

// Whether these nodes have these least times, for 2 ticks within 5.
fn have_least_times(rt: &impl Abort, pool: &[Steps], nodes: &[(u32, Option<u64>)]) -> bool {
    for (node, time) in nodes {
        if least(rt, 2, 5, pool, *node) != *time {
            return false;
        }
    }
    true
}

#[test]
fn the_least_time_comes_down_with_the_nodes(rt: HostRuntime) -> Result<(), Fail> {
    let walks: [Worked<'_>; 3] = [
        (Jobs::One(1, 2), &[1]),
        (Jobs::One(0, 3), &[0]),
        (Jobs::Two, &[1, 1]),
    ];
    let (forest, root) = worked_tree(&rt, rt.alloc(), &walks)?;
    let nodes = [(root, None), (3, Some(5)), (2, Some(4))];
    assert!(rt; have_least_times(&rt, forest.all(), &nodes));
    Ok(())
}

#[test]
fn equal_functions_are_put_in_order_by_their_walks(rt: HostRuntime) -> Result<(), Fail> {
    let walks: [Worked<'_>; 4] = [
        (Jobs::One(1, 2), &[1]),
        (Jobs::One(1, 2), &[0, 3]),
        (Jobs::One(1, 2), &[0]),
        (Jobs::One(1, 1), &[2]),
    ];
    let nodes = [
        (0, Kind::Leaf(&[2])),
        (1, Kind::Leaf(&[0])),
        (2, Kind::Leaf(&[0, 3])),
        (3, Kind::Leaf(&[1])),
        (4, Kind::Pair(0, 1)),
        (5, Kind::Pair(2, 3)),
        (6, Kind::Pair(4, 5)),
    ];
    let (forest, root) = worked_tree(&rt, rt.alloc(), &walks)?;
    assert!(rt; root == 6 && are_nodes(&forest, &nodes));
    Ok(())
}

// The labels of the walks of one vertex, in no order: see the tree below.
fn many_labels(alloc: Global, count: u32) -> Result<Vec<Arc<RequestLabel>>, Memory>
    requires { count ≤ 1000 }
{
    let mut labels = Vec::new(alloc);
    for vertex in 0..count {
        let wcet = vertex * 7 % count + 1;
        labels.push(shared_label(alloc, Jobs::One(vertex, wcet as u16))?)?;
    }
    Ok(labels)
}

// The walks of one vertex each.
fn many_walks(alloc: Global, count: u32) -> Result<Vec<Row<u32>>, Memory> {
    let mut walks = Vec::new(alloc);
    for vertex in 0..count {
        walks.push(walk(alloc, &[vertex])?)?;
    }
    Ok(walks)
}

// The tree over as many walks of one vertex, of which one asks for 1 tick, one for 2 and so on, in no order. The least
// is that of vertex 0, the next that of the vertex of which 7 times the number is 1 more than a multiple, and so on.
fn tree_of(rt: &impl Abort, alloc: Global, count: u32) -> Result<(Forest, u32), Memory>
    requires some { 1 ≤ count }
    requires few { count ≤ 1000 }
{
    let labels = many_labels(alloc, count)?;
    let walks = many_walks(alloc, count)?;
    tree(rt, alloc, labels.as_slice(), walks.as_slice())
}

// Whether a node is a leaf.
fn has_no_children(forest: &Forest, node: u32) -> bool {
    (node as usize) < forest.all().len() && forest.children(node).is_none()
}

// The root of a part of the tree above, whose leaves go up from `low` and whose pairs go up from `first`: those of its
// left part first, then those of its right part, and then the pair of both.
fn assert_part(rt: &impl Abort, forest: &Forest, low: u32, count: u32, first: u32) -> u32
    requires some { 1 ≤ count }
    requires leaves { low + count ≤ 1000 }
    requires pairs { first + count ≤ 2000 }
{
    let root = if count == 1 {
        assert!(rt; has_no_children(forest, low));
        low
    } else {
        let half = count - count / 2;
        let left = assert_part(rt, forest, low, half, first);
        let right = assert_part(rt, forest, low + half, count / 2, first + half - 1);
        let root = first + count - 2;
        assert!(rt; is_node(forest, root, Kind::Pair(left, right)));
        root
    };
    let most = (low + count) as u64;
    assert!(rt; has_leaves(forest, root, count));
    assert!(rt; has_node_values(forest, root, &[most, most, most, most, most]));
    root
}

// The tree over so many walks of one vertex is that tree.
fn assert_nodes(rt: &impl Abort, forest: &Forest, root: u32, count: u32)
    requires some { 1 ≤ count }
    requires few { count ≤ 1000 }
{
    assert!(rt; forest.all().len() == 2 * count as usize - 1);
    assert!(rt; assert_part(rt, forest, 0, count, count) == root);
    for vertex in 0..count {
        assert!(rt; is_node(forest, vertex * 7 % count, Kind::Leaf(&[vertex])));
    }
}

fn assert_tree(rt: &impl Abort, alloc: Global, count: u32) -> Result<(), Memory>
    requires some { 1 ≤ count }
    requires few { count ≤ 1000 }
{
    let (forest, root) = tree_of(rt, alloc, count)?;
    assert_nodes(rt, &forest, root, count);
    Ok(())
}

#[test]
fn trees_are_halved_and_numbered_from_the_left(rt: HostRuntime) -> Result<(), Fail> {
    let alloc = rt.alloc();
    assert_tree(&rt, alloc, 1)?;
    assert_tree(&rt, alloc, 2)?;
    assert_tree(&rt, alloc, 3)?;
    assert_tree(&rt, alloc, 5)?;
    assert_tree(&rt, alloc, 1000)?;
    Ok(())
}

#[test]
fn of_five_leaves_three_are_on_the_left(rt: HostRuntime) -> Result<(), Fail> {
    let nodes = [
        (5, Kind::Pair(0, 1)),
        (6, Kind::Pair(5, 2)),
        (7, Kind::Pair(3, 4)),
        (8, Kind::Pair(6, 7)),
    ];
    let (forest, root) = tree_of(&rt, rt.alloc(), 5)?;
    assert!(rt; root == 8 && are_nodes(&forest, &nodes));
    Ok(())
}
